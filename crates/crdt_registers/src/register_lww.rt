ghost use Rattle.std.specs.Prelude.{◌≡◌, ◌+◌, min, max, None, IfOk};
ghost use Rattle.crdt_core.specs.Stamps.{last_stamp};
ghost use Rattle.crdt_meanings.specs.RegisterMeaning.{lww_meaning, word_of};
ghost use Rattle.crdt_meanings.specs.Without.{no_dot};
ghost use Rattle.crdt_meanings.specs.RegisterLww.{lww_has, lww_step, lww_made_on, lww_made, lww_stamp, above, outlasts, unassigned};
ghost use Rattle.crdt_registers.specs.LwwForm.{can_put_lww, keeps_lww, is_lww_spelled, lww_sets, lww_spelling, lww_at, lww_spells, lww_named};
ghost use Rattle.crdt_meanings.proofs.LwwLaw.{lww_law, lww_in_maps, lww_resets};

use crate::assigned::{empty_text, is_before, text_of};
use crate::lww_form::LwwForm;
use crate::{Assigned, Stamped};
use crdt_core::{Act, Crdt, Field, Kind, Op, Value, reads_state};
use field_codec::{Form, TakeError, put_whole};
use site_vector::Dot;
use std::alloc::{AllocError, Global};

/// Where stamps stay.
pub(crate) const LAST_STAMP: u64 = (1 << 63) - 1;

/// The register that the last writer wins: a state is the assign with the greatest stamp, or else the greatest dot.
pub struct RegisterLww;

impl Crdt for RegisterLww {
    type State = Option<Stamped>;

    type Effect = Assigned;

    ghost has = { lww_has };

    ghost initial = { λ k. None };

    ghost applied = { lww_step };

    ghost generated = { lww_made };

    ghost value_of = { word_of };

    ghost stamp_of = { lww_stamp };

    ghost meaning = { lww_meaning };

    ghost names = { no_dot };

    ghost holds = { no_dot };

    ghost laws = { lww_law };

    ghost is_blank = { unassigned };

    ghost in_maps = { lww_in_maps };

    ghost resets = { lww_resets };

    ghost can_put = { can_put_lww };

    ghost keeps = { keeps_lww };

    ghost is_spelled = { is_lww_spelled };

    ghost sets = { lww_sets };

    ghost spelling = { lww_spelling };

    ghost reading = { λ k. lww_at };

    ghost spells = { lww_spells lww_has };

    ghost named = { lww_named };

    fn has(kind: Kind) -> bool {
        kind == Kind::RegisterLww
    }

    fn empty(alloc: Global, kind: Kind) -> Result<Option<Stamped>, AllocError> {
        Ok(None)
    }

    fn needs_state(kind: Kind, op: &Op) -> bool {
        reads_state(kind)
    }

    fn is_too_deep(kind: Kind, path: &[Field]) -> bool {
        false
    }

    fn is_blank(state: &Option<Stamped>) -> bool {
        state.is_none()
    }

    fn effect(
        alloc: Global,
        kind: Kind,
        path: &[Field],
        act: &Act,
        state: &Option<Stamped>,
        now: u64,
    ) -> Result<Assigned, AllocError> {
        effect_of(alloc, act, state, now)
    }

    fn stamp(effect: &Assigned) -> Option<u64> {
        Some(effect.stamp)
    }

    #[tactic(auto, using(crate::proofs::OneAssign::step_stays, crate::proofs::OneAssign::step_taken))]
    fn apply(
        alloc: Global,
        state: &mut Option<Stamped>,
        dot: Dot,
        effect: &Assigned,
    ) -> Result<(), AllocError> {
        if stays(state, dot, effect) {
            return Ok(());
        }
        let text = effect.text.copy(alloc)?;
        *state = Some(Stamped {
            stamp: effect.stamp,
            dot,
            text,
        });
        Ok(())
    }

    fn copy(alloc: Global, state: &Option<Stamped>) -> Result<Option<Stamped>, AllocError> {
        match state {
            Some(assign) => Ok(Some(assign.copy(alloc)?)),
            None => Ok(None),
        }
    }

    fn copy_effect(alloc: Global, effect: &Assigned) -> Result<Assigned, AllocError> {
        effect.copy(alloc)
    }

    fn value(alloc: Global, state: &Option<Stamped>) -> Result<Value, AllocError> {
        match state {
            Some(assign) => Ok(Value::Word(assign.text.copy(alloc)?)),
            None => Ok(Value::Word(empty_text(alloc)?)),
        }
    }

    fn put_effect(out: &mut Vec<u8>, effect: &Assigned) -> Result<(), AllocError> {
        put_whole(&LwwForm, out, effect)
    }

    fn take_effect(
        alloc: Global,
        kind: Kind,
        bytes: &[u8],
        at: usize,
    ) -> Result<(Assigned, usize), TakeError> {
        LwwForm.take(alloc, bytes, at)
    }
}

/// The effect of an assign to this register at a clock value in ticks.
fn effect_of(
    alloc: Global,
    act: &Act,
    state: &Option<Stamped>,
    now: u64,
) -> Result<Assigned, AllocError>
    ensures { IfOk result (λ e. e ≡ lww_made_on state.now act.now now) }
{
    let text = text_of(alloc, act)?;
    Ok(Assigned {
        stamp: next_stamp(state, now),
        text,
    })
}

/// The stamp of an assign to this register at a clock value in ticks.
fn next_stamp(state: &Option<Stamped>, now: u64) -> u64
    ensures { result ≡ min last_stamp (above now state.now) }
{
    match state {
        Some(assign) => stamp_after(assign.stamp, now),
        None => LAST_STAMP.min(now),
    }
}

fn stamp_after(stamp: u64, now: u64) -> u64
    ensures { result ≡ min last_stamp (max (stamp + 1) now) }
{
    if stamp >= LAST_STAMP {
        return LAST_STAMP;
    }
    LAST_STAMP.min(now.max(stamp + 1))
}

/// Whether the assign that stands is later than this one.
fn stays(state: &Option<Stamped>, dot: Dot, effect: &Assigned) -> bool
    ensures { result ≡ outlasts state.now dot effect.now }
{
    match state {
        Some(assign) => is_before(effect, dot, assign),
        None => false,
    }
}
