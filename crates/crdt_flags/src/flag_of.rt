ghost use Rattle.std.specs.Prelude.{◌≡◌, Option, Bool, OnOk};
ghost use Rattle.std.specs.FinMap.{empty};
ghost use Rattle.crdt_core.specs.Kept.{kept_step, is_kept, keeps_none};
ghost use Rattle.crdt_meanings.specs.FlagMeaning.{flag_meaning};
ghost use Rattle.crdt_meanings.specs.Flags.{flag_kind, flag_has, flag_step, flag_value, kind_made, flag_names};
ghost use Rattle.crdt_flags.specs.EffectForm.{can_put_flag, keeps_flag, is_flag_spelled, flag_sets, flag_spelling, flag_at, flag_spells, flag_named};
ghost use Rattle.crdt_meanings.proofs.FlagLaws.{flag_law, flag_in_maps, flag_resets};
ghost use Rattle.crdt_meanings.specs.Without.{no_stamp};

use crate::FlagEffect;
use crate::effect::effect_of;
use crate::effect_form::FlagForm;
use crdt_core::{Act, Crdt, Dots, Field, Kept, Kind, Op, Value, reads_state};
use field_codec::{Form, TakeError, put_whole};
use site_vector::Dot;
use std::alloc::{AllocError, Global};

/// The flag. Of an enable and a disable that haven't seen each other one wins: the disable where `DISABLES_WIN` is true,
/// and else the enable. A state is the enables that no later update has taken out, and where disables win, such disables
/// too.
pub struct FlagOf<const DISABLES_WIN: bool>;

/// The flag where an enable wins over a disable that hasn't seen it.
pub type FlagEw = FlagOf<false>;

/// The flag where a disable wins over an enable that hasn't seen it.
pub type FlagDw = FlagOf<true>;

impl<const DISABLES_WIN: bool> Crdt for FlagOf<DISABLES_WIN> {
    type State = Kept<bool>;

    type Effect = FlagEffect;

    ghost has = { flag_has DISABLES_WIN };

    ghost initial = { λ k. empty };

    ghost applied = { flag_step DISABLES_WIN };

    ghost generated = { kind_made };

    ghost value_of = { flag_value DISABLES_WIN };

    ghost stamp_of = { no_stamp };

    ghost meaning = { flag_meaning DISABLES_WIN };

    ghost names = { flag_names };

    ghost holds = { is_kept };

    ghost laws = { flag_law DISABLES_WIN };

    ghost is_blank = { keeps_none };

    ghost in_maps = { flag_in_maps DISABLES_WIN };

    ghost resets = { flag_resets DISABLES_WIN };

    ghost can_put = { can_put_flag };

    ghost keeps = { keeps_flag };

    ghost is_spelled = { is_flag_spelled };

    ghost sets = { flag_sets };

    ghost spelling = { flag_spelling };

    ghost reading = { λ k. flag_at };

    ghost spells = { flag_spells (flag_has DISABLES_WIN) };

    ghost named = { flag_named };

    fn has(kind: Kind) -> bool {
        kind == kind_where(DISABLES_WIN)
    }

    fn empty(alloc: Global, kind: Kind) -> Result<Kept<bool>, AllocError> {
        Ok(Kept::new(alloc))
    }

    fn needs_state(kind: Kind, op: &Op) -> bool {
        reads_state(kind)
    }

    fn is_too_deep(kind: Kind, path: &[Field]) -> bool {
        false
    }

    fn is_blank(state: &Kept<bool>) -> bool {
        state.is_empty()
    }

    fn effect(
        alloc: Global,
        kind: Kind,
        path: &[Field],
        act: &Act,
        state: &Kept<bool>,
        now: u64,
    ) -> Result<FlagEffect, AllocError> {
        effect_of(alloc, act, state)
    }

    fn stamp(effect: &FlagEffect) -> Option<u64> {
        None
    }

    fn apply(
        alloc: Global,
        state: &mut Kept<bool>,
        dot: Dot,
        effect: &FlagEffect,
    ) -> Result<(), AllocError> {
        match effect {
            FlagEffect::Enable(dots) => step(state, dot, Some(true), dots),
            FlagEffect::Disable(dots) => step(state, dot, DISABLES_WIN.then_some(false), dots),
            FlagEffect::Reset(dots) => step(state, dot, None, dots),
        }
    }

    fn copy(alloc: Global, state: &Kept<bool>) -> Result<Kept<bool>, AllocError> {
        state.copy()
    }

    fn copy_effect(alloc: Global, effect: &FlagEffect) -> Result<FlagEffect, AllocError> {
        effect.copy(alloc)
    }

    fn value(alloc: Global, state: &Kept<bool>) -> Result<Value, AllocError> {
        if DISABLES_WIN {
            return Ok(Value::Flag(state.has_marked() && !state.has_unmarked()));
        }
        Ok(Value::Flag(state.has_marked()))
    }

    fn put_effect(out: &mut Vec<u8>, effect: &FlagEffect) -> Result<(), AllocError> {
        put_whole(&FlagForm, out, effect)
    }

    fn take_effect(
        alloc: Global,
        kind: Kind,
        bytes: &[u8],
        at: usize,
    ) -> Result<(FlagEffect, usize), TakeError> {
        FlagForm.take(alloc, bytes, at)
    }
}

fn kind_where(disables_win: bool) -> Kind
    ensures { result ≡ flag_kind disables_win }
{
    if disables_win {
        Kind::FlagDw
    } else {
        Kind::FlagEw
    }
}

/// Takes out what stands at the dots, and puts a value at this one, where there is one.
fn step(kept: &mut Kept<bool>, dot: Dot, own: Option<bool>, dots: &Dots) -> Result<(), AllocError>
    ensures { OnOk result (kept.new ≡ kept_step kept.old dot dots.now own) }
{
    kept.take_out(dots.as_slice());
    match own {
        Some(mark) => kept.put(dot, mark),
        None => Ok(()),
    }
}
