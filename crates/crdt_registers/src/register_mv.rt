ghost use Rattle.std.specs.Prelude.{◌≡◌};
ghost use Rattle.std.specs.FinMap.{empty};
ghost use Rattle.crdt_core.specs.Kept.{is_kept, keeps_none};
ghost use Rattle.crdt_meanings.specs.RegisterMeaning.{mv_meaning};
ghost use Rattle.crdt_meanings.specs.RegisterMv.{mv_has, mv_step, mv_made, mv_value, mv_names};
ghost use Rattle.crdt_registers.specs.MvForm.{can_put_mv, keeps_mv, is_mv_spelled, mv_sets, mv_spelling, mv_at, mv_spells, mv_named};
ghost use Rattle.crdt_meanings.proofs.MvLaw.{mv_law, mv_in_maps, mv_resets};
ghost use Rattle.crdt_meanings.specs.Without.{no_stamp};

use crate::MvEffect;
use crate::mv_effect::effect_of;
use crate::mv_form::MvForm;
use crate::texts::in_order;
use crdt_core::{Act, Crdt, Field, Kept, Kind, Op, Value, reads_state};
use field_codec::{Form, TakeError, Text, put_whole};
use site_vector::Dot;
use std::alloc::{AllocError, Global};

/// The register that keeps the texts of concurrent assigns: a state is the texts that no later update has taken out, each
/// at the dot of its assign.
pub struct RegisterMv;

impl Crdt for RegisterMv {
    type State = Kept<Text>;

    type Effect = MvEffect;

    ghost has = { mv_has };

    ghost initial = { λ k. empty };

    ghost applied = { mv_step };

    ghost generated = { mv_made };

    ghost value_of = { mv_value };

    ghost stamp_of = { no_stamp };

    ghost meaning = { mv_meaning };

    ghost names = { mv_names };

    ghost holds = { is_kept };

    ghost laws = { mv_law };

    ghost is_blank = { keeps_none };

    ghost in_maps = { mv_in_maps };

    ghost resets = { mv_resets };

    ghost can_put = { can_put_mv };

    ghost keeps = { keeps_mv };

    ghost is_spelled = { is_mv_spelled };

    ghost sets = { mv_sets };

    ghost spelling = { mv_spelling };

    ghost reading = { λ k. mv_at };

    ghost spells = { mv_spells mv_has };

    ghost named = { mv_named };

    fn has(kind: Kind) -> bool {
        kind == Kind::RegisterMv
    }

    fn empty(alloc: Global, kind: Kind) -> Result<Kept<Text>, AllocError> {
        Ok(Kept::new(alloc))
    }

    fn needs_state(kind: Kind, op: &Op) -> bool {
        reads_state(kind)
    }

    fn is_too_deep(kind: Kind, path: &[Field]) -> bool {
        false
    }

    fn is_blank(state: &Kept<Text>) -> bool {
        state.is_empty()
    }

    fn effect(
        alloc: Global,
        kind: Kind,
        path: &[Field],
        act: &Act,
        state: &Kept<Text>,
        now: u64,
    ) -> Result<MvEffect, AllocError> {
        effect_of(alloc, act, state)
    }

    fn stamp(effect: &MvEffect) -> Option<u64> {
        None
    }

    fn apply(
        alloc: Global,
        state: &mut Kept<Text>,
        dot: Dot,
        effect: &MvEffect,
    ) -> Result<(), AllocError> {
        match effect {
            MvEffect::Assign { text, dots } => {
                state.take_out(dots.as_slice());
                state.put(dot, text.copy(alloc)?)
            }
            MvEffect::Reset(dots) => {
                state.take_out(dots.as_slice());
                Ok(())
            }
        }
    }

    fn copy(alloc: Global, state: &Kept<Text>) -> Result<Kept<Text>, AllocError> {
        state.copy()
    }

    fn copy_effect(alloc: Global, effect: &MvEffect) -> Result<MvEffect, AllocError> {
        effect.copy(alloc)
    }

    fn value(alloc: Global, state: &Kept<Text>) -> Result<Value, AllocError> {
        Ok(Value::Words(in_order(alloc, state)?))
    }

    fn put_effect(out: &mut Vec<u8>, effect: &MvEffect) -> Result<(), AllocError> {
        put_whole(&MvForm, out, effect)
    }

    fn take_effect(
        alloc: Global,
        kind: Kind,
        bytes: &[u8],
        at: usize,
    ) -> Result<(MvEffect, usize), TakeError> {
        MvForm.take(alloc, bytes, at)
    }
}
