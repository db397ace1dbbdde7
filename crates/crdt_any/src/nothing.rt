ghost use Rattle.std.specs.Prelude.{[], true, false, None, Err};
ghost use Rattle.field_codec.specs.declared.error.TakeError.TheVariants.{Bad};
ghost use Rattle.crdt_core.specs.declared.value.Value.TheVariants.{Flag};
ghost use Rattle.crdt_any.specs.NothingLaws.{nothing_law, nothing_in_maps, nothing_resets, nothing_spells, nothing_named};

use crdt_core::{Act, Crdt, Field, Kind, Op, Value, reads_state};
use field_codec::TakeError;
use site_vector::Dot;
use std::alloc::{AllocError, Global};

/// A type without kinds: what the fields of the innermost maps are of.
pub struct Nothing;

impl Crdt for Nothing {
    type State = ();

    type Effect = ();

    ghost has = { λ k. false };

    ghost initial = { λ k. tt };

    ghost applied = { λ s d e. tt };

    ghost generated = { λ k s p a n. tt };

    ghost value_of = { λ s. Flag false };

    ghost stamp_of = { λ e. None };

    ghost meaning = { λ k us. Flag false };

    ghost names = { λ e d. false };

    ghost holds = { λ s d. false };

    ghost laws = { nothing_law };

    ghost can_put = { λ e. true };

    ghost is_spelled = { λ e. true };

    ghost sets = { λ e. [] };

    ghost spelling = { λ e. [] };

    ghost reading = { λ k bytes at. Err (Bad at) };

    ghost spells = { nothing_spells };

    ghost named = { nothing_named };

    ghost is_blank = { λ s. true };

    ghost in_maps = { nothing_in_maps };

    ghost resets = { nothing_resets };

    fn has(kind: Kind) -> bool {
        false
    }

    fn empty(alloc: Global, kind: Kind) -> Result<(), AllocError> {
        Ok(())
    }

    fn needs_state(kind: Kind, op: &Op) -> bool {
        reads_state(kind)
    }

    fn is_too_deep(kind: Kind, path: &[Field]) -> bool {
        false
    }

    fn is_blank(state: &()) -> bool {
        true
    }

    fn effect(
        alloc: Global,
        kind: Kind,
        path: &[Field],
        act: &Act,
        state: &(),
        now: u64,
    ) -> Result<(), AllocError> {
        Ok(())
    }

    fn stamp(effect: &()) -> Option<u64> {
        None
    }

    fn apply(alloc: Global, state: &mut (), dot: Dot, effect: &()) -> Result<(), AllocError> {
        Ok(())
    }

    fn copy(alloc: Global, state: &()) -> Result<(), AllocError> {
        Ok(())
    }

    fn copy_effect(alloc: Global, effect: &()) -> Result<(), AllocError> {
        Ok(())
    }

    fn value(alloc: Global, state: &()) -> Result<Value, AllocError> {
        Ok(Value::Flag(false))
    }

    fn put_effect(out: &mut Vec<u8>, effect: &()) -> Result<(), AllocError> {
        Ok(())
    }

    fn take_effect(
        alloc: Global,
        kind: Kind,
        bytes: &[u8],
        at: usize,
    ) -> Result<((), usize), TakeError> {
        Err(TakeError::Bad { at })
    }
}
