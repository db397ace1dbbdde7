ghost use Rattle.std.specs.Prelude.{◌≡◌, pos};
ghost use Rattle.crdt_meanings.specs.CounterMeaning.{counter_meaning};
ghost use Rattle.crdt_meanings.specs.CounterPn.{pn_has, pn_step, pn_made, pn_value, is_zero};
ghost use Rattle.crdt_counters.specs.EffectForm.{is_amount_number, amount_sets, amount_spelling, amount_at, pn_spells, pn_named};
ghost use Rattle.crdt_meanings.proofs.PnLaw.{pn_law, pn_in_maps, pn_resets};
ghost use Rattle.crdt_meanings.specs.Without.{no_stamp, no_dot};

use crate::amount_form::AmountForm;
use crate::amounts::{amount_of, sum};
use crdt_core::{Act, Crdt, Field, Kind, Op, Value, reads_state};
use field_codec::{Form, TakeError, put_whole};
use site_vector::Dot;
use std::alloc::{AllocError, Global};

/// The counter whose updates stay: a state is the sum of all amounts, in 128 bits, and an effect an amount from
/// -2^31 to 2^31.
pub struct CounterPn;

impl Crdt for CounterPn {
    type State = i128;

    type Effect = i64;

    ghost has = { pn_has };

    ghost initial = { λ k. pos 0 };

    ghost applied = { pn_step };

    ghost generated = { pn_made };

    ghost value_of = { pn_value };

    ghost stamp_of = { no_stamp };

    ghost meaning = { counter_meaning };

    ghost names = { no_dot };

    ghost holds = { no_dot };

    ghost laws = { pn_law };

    ghost is_blank = { is_zero };

    ghost in_maps = { pn_in_maps };

    ghost resets = { pn_resets };

    ghost can_put = { is_amount_number };

    ghost is_spelled = { is_amount_number };

    ghost sets = { amount_sets };

    ghost spelling = { amount_spelling };

    ghost reading = { λ k. amount_at };

    ghost spells = { pn_spells pn_has };

    ghost named = { pn_named };

    fn has(kind: Kind) -> bool {
        kind == Kind::CounterPn
    }

    fn empty(alloc: Global, kind: Kind) -> Result<i128, AllocError> {
        Ok(0)
    }

    fn needs_state(kind: Kind, op: &Op) -> bool {
        reads_state(kind)
    }

    fn is_too_deep(kind: Kind, path: &[Field]) -> bool {
        false
    }

    fn is_blank(state: &i128) -> bool {
        *state == 0
    }

    fn effect(
        alloc: Global,
        kind: Kind,
        path: &[Field],
        act: &Act,
        state: &i128,
        now: u64,
    ) -> Result<i64, AllocError> {
        Ok(amount_of(act))
    }

    fn stamp(effect: &i64) -> Option<u64> {
        None
    }

    fn apply(alloc: Global, state: &mut i128, dot: Dot, effect: &i64) -> Result<(), AllocError> {
        *state = sum(*state, *effect);
        Ok(())
    }

    fn copy(alloc: Global, state: &i128) -> Result<i128, AllocError> {
        Ok(*state)
    }

    fn copy_effect(alloc: Global, effect: &i64) -> Result<i64, AllocError> {
        Ok(*effect)
    }

    fn value(alloc: Global, state: &i128) -> Result<Value, AllocError> {
        Ok(Value::Int(*state))
    }

    fn put_effect(out: &mut Vec<u8>, effect: &i64) -> Result<(), AllocError> {
        put_whole(&AmountForm, out, effect)
    }

    fn take_effect(
        alloc: Global,
        kind: Kind,
        bytes: &[u8],
        at: usize,
    ) -> Result<(i64, usize), TakeError> {
        AmountForm.take(alloc, bytes, at)
    }
}
