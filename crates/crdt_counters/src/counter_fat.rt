ghost use Rattle.std.specs.Prelude.{◌≡◌, pos, IfOk, OnOk};
ghost use Rattle.std.specs.FinMap.{empty};
ghost use Rattle.crdt_core.specs.Kept.{is_kept, keeps_none};
ghost use Rattle.crdt_meanings.specs.CounterMeaning.{counter_meaning};
ghost use Rattle.crdt_meanings.specs.CounterFat.{fat_has, fat_step, fat_made, fat_value, fat_names};
ghost use Rattle.crdt_counters.specs.EffectForm.{can_put_fat, keeps_fat, is_fat_spelled, fat_sets, fat_spelling, fat_at, fat_spells, fat_named};
ghost use Rattle.crdt_meanings.proofs.FatLaw.{fat_law, fat_in_maps, fat_resets};
ghost use Rattle.crdt_meanings.specs.Without.{no_stamp};

use crate::amounts::amount_of;
use crate::fat_form::FatForm;
use crate::summed::Summed;
use crdt_core::{Act, Crdt, Field, Kind, Op, Value, reads_state};
use crdt_meanings::FatEffect;
use field_codec::{Form, TakeError, put_whole};
use site_vector::Dot;
use std::alloc::{AllocError, Global};

/// The counter whose updates a reset undoes: a state is the amounts that no reset has taken, each at its dot.
pub struct CounterFat;

impl Crdt for CounterFat {
    type State = Summed;

    type Effect = FatEffect;

    ghost has = { fat_has };

    ghost initial = { λ k. empty };

    ghost applied = { fat_step };

    ghost generated = { fat_made };

    ghost value_of = { fat_value };

    ghost stamp_of = { no_stamp };

    ghost meaning = { counter_meaning };

    ghost names = { fat_names };

    ghost holds = { is_kept };

    ghost laws = { fat_law };

    ghost is_blank = { keeps_none };

    ghost in_maps = { fat_in_maps };

    ghost resets = { fat_resets };

    ghost can_put = { can_put_fat };

    ghost keeps = { keeps_fat };

    ghost is_spelled = { is_fat_spelled };

    ghost sets = { fat_sets };

    ghost spelling = { fat_spelling };

    ghost reading = { λ k. fat_at };

    ghost spells = { fat_spells fat_has };

    ghost named = { fat_named };

    fn has(kind: Kind) -> bool {
        kind == Kind::CounterFat
    }

    fn empty(alloc: Global, kind: Kind) -> Result<Summed, AllocError> {
        Ok(Summed::new(alloc))
    }

    fn needs_state(kind: Kind, op: &Op) -> bool {
        reads_state(kind)
    }

    fn is_too_deep(kind: Kind, path: &[Field]) -> bool {
        false
    }

    fn is_blank(state: &Summed) -> bool {
        state.is_empty()
    }

    fn effect(
        alloc: Global,
        kind: Kind,
        path: &[Field],
        act: &Act,
        state: &Summed,
        now: u64,
    ) -> Result<FatEffect, AllocError> {
        match act {
            Act::Reset => Ok(FatEffect::Reset(state.dots(alloc)?)),
            _ => Ok(FatEffect::Amount(amount_of(act))),
        }
    }

    fn stamp(effect: &FatEffect) -> Option<u64> {
        None
    }

    #[tactic(auto, using(crdt_core::proofs::KeptSteps::without_none))]
    fn apply(
        alloc: Global,
        state: &mut Summed,
        dot: Dot,
        effect: &FatEffect,
    ) -> Result<(), AllocError> {
        match effect {
            FatEffect::Amount(amount) => state.put(dot, *amount),
            FatEffect::Reset(dots) => {
                state.take_out(dots.as_slice());
                Ok(())
            }
        }
    }

    fn copy(alloc: Global, state: &Summed) -> Result<Summed, AllocError> {
        state.copy()
    }

    fn copy_effect(alloc: Global, effect: &FatEffect) -> Result<FatEffect, AllocError> {
        match effect {
            FatEffect::Amount(amount) => Ok(FatEffect::Amount(*amount)),
            FatEffect::Reset(dots) => Ok(FatEffect::Reset(dots.copy(alloc)?)),
        }
    }

    fn value(alloc: Global, state: &Summed) -> Result<Value, AllocError> {
        Ok(Value::Int(state.total()))
    }

    fn put_effect(out: &mut Vec<u8>, effect: &FatEffect) -> Result<(), AllocError> {
        put_whole(&FatForm, out, effect)
    }

    fn take_effect(
        alloc: Global,
        kind: Kind,
        bytes: &[u8],
        at: usize,
    ) -> Result<(FatEffect, usize), TakeError> {
        FatForm.take(alloc, bytes, at)
    }
}
