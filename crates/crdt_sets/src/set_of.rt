ghost use Rattle.std.specs.Prelude.{◌≡◌};
ghost use Rattle.std.specs.FinMap.{empty};
ghost use Rattle.crdt_meanings.specs.SetMeaning.{set_meaning};
ghost use Rattle.crdt_meanings.specs.Elements.{keeps_dot, lacks_all};
ghost use Rattle.crdt_meanings.specs.Sets.{set_kind, set_has, set_step, set_value, kind_made, set_names};
ghost use Rattle.crdt_sets.specs.EffectForm.{can_put_set, keeps_set, is_set_spelled, set_sets, set_spelling, set_at, set_spells, set_named};
ghost use Rattle.crdt_meanings.proofs.RemovableLaws.{set_law, set_in_maps};
ghost use Rattle.crdt_meanings.proofs.SetResets.{set_resets};
ghost use Rattle.crdt_meanings.specs.Without.{no_stamp};

use crate::effect::effect_of;
use crate::effect_form::SetForm;
use crate::{Elements, SetEffect};
use crdt_core::{Act, Crdt, Field, Kind, Op, Value, reads_state};
use field_codec::{Form, TakeError, put_whole};
use site_vector::Dot;
use std::alloc::{AllocError, Global};

/// The set from which elements can be removed. Of an add and a remove that haven't seen each other one wins: the remove
/// where `REMOVES_WIN` is true, and else the add.
pub struct SetOf<const REMOVES_WIN: bool>;

/// The set where an add wins over a remove that hasn't seen it.
pub type SetAw = SetOf<false>;

/// The set where a remove wins over an add that hasn't seen it.
pub type SetRw = SetOf<true>;

impl<const REMOVES_WIN: bool> Crdt for SetOf<REMOVES_WIN> {
    type State = Elements;

    type Effect = SetEffect;

    ghost has = { set_has REMOVES_WIN };

    ghost initial = { λ k. empty };

    ghost applied = { set_step REMOVES_WIN };

    ghost generated = { kind_made };

    ghost value_of = { set_value REMOVES_WIN };

    ghost stamp_of = { no_stamp };

    ghost meaning = { set_meaning REMOVES_WIN };

    ghost names = { set_names };

    ghost holds = { keeps_dot };

    ghost laws = { set_law REMOVES_WIN };

    ghost is_blank = { lacks_all };

    ghost in_maps = { set_in_maps REMOVES_WIN };

    ghost resets = { set_resets REMOVES_WIN };

    ghost can_put = { can_put_set };

    ghost keeps = { keeps_set };

    ghost is_spelled = { is_set_spelled };

    ghost sets = { set_sets };

    ghost spelling = { set_spelling };

    ghost reading = { λ k. set_at };

    ghost spells = { set_spells (set_has REMOVES_WIN) };

    ghost named = { set_named };

    fn has(kind: Kind) -> bool {
        kind == kind_where(REMOVES_WIN)
    }

    fn empty(alloc: Global, kind: Kind) -> Result<Elements, AllocError> {
        Ok(Elements::new(alloc))
    }

    fn needs_state(kind: Kind, op: &Op) -> bool {
        reads_state(kind)
    }

    fn is_too_deep(kind: Kind, path: &[Field]) -> bool {
        false
    }

    fn is_blank(state: &Elements) -> bool {
        state.is_empty()
    }

    fn effect(
        alloc: Global,
        kind: Kind,
        path: &[Field],
        act: &Act,
        state: &Elements,
        now: u64,
    ) -> Result<SetEffect, AllocError> {
        effect_of(alloc, act, state)
    }

    fn stamp(effect: &SetEffect) -> Option<u64> {
        None
    }

    fn apply(
        alloc: Global,
        state: &mut Elements,
        dot: Dot,
        effect: &SetEffect,
    ) -> Result<(), AllocError> {
        let remove_own = REMOVES_WIN.then_some(false);
        match effect {
            SetEffect::Add(named) => state.take_named(alloc, dot, Some(true), named.as_slice()),
            SetEffect::Remove(named) => state.take_named(alloc, dot, remove_own, named.as_slice()),
            SetEffect::Reset(named) => state.take_named(alloc, dot, None, named.as_slice()),
        }
    }

    fn copy(alloc: Global, state: &Elements) -> Result<Elements, AllocError> {
        state.copy()
    }

    fn copy_effect(alloc: Global, effect: &SetEffect) -> Result<SetEffect, AllocError> {
        effect.copy(alloc)
    }

    fn value(alloc: Global, state: &Elements) -> Result<Value, AllocError> {
        Ok(Value::Words(state.shown(alloc, REMOVES_WIN)?))
    }

    fn put_effect(out: &mut Vec<u8>, effect: &SetEffect) -> Result<(), AllocError> {
        put_whole(&SetForm, out, effect)
    }

    fn take_effect(
        alloc: Global,
        kind: Kind,
        bytes: &[u8],
        at: usize,
    ) -> Result<(SetEffect, usize), TakeError> {
        SetForm.take(alloc, bytes, at)
    }
}

fn kind_where(removes_win: bool) -> Kind
    ensures { result ≡ set_kind removes_win }
{
    if removes_win {
        Kind::SetRw
    } else {
        Kind::SetAw
    }
}
