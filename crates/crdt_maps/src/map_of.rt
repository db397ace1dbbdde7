ghost use Rattle.std.specs.Prelude.{◌≡◌, IfOk};
ghost use Rattle.std.specs.FinMap.{empty};
ghost use Rattle.crdt_meanings.specs.Maps.{map_has, map_step, map_made, map_stamp, map_too_deep, map_names, map_holds, map_value, map_blank};
ghost use Rattle.crdt_meanings.specs.MapMeaning.{map_meaning};
ghost use Rattle.crdt_maps.specs.EffectForm.{map_can_put, map_keeps, map_is_spelled, map_sets, map_spelling, map_at, map_spells, map_named};
ghost use Rattle.crdt_meanings.proofs.MapLaws.{map_law, map_in_maps};
ghost use Rattle.crdt_meanings.proofs.MapResets.{map_resets};

use crate::effect_form::MapForm;
use crate::made::{effect_of, leads_too_deep};
use crate::steps::apply_effect;
use crate::values::{all_blank, kind_of, shown};
use crate::{Fields, MapEffect, copies};
use crdt_core::{Act, Crdt, Field, Kind, Op, Value, reads_state};
use field_codec::{Form, TakeError, put_whole};
use site_vector::Dot;
use std::alloc::{AllocError, Global};
use std::marker::PhantomData;

/// The map whose fields stay: it shows each field that was updated.
pub type MapGo<I> = MapOf<false, I>;

/// The map whose fields can be dropped: it shows each field whose value isn't empty.
pub type MapRr<I> = MapOf<true, I>;

/// A map, by whether its fields can be dropped.
pub struct MapOf<const DROPS: bool, I: Crdt> {
    inner: PhantomData<I>,
}

impl<const DROPS: bool, I: Crdt> Crdt for MapOf<DROPS, I> {
    type State = Fields<I::State>;

    type Effect = MapEffect<I::Effect>;

    ghost has = { map_has DROPS };

    ghost too_deep = { map_too_deep I.has I.too_deep };

    ghost initial = { λ k. empty };

    ghost applied = { map_step I.has I.initial I.applied };

    ghost generated = { map_made I.has I.initial I.generated I.is_blank };

    ghost value_of = { map_value DROPS I.value_of };

    ghost stamp_of = { map_stamp I.stamp_of };

    ghost meaning = { map_meaning DROPS I.has I.meaning };

    ghost names = { map_names I.has I.names };

    ghost holds = { map_holds I.holds };

    ghost laws = { map_law I.laws I.in_maps DROPS };

    ghost can_put = { map_can_put DROPS I.has I.is_of I.can_put I.spelling };

    ghost keeps = { map_keeps I.keeps };

    ghost is_spelled = { map_is_spelled DROPS I.has I.is_of I.is_spelled I.spelling };

    ghost sets = { map_sets I.sets };

    ghost spelling = { map_spelling DROPS I.spelling };

    ghost reading = { λ k. map_at DROPS I.has I.reading };

    ghost spells = { map_spells I.spells DROPS (map_has DROPS) };

    ghost named = { map_named I.has I.is_of I.named DROPS };

    ghost is_blank = { map_blank DROPS I.is_blank };

    ghost in_maps = { map_in_maps I.laws I.in_maps DROPS };

    ghost resets = { map_resets I.laws I.in_maps I.resets DROPS };

    fn has(kind: Kind) -> bool {
        kind == kind_of(DROPS)
    }

    fn empty(alloc: Global, kind: Kind) -> Result<Fields<I::State>, AllocError> {
        Ok(Fields::new(alloc))
    }

    fn needs_state(kind: Kind, op: &Op) -> bool {
        reads_state(kind)
    }

    fn is_too_deep(kind: Kind, path: &[Field]) -> bool {
        leads_too_deep::<I>(kind, path)
    }

    fn is_blank(state: &Fields<I::State>) -> bool {
        if DROPS {
            all_blank::<I>(state)
        } else {
            state.is_empty()
        }
    }

    fn effect(
        alloc: Global,
        kind: Kind,
        path: &[Field],
        act: &Act,
        state: &Fields<I::State>,
        now: u64,
    ) -> Result<MapEffect<I::Effect>, AllocError> {
        effect_of::<I>(alloc, kind, path, act, state, now)
    }

    fn stamp(effect: &MapEffect<I::Effect>) -> Option<u64> {
        match effect {
            MapEffect::At(_, inner) => I::stamp(inner),
            MapEffect::Resets(_) => None,
        }
    }

    fn apply(
        alloc: Global,
        state: &mut Fields<I::State>,
        dot: Dot,
        effect: &MapEffect<I::Effect>,
    ) -> Result<(), AllocError> {
        apply_effect::<I>(alloc, state, dot, effect)
    }

    fn copy(alloc: Global, state: &Fields<I::State>) -> Result<Fields<I::State>, AllocError> {
        copies::copy_fields::<I>(alloc, state)
    }

    fn copy_effect(
        alloc: Global,
        effect: &MapEffect<I::Effect>,
    ) -> Result<MapEffect<I::Effect>, AllocError> {
        copies::copy_effect::<I>(alloc, effect)
    }

    fn value(alloc: Global, state: &Fields<I::State>) -> Result<Value, AllocError> {
        Ok(Value::Fields(shown::<I>(alloc, DROPS, state)?))
    }

    fn put_effect(out: &mut Vec<u8>, effect: &MapEffect<I::Effect>) -> Result<(), AllocError> {
        let form: MapForm<I> = MapForm {
            drops: DROPS,
            inner: PhantomData,
        };
        put_whole(&form, out, effect)
    }

    fn take_effect(
        alloc: Global,
        kind: Kind,
        bytes: &[u8],
        at: usize,
    ) -> Result<(MapEffect<I::Effect>, usize), TakeError> {
        let form: MapForm<I> = MapForm {
            drops: DROPS,
            inner: PhantomData,
        };
        form.take(alloc, bytes, at)
    }
}
