ghost use Rattle.crdt_any.specs.Layer.{layer_has, layer_too_deep, layer_initial, layer_step, layer_made, layer_value, layer_stamp, layer_meaning, layer_names, layer_holds, layer_blank};
ghost use Rattle.crdt_any.specs.LayerForm.{layer_is_of, layer_can_put, layer_keeps, layer_is_spelled, layer_sets, layer_spelling, layer_reading, layer_spells, layer_named};
ghost use Rattle.crdt_any.specs.LayerLaws.{layer_law, layer_in_maps, layer_resets};

use crate::generate::effect_of;
use crate::inner::apply_if;
use crate::{LayerEffect, LayerState, Simple};
use crdt_core::{Act, Crdt, Field, Kind, Op, Value, reads_state};
use crdt_maps::{Boxed, MapGo, MapRr};
use field_codec::TakeError;
use site_vector::Dot;
use std::alloc::{AllocError, Global};
use std::marker::PhantomData;

/// All kinds, where the fields of maps are of the kinds of the inner type.
pub struct Layer<I: Crdt> {
    inner: PhantomData<I>,
}

impl<I: Crdt> Crdt for Layer<I> {
    type State = LayerState<I::State>;

    type Effect = LayerEffect<I::Effect>;

    ghost has = { layer_has };

    ghost too_deep = { layer_too_deep I.has I.too_deep };

    ghost initial = { layer_initial };

    ghost applied = { layer_step I.has I.initial I.applied };

    ghost generated = { layer_made I.has I.initial I.generated I.is_blank };

    ghost value_of = { layer_value I.value_of };

    ghost stamp_of = { layer_stamp I.stamp_of };

    ghost meaning = { layer_meaning I.has I.meaning };

    ghost names = { layer_names I.has I.names };

    ghost holds = { layer_holds I.holds };

    ghost laws = { layer_law I.laws I.in_maps };

    ghost is_of = { layer_is_of };

    ghost can_put = { layer_can_put I.has I.is_of I.can_put I.spelling };

    ghost keeps = { layer_keeps I.keeps };

    ghost is_spelled = { layer_is_spelled I.has I.is_of I.is_spelled I.spelling };

    ghost sets = { layer_sets I.sets };

    ghost spelling = { layer_spelling I.spelling };

    ghost reading = { layer_reading I.has I.reading };

    ghost spells = { layer_spells I.spells };

    ghost named = { layer_named I.has I.is_of I.named };

    ghost is_blank = { layer_blank I.is_blank };

    ghost in_maps = { layer_in_maps I.laws I.in_maps };

    ghost resets = { layer_resets I.laws I.in_maps I.resets };

    fn has(kind: Kind) -> bool {
        true
    }

    fn empty(alloc: Global, kind: Kind) -> Result<LayerState<I::State>, AllocError> {
        match kind {
            Kind::MapGo => Ok(LayerState::MapGo(MapGo::<I>::empty(alloc, kind)?)),
            Kind::MapRr => Ok(LayerState::MapRr(MapRr::<I>::empty(alloc, kind)?)),
            _ => Ok(LayerState::Simple(Simple::empty(alloc, kind)?)),
        }
    }

    fn needs_state(kind: Kind, op: &Op) -> bool {
        reads_state(kind)
    }

    fn is_too_deep(kind: Kind, path: &[Field]) -> bool {
        match kind {
            Kind::MapGo => MapGo::<I>::is_too_deep(kind, path),
            Kind::MapRr => MapRr::<I>::is_too_deep(kind, path),
            _ => false,
        }
    }

    fn is_blank(state: &LayerState<I::State>) -> bool {
        match state {
            LayerState::Simple(state) => Simple::is_blank(state),
            LayerState::MapGo(state) => MapGo::<I>::is_blank(state),
            LayerState::MapRr(state) => MapRr::<I>::is_blank(state),
        }
    }

    fn effect(
        alloc: Global,
        kind: Kind,
        path: &[Field],
        act: &Act,
        state: &LayerState<I::State>,
        now: u64,
    ) -> Result<LayerEffect<I::Effect>, AllocError> {
        effect_of::<I>(alloc, kind, path, act, state, now)
    }

    fn stamp(effect: &LayerEffect<I::Effect>) -> Option<u64> {
        match effect {
            LayerEffect::Simple(effect) => Simple::stamp(effect),
            LayerEffect::MapGo(effect) => MapGo::<I>::stamp(effect.get()),
            LayerEffect::MapRr(effect) => MapRr::<I>::stamp(effect.get()),
        }
    }

    fn apply(
        alloc: Global,
        state: &mut LayerState<I::State>,
        dot: Dot,
        effect: &LayerEffect<I::Effect>,
    ) -> Result<(), AllocError> {
        match state {
            LayerState::Simple(state) => apply_if::<Simple>(alloc, state, dot, effect.simple()),
            LayerState::MapGo(state) => apply_if::<MapGo<I>>(alloc, state, dot, effect.map_go()),
            LayerState::MapRr(state) => apply_if::<MapRr<I>>(alloc, state, dot, effect.map_rr()),
        }
    }

    fn copy(
        alloc: Global,
        state: &LayerState<I::State>,
    ) -> Result<LayerState<I::State>, AllocError> {
        match state {
            LayerState::Simple(state) => Ok(LayerState::Simple(Simple::copy(alloc, state)?)),
            LayerState::MapGo(state) => Ok(LayerState::MapGo(MapGo::<I>::copy(alloc, state)?)),
            LayerState::MapRr(state) => Ok(LayerState::MapRr(MapRr::<I>::copy(alloc, state)?)),
        }
    }

    fn copy_effect(
        alloc: Global,
        effect: &LayerEffect<I::Effect>,
    ) -> Result<LayerEffect<I::Effect>, AllocError> {
        match effect {
            LayerEffect::Simple(effect) => Ok(LayerEffect::Simple(Simple::copy_effect(
                alloc, effect,
            )?)),
            LayerEffect::MapGo(effect) => {
                let copied = MapGo::<I>::copy_effect(alloc, effect.get())?;
                Ok(LayerEffect::MapGo(Boxed::new(alloc, copied)?))
            }
            LayerEffect::MapRr(effect) => {
                let copied = MapRr::<I>::copy_effect(alloc, effect.get())?;
                Ok(LayerEffect::MapRr(Boxed::new(alloc, copied)?))
            }
        }
    }

    fn value(alloc: Global, state: &LayerState<I::State>) -> Result<Value, AllocError> {
        match state {
            LayerState::Simple(state) => Simple::value(alloc, state),
            LayerState::MapGo(state) => MapGo::<I>::value(alloc, state),
            LayerState::MapRr(state) => MapRr::<I>::value(alloc, state),
        }
    }

    fn put_effect(out: &mut Vec<u8>, effect: &LayerEffect<I::Effect>) -> Result<(), AllocError> {
        match effect {
            LayerEffect::Simple(effect) => Simple::put_effect(out, effect),
            LayerEffect::MapGo(effect) => MapGo::<I>::put_effect(out, effect.get()),
            LayerEffect::MapRr(effect) => MapRr::<I>::put_effect(out, effect.get()),
        }
    }

    fn take_effect(
        alloc: Global,
        kind: Kind,
        bytes: &[u8],
        at: usize,
    ) -> Result<(LayerEffect<I::Effect>, usize), TakeError> {
        match kind {
            Kind::MapGo => {
                let (effect, end) = MapGo::<I>::take_effect(alloc, kind, bytes, at)?;
                Ok((LayerEffect::MapGo(Boxed::new(alloc, effect)?), end))
            }
            Kind::MapRr => {
                let (effect, end) = MapRr::<I>::take_effect(alloc, kind, bytes, at)?;
                Ok((LayerEffect::MapRr(Boxed::new(alloc, effect)?), end))
            }
            _ => {
                let (effect, end) = Simple::take_effect(alloc, kind, bytes, at)?;
                Ok((LayerEffect::Simple(effect), end))
            }
        }
    }
}
