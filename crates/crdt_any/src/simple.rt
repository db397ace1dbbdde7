ghost use Rattle.crdt_any.specs.Simple.{simple_has, simple_initial, simple_step, simple_made, simple_value, simple_stamp, simple_meaning, simple_names, simple_holds, simple_blank};
ghost use Rattle.crdt_any.specs.SimpleForm.{simple_is_of, simple_can_put, simple_keeps, simple_is_spelled, simple_sets, simple_spelling, simple_reading, simple_spells, simple_named};
ghost use Rattle.crdt_any.specs.SimpleLaws.{simple_law, simple_in_maps, simple_resets};

use crate::inner::apply_if;
use crate::simple_generate::simple_effect_of;
use crate::{SimpleEffect, SimpleState};
use crdt_core::{Act, Crdt, Field, Kind, Op, Value, reads_state};
use crdt_counters::{CounterFat, CounterPn};
use crdt_flags::{FlagDw, FlagEw};
use crdt_meanings::Boxed;
use crdt_registers::{RegisterLww, RegisterMv};
use crdt_sets::{SetAw, SetGo, SetRw};
use field_codec::TakeError;
use site_vector::Dot;
use std::alloc::{AllocError, Global};

// What a kind reads, as an effect of the sum of kinds.
macro_rules! taken {
    ($type:ident, $alloc:expr, $kind:expr, $bytes:expr, $at:expr) => {{
        let (effect, end) = $type::take_effect($alloc, $kind, $bytes, $at)?;
        Ok((SimpleEffect::$type(effect), end))
    }};
}

// As `taken`, where the effect has memory of its own.
macro_rules! taken_apart {
    ($type:ident, $alloc:expr, $kind:expr, $bytes:expr, $at:expr) => {{
        let (effect, end) = $type::take_effect($alloc, $kind, $bytes, $at)?;
        Ok((SimpleEffect::$type(Boxed::new($alloc, effect)?), end))
    }};
}

// A copy of an effect of a kind, as one of the sum.
macro_rules! copied {
    ($type:ident, $alloc:expr, $effect:expr) => {
        Ok(SimpleEffect::$type($type::copy_effect($alloc, $effect)?))
    };
}

// As `copied`, where the effect has memory of its own.
macro_rules! copied_apart {
    ($type:ident, $alloc:expr, $effect:expr) => {{
        let effect = $type::copy_effect($alloc, $effect.get())?;
        Ok(SimpleEffect::$type(Boxed::new($alloc, effect)?))
    }};
}

/// The nine kinds without fields. A map, which it lacks, is taken for a `CounterPn`.
pub struct Simple;

impl Crdt for Simple {
    type State = SimpleState;

    type Effect = SimpleEffect;

    ghost has = { simple_has };

    ghost initial = { simple_initial };

    ghost applied = { simple_step };

    ghost generated = { simple_made };

    ghost value_of = { simple_value };

    ghost stamp_of = { simple_stamp };

    ghost meaning = { simple_meaning };

    ghost names = { simple_names };

    ghost holds = { simple_holds };

    ghost laws = { simple_law };

    ghost is_of = { simple_is_of };

    ghost can_put = { simple_can_put };

    ghost keeps = { simple_keeps };

    ghost is_spelled = { simple_is_spelled };

    ghost sets = { simple_sets };

    ghost spelling = { simple_spelling };

    ghost reading = { simple_reading };

    ghost spells = { simple_spells };

    ghost named = { simple_named };

    ghost is_blank = { simple_blank };

    ghost in_maps = { simple_in_maps };

    ghost resets = { simple_resets };

    fn has(kind: Kind) -> bool {
        match kind {
            Kind::MapGo | Kind::MapRr => false,
            _ => true,
        }
    }

    fn empty(alloc: Global, kind: Kind) -> Result<SimpleState, AllocError> {
        match kind {
            Kind::CounterFat => Ok(SimpleState::CounterFat(CounterFat::empty(alloc, kind)?)),
            Kind::SetGo => Ok(SimpleState::SetGo(SetGo::empty(alloc, kind)?)),
            Kind::SetAw => Ok(SimpleState::SetAw(SetAw::empty(alloc, kind)?)),
            Kind::SetRw => Ok(SimpleState::SetRw(SetRw::empty(alloc, kind)?)),
            Kind::FlagEw => Ok(SimpleState::FlagEw(FlagEw::empty(alloc, kind)?)),
            Kind::FlagDw => Ok(SimpleState::FlagDw(FlagDw::empty(alloc, kind)?)),
            Kind::RegisterLww => Ok(SimpleState::RegisterLww(RegisterLww::empty(alloc, kind)?)),
            Kind::RegisterMv => Ok(SimpleState::RegisterMv(RegisterMv::empty(alloc, kind)?)),
            _ => Ok(SimpleState::CounterPn(CounterPn::empty(alloc, kind)?)),
        }
    }

    fn needs_state(kind: Kind, op: &Op) -> bool {
        reads_state(kind)
    }

    fn is_too_deep(kind: Kind, path: &[Field]) -> bool {
        false
    }

    fn is_blank(state: &SimpleState) -> bool {
        match state {
            SimpleState::CounterPn(state) => CounterPn::is_blank(state),
            SimpleState::CounterFat(state) => CounterFat::is_blank(state),
            SimpleState::SetGo(state) => SetGo::is_blank(state),
            SimpleState::SetAw(state) => SetAw::is_blank(state),
            SimpleState::SetRw(state) => SetRw::is_blank(state),
            SimpleState::FlagEw(state) => FlagEw::is_blank(state),
            SimpleState::FlagDw(state) => FlagDw::is_blank(state),
            SimpleState::RegisterLww(state) => RegisterLww::is_blank(state),
            SimpleState::RegisterMv(state) => RegisterMv::is_blank(state),
        }
    }

    fn effect(
        alloc: Global,
        kind: Kind,
        path: &[Field],
        act: &Act,
        state: &SimpleState,
        now: u64,
    ) -> Result<SimpleEffect, AllocError> {
        simple_effect_of(alloc, kind, path, act, state, now)
    }

    fn stamp(effect: &SimpleEffect) -> Option<u64> {
        match effect {
            SimpleEffect::CounterPn(effect) => CounterPn::stamp(effect),
            SimpleEffect::CounterFat(effect) => CounterFat::stamp(effect),
            SimpleEffect::SetGo(effect) => SetGo::stamp(effect),
            SimpleEffect::SetAw(effect) => SetAw::stamp(effect),
            SimpleEffect::SetRw(effect) => SetRw::stamp(effect),
            SimpleEffect::FlagEw(effect) => FlagEw::stamp(effect),
            SimpleEffect::FlagDw(effect) => FlagDw::stamp(effect),
            SimpleEffect::RegisterLww(effect) => RegisterLww::stamp(effect.get()),
            SimpleEffect::RegisterMv(effect) => RegisterMv::stamp(effect.get()),
        }
    }

    fn apply(
        alloc: Global,
        state: &mut SimpleState,
        dot: Dot,
        effect: &SimpleEffect,
    ) -> Result<(), AllocError> {
        match state {
            SimpleState::CounterPn(state) => apply_if::<CounterPn>(
                alloc,
                state,
                dot,
                effect.counter_pn(),
            ),
            SimpleState::CounterFat(state) => apply_if::<CounterFat>(
                alloc,
                state,
                dot,
                effect.counter_fat(),
            ),
            SimpleState::SetGo(state) => apply_if::<SetGo>(alloc, state, dot, effect.set_go()),
            SimpleState::SetAw(state) => apply_if::<SetAw>(alloc, state, dot, effect.set_aw()),
            SimpleState::SetRw(state) => apply_if::<SetRw>(alloc, state, dot, effect.set_rw()),
            SimpleState::FlagEw(state) => apply_if::<FlagEw>(alloc, state, dot, effect.flag_ew()),
            SimpleState::FlagDw(state) => apply_if::<FlagDw>(alloc, state, dot, effect.flag_dw()),
            SimpleState::RegisterLww(state) => apply_if::<RegisterLww>(
                alloc,
                state,
                dot,
                effect.register_lww(),
            ),
            SimpleState::RegisterMv(state) => apply_if::<RegisterMv>(
                alloc,
                state,
                dot,
                effect.register_mv(),
            ),
        }
    }

    fn copy(alloc: Global, state: &SimpleState) -> Result<SimpleState, AllocError> {
        match state {
            SimpleState::CounterPn(state) => Ok(SimpleState::CounterPn(CounterPn::copy(
                alloc, state,
            )?)),
            SimpleState::CounterFat(state) => Ok(SimpleState::CounterFat(CounterFat::copy(
                alloc, state,
            )?)),
            SimpleState::SetGo(state) => Ok(SimpleState::SetGo(SetGo::copy(alloc, state)?)),
            SimpleState::SetAw(state) => Ok(SimpleState::SetAw(SetAw::copy(alloc, state)?)),
            SimpleState::SetRw(state) => Ok(SimpleState::SetRw(SetRw::copy(alloc, state)?)),
            SimpleState::FlagEw(state) => Ok(SimpleState::FlagEw(FlagEw::copy(alloc, state)?)),
            SimpleState::FlagDw(state) => Ok(SimpleState::FlagDw(FlagDw::copy(alloc, state)?)),
            SimpleState::RegisterLww(state) => Ok(SimpleState::RegisterLww(RegisterLww::copy(
                alloc, state,
            )?)),
            SimpleState::RegisterMv(state) => Ok(SimpleState::RegisterMv(RegisterMv::copy(
                alloc, state,
            )?)),
        }
    }

    fn copy_effect(alloc: Global, effect: &SimpleEffect) -> Result<SimpleEffect, AllocError> {
        match effect {
            SimpleEffect::CounterPn(effect) => copied!(CounterPn, alloc, effect),
            SimpleEffect::CounterFat(effect) => copied!(CounterFat, alloc, effect),
            SimpleEffect::SetGo(effect) => copied!(SetGo, alloc, effect),
            SimpleEffect::SetAw(effect) => copied!(SetAw, alloc, effect),
            SimpleEffect::SetRw(effect) => copied!(SetRw, alloc, effect),
            SimpleEffect::FlagEw(effect) => copied!(FlagEw, alloc, effect),
            SimpleEffect::FlagDw(effect) => copied!(FlagDw, alloc, effect),
            SimpleEffect::RegisterLww(effect) => copied_apart!(RegisterLww, alloc, effect),
            SimpleEffect::RegisterMv(effect) => copied_apart!(RegisterMv, alloc, effect),
        }
    }

    fn value(alloc: Global, state: &SimpleState) -> Result<Value, AllocError> {
        match state {
            SimpleState::CounterPn(state) => CounterPn::value(alloc, state),
            SimpleState::CounterFat(state) => CounterFat::value(alloc, state),
            SimpleState::SetGo(state) => SetGo::value(alloc, state),
            SimpleState::SetAw(state) => SetAw::value(alloc, state),
            SimpleState::SetRw(state) => SetRw::value(alloc, state),
            SimpleState::FlagEw(state) => FlagEw::value(alloc, state),
            SimpleState::FlagDw(state) => FlagDw::value(alloc, state),
            SimpleState::RegisterLww(state) => RegisterLww::value(alloc, state),
            SimpleState::RegisterMv(state) => RegisterMv::value(alloc, state),
        }
    }

    fn put_effect(out: &mut Vec<u8>, effect: &SimpleEffect) -> Result<(), AllocError> {
        match effect {
            SimpleEffect::CounterPn(effect) => CounterPn::put_effect(out, effect),
            SimpleEffect::CounterFat(effect) => CounterFat::put_effect(out, effect),
            SimpleEffect::SetGo(effect) => SetGo::put_effect(out, effect),
            SimpleEffect::SetAw(effect) => SetAw::put_effect(out, effect),
            SimpleEffect::SetRw(effect) => SetRw::put_effect(out, effect),
            SimpleEffect::FlagEw(effect) => FlagEw::put_effect(out, effect),
            SimpleEffect::FlagDw(effect) => FlagDw::put_effect(out, effect),
            SimpleEffect::RegisterLww(effect) => RegisterLww::put_effect(out, effect.get()),
            SimpleEffect::RegisterMv(effect) => RegisterMv::put_effect(out, effect.get()),
        }
    }

    fn take_effect(
        alloc: Global,
        kind: Kind,
        bytes: &[u8],
        at: usize,
    ) -> Result<(SimpleEffect, usize), TakeError> {
        match kind {
            Kind::CounterFat => taken!(CounterFat, alloc, kind, bytes, at),
            Kind::SetGo => taken!(SetGo, alloc, kind, bytes, at),
            Kind::SetAw => taken!(SetAw, alloc, kind, bytes, at),
            Kind::SetRw => taken!(SetRw, alloc, kind, bytes, at),
            Kind::FlagEw => taken!(FlagEw, alloc, kind, bytes, at),
            Kind::FlagDw => taken!(FlagDw, alloc, kind, bytes, at),
            Kind::RegisterLww => taken_apart!(RegisterLww, alloc, kind, bytes, at),
            Kind::RegisterMv => taken_apart!(RegisterMv, alloc, kind, bytes, at),
            _ => taken!(CounterPn, alloc, kind, bytes, at),
        }
    }
}
