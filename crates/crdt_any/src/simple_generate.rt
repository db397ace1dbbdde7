ghost use Rattle.std.specs.Prelude.{◌≡◌, IfOk, true};
ghost use Rattle.crdt_core.specs.EffectForm.{HoldsSpelled, IsReady};
ghost use Rattle.crdt_core.specs.Fits.{fits};
ghost use Rattle.crdt_any.specs.Simple.{simple_has, simple_made, simple_holds};
ghost use Rattle.crdt_any.specs.SimpleForm.{simple_is_of, simple_can_put, simple_sets, simple_spelling};

use crate::inner::made_on;
use crate::{SimpleEffect, SimpleState};
use crdt_core::{Act, Field, Kind};
use crdt_counters::{CounterFat, CounterPn};
use crdt_flags::{FlagDw, FlagEw};
use crdt_meanings::Boxed;
use crdt_registers::{RegisterLww, RegisterMv};
use crdt_sets::{SetAw, SetGo, SetRw};
use std::alloc::{AllocError, Global};

// What a kind makes of an act, as an effect of the sum of kinds.
macro_rules! made {
    ($type:ident, $alloc:expr, $kind:expr, $path:expr, $act:expr, $state:expr, $now:expr) => {{
        let effect = made_on::<$type>($alloc, $kind, $path, $act, $state, $now)?;
        Ok(SimpleEffect::$type(effect))
    }};
}

// As `made`, where the effect has memory of its own.
macro_rules! made_apart {
    ($type:ident, $alloc:expr, $kind:expr, $path:expr, $act:expr, $state:expr, $now:expr) => {{
        let effect = made_on::<$type>($alloc, $kind, $path, $act, $state, $now)?;
        let boxed = Boxed::new($alloc, effect)?;
        Ok(SimpleEffect::$type(boxed))
    }};
}

/// The effect of an act that the kind has; that of none for the kinds of maps.
///
/// # Errors
///
/// `AllocError` where memory runs out.
pub fn simple_effect_of(
    alloc: Global,
    kind: Kind,
    path: &[Field],
    act: &Act,
    state: &SimpleState,
    now: u64,
) -> Result<SimpleEffect, AllocError>
    requires fitting { fits kind path.now act.now ≡ true }
    ensures made { IfOk result (λ e. e ≡ simple_made kind state.now path.now act.now now) }
    ensures ready { simple_has kind ≡ true → HoldsSpelled simple_holds state.now → IfOk result (λ e. IsReady simple_is_of simple_can_put simple_sets simple_spelling kind path.now act.now e) }
{
    match kind {
        Kind::CounterPn => made!(CounterPn, alloc, kind, path, act, state.counter_pn(), now),
        Kind::CounterFat => made!(CounterFat, alloc, kind, path, act, state.counter_fat(), now),
        Kind::SetGo => made!(SetGo, alloc, kind, path, act, state.set_go(), now),
        Kind::SetAw => made!(SetAw, alloc, kind, path, act, state.set_aw(), now),
        Kind::SetRw => made!(SetRw, alloc, kind, path, act, state.set_rw(), now),
        Kind::FlagEw => made!(FlagEw, alloc, kind, path, act, state.flag_ew(), now),
        Kind::FlagDw => made!(FlagDw, alloc, kind, path, act, state.flag_dw(), now),
        Kind::RegisterLww => made_apart!(
            RegisterLww,
            alloc,
            kind,
            path,
            act,
            state.register_lww(),
            now
        ),
        Kind::RegisterMv => made_apart!(
            RegisterMv,
            alloc,
            kind,
            path,
            act,
            state.register_mv(),
            now
        ),
        Kind::MapGo => Ok(SimpleEffect::CounterPn(0)),
        Kind::MapRr => Ok(SimpleEffect::CounterPn(0)),
    }
}
