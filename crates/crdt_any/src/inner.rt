ghost use Rattle.std.specs.Prelude.{◌≡◌, Option, OnOk, IfOk, unwrap_or, true, false};
ghost use Rattle.std.specs.Option.{option_copied};
ghost use Rattle.crdt_core.specs.EffectForm.{HoldsSpelled, IsReady};
ghost use Rattle.crdt_core.specs.Fits.{fits};
ghost use Rattle.crdt_any.specs.Simple.{moved};

use crdt_core::{Act, Crdt, Field, Kind};
use site_vector::Dot;
use std::alloc::{AllocError, Global};

/// Applies an effect of the kind; without one the state stays as it is.
///
/// # Errors
///
/// `AllocError` where memory runs out. The state may only be dropped then.
pub fn apply_if<C: Crdt>(
    alloc: Global,
    state: &mut C::State,
    dot: Dot,
    effect: Option<&C::Effect>,
) -> Result<(), AllocError>
    ensures { OnOk result (state.new ≡ moved C.applied state.old dot (option_copied effect.entry)) }
{
    match effect {
        Some(effect) => C::apply(alloc, state, dot, effect),
        None => Ok(()),
    }
}

/// The effect of an act that the kind has on a state of it, that of no update where none is given.
///
/// # Errors
///
/// `AllocError` where memory runs out.
pub fn made_on<C: Crdt>(
    alloc: Global,
    kind: Kind,
    path: &[Field],
    act: &Act,
    state: Option<&C::State>,
    now: u64,
) -> Result<C::Effect, AllocError>
    requires fitting { fits kind path.now act.now ≡ true }
    requires shallow { C.too_deep kind path.now ≡ false }
    ensures made { IfOk result (λ e. e ≡ C.generated kind (unwrap_or (option_copied state.entry) (C.initial kind)) path.now act.now now) }
    ensures ready { C.has kind ≡ true → HoldsSpelled C.holds (unwrap_or (option_copied state.entry) (C.initial kind)) → IfOk result (λ e. IsReady C.is_of C.can_put C.sets C.spelling kind path.now act.now e) }
{
    match state {
        Some(state) => C::effect(alloc, kind, path, act, state, now),
        None => {
            let state = C::empty(alloc, kind)?;
            C::effect(alloc, kind, path, act, &state, now)
        }
    }
}
