ghost use Rattle.std.specs.Prelude.{◌≡◌, ℕ, List, true, reverse, IfOk, IsTrue};
ghost use Rattle.crdt_core.specs.Seen.{Update};
ghost use Rattle.crdt_core.specs.History.{IsHistory, IsStamped, folded, effects};
ghost use Rattle.crdt_core.specs.Law.{made_by, all_fit};

use crate::{Crdt, Kind, Value};
use site_vector::Dot;
use std::alloc::{AllocError, Global};

/// The state after effects in the order in which they are listed.
///
/// # Errors
///
/// `AllocError` where memory runs out.
pub fn state_after<C: Crdt>(
    alloc: Global,
    kind: Kind,
    stored: &[(Dot, C::Effect)],
) -> Result<C::State, AllocError>
    ensures { IfOk result (λ s. s ≡ folded (C.initial kind) C.applied (reverse stored.now)) }
{
    let mut state = C::empty(alloc, kind)?;
    for (dot, effect) in stored {
        C::apply(alloc, &mut state, *dot, effect)?;
    }
    Ok(state)
}

/// What effects show, in the order in which they are listed: the meaning of whatever updates they were generated for.
///
/// # Errors
///
/// `AllocError` where memory runs out.
pub fn value_after<C: Crdt>(
    alloc: Global,
    kind: Kind,
    stored: &[(Dot, C::Effect)],
) -> Result<Value, AllocError>
    requires { IsTrue (C.has kind) }
    ensures folds { IfOk result (λ v. v ≡ C.value_of (folded (C.initial kind) C.applied (reverse stored.now))) }
    ensures means { IfOk result (λ v. (us : List Update) → IsHistory us → all_fit C.too_deep kind us ≡ true
        → IsStamped (C.initial kind) C.applied (made_by C.generated kind) C.stamp_of us
        → reverse stored.now ≡ effects (C.initial kind) C.applied (made_by C.generated kind) us → v ≡ C.meaning kind us) }
{
    let state = state_after::<C>(alloc, kind, stored)?;
    C::value(alloc, &state)
}
