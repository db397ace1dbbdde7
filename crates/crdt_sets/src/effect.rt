ghost use Rattle.std.specs.Prelude.{◌≡◌, IfOk};
ghost use Rattle.crdt_meanings.specs.Sets.{set_made};

use crate::texts::in_order;
use crate::{Elements, SetEffect};
use crdt_core::Act;
use field_codec::ListOf;
use std::alloc::{AllocError, Global};

/// The effect of an act on what is kept of the elements.
///
/// # Errors
///
/// `AllocError` where memory runs out.
pub fn effect_of(alloc: Global, act: &Act, state: &Elements) -> Result<SetEffect, AllocError>
    ensures { IfOk result (λ e. e ≡ set_made state.now act.now) }
{
    match act {
        Act::Add(texts) => {
            let texts = in_order(alloc, texts.as_slice())?;
            Ok(SetEffect::Add(state.named_at(alloc, texts.as_slice())?))
        }
        Act::Remove(texts) => {
            let texts = in_order(alloc, texts.as_slice())?;
            Ok(SetEffect::Remove(state.named_at(alloc, texts.as_slice())?))
        }
        Act::Reset => {
            let texts = state.texts(alloc)?;
            Ok(SetEffect::Reset(state.named_at(alloc, texts.as_slice())?))
        }
        _ => Ok(SetEffect::Reset(ListOf::new(alloc))),
    }
}
