ghost use Rattle.std.specs.Prelude.{◌≡◌, IfOk};
ghost use Rattle.crdt_meanings.specs.RegisterMv.{mv_made_on};

use crate::MvEffect;
use crdt_core::{Act, Dots, Kept};
use field_codec::Text;
use std::alloc::{AllocError, Global};

/// The effect of an act on the texts that are kept.
///
/// # Errors
///
/// `AllocError` where memory runs out.
pub fn effect_of(alloc: Global, act: &Act, kept: &Kept<Text>) -> Result<MvEffect, AllocError>
    ensures { IfOk result (λ e. e ≡ mv_made_on kept.now act.now) }
{
    match act {
        Act::Assign(text) => Ok(MvEffect::Assign {
            text: text.copy(alloc)?,
            dots: kept.dots(alloc)?,
        }),
        Act::Reset => Ok(MvEffect::Reset(kept.dots(alloc)?)),
        _ => Ok(MvEffect::Reset(Dots::new(alloc))),
    }
}
