ghost use Rattle.std.specs.Prelude.{◌≡◌, IfOk};
ghost use Rattle.crdt_meanings.specs.Flags.{flag_made};

use crate::FlagEffect;
use crdt_core::{Act, Dots, Kept};
use std::alloc::{AllocError, Global};

/// The effect of an act on what is kept.
///
/// # Errors
///
/// `AllocError` where memory runs out.
pub fn effect_of(alloc: Global, act: &Act, kept: &Kept<bool>) -> Result<FlagEffect, AllocError>
    ensures { IfOk result (λ e. e ≡ flag_made kept.now act.now) }
{
    match act {
        Act::Enable => Ok(FlagEffect::Enable(kept.dots(alloc)?)),
        Act::Disable => Ok(FlagEffect::Disable(kept.dots(alloc)?)),
        Act::Reset => Ok(FlagEffect::Reset(kept.dots(alloc)?)),
        _ => Ok(FlagEffect::Reset(Dots::new(alloc))),
    }
}
