ghost use Rattle.std.specs.Prelude.{◌≡◌, IfOk};

use crdt_core::Dots;
use std::alloc::{AllocError, Global};

/// What an update of a flag does. Each takes out what stands at its dots, those that it has seen.
#[derive(Drop)]
pub enum FlagEffect {
    /// Puts an enable at its dot.
    Enable(Dots),
    /// Puts a disable at its dot, where disables win.
    Disable(Dots),
    /// Puts nothing.
    Reset(Dots),
}

impl FlagEffect {
    /// An equal effect.
    ///
    /// # Errors
    ///
    /// `AllocError` where memory runs out.
    pub fn copy(&self, alloc: Global) -> Result<FlagEffect, AllocError>
        ensures { IfOk result (λ e. e ≡ self.now) }
    {
        match self {
            FlagEffect::Enable(dots) => Ok(FlagEffect::Enable(dots.copy(alloc)?)),
            FlagEffect::Disable(dots) => Ok(FlagEffect::Disable(dots.copy(alloc)?)),
            FlagEffect::Reset(dots) => Ok(FlagEffect::Reset(dots.copy(alloc)?)),
        }
    }
}
