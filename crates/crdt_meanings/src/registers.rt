ghost use Rattle.std.specs.Prelude.{◌≡◌, IfOk};

use crdt_core::Dots;
use field_codec::Text;
use site_vector::Dot;
use std::alloc::{AllocError, Global};

/// What an assign to a register that the last writer wins does.
#[derive(Drop)]
pub struct Assigned {
    /// Below 2^63.
    pub stamp: u64,
    pub text: Text,
}

/// An assign with its dot. The later of two has the greater stamp, or else the greater dot.
#[derive(Drop)]
pub struct Stamped {
    pub stamp: u64,
    pub dot: Dot,
    pub text: Text,
}

impl Assigned {
    /// An equal assign.
    ///
    /// # Errors
    ///
    /// `AllocError` where memory runs out.
    pub fn copy(&self, alloc: Global) -> Result<Assigned, AllocError>
        ensures { IfOk result (λ a. a ≡ self.now) }
    {
        let text = self.text.copy(alloc)?;
        Ok(Assigned {
            stamp: self.stamp,
            text,
        })
    }
}

impl Stamped {
    /// An equal assign.
    ///
    /// # Errors
    ///
    /// `AllocError` where memory runs out.
    pub fn copy(&self, alloc: Global) -> Result<Stamped, AllocError>
        ensures { IfOk result (λ a. a ≡ self.now) }
    {
        let text = self.text.copy(alloc)?;
        Ok(Stamped {
            stamp: self.stamp,
            dot: self.dot,
            text,
        })
    }
}

/// What an update of a `RegisterMv` does. Each takes out the texts at its dots, those that it has seen.
#[derive(Drop)]
pub enum MvEffect {
    /// Puts its text at its dot.
    Assign { text: Text, dots: Dots },
    /// Puts nothing.
    Reset(Dots),
}

impl MvEffect {
    /// An equal effect.
    ///
    /// # Errors
    ///
    /// `AllocError` where memory runs out.
    pub fn copy(&self, alloc: Global) -> Result<MvEffect, AllocError>
        ensures { IfOk result (λ e. e ≡ self.now) }
    {
        match self {
            MvEffect::Assign { text, dots } => Ok(MvEffect::Assign {
                text: text.copy(alloc)?,
                dots: dots.copy(alloc)?,
            }),
            MvEffect::Reset(dots) => Ok(MvEffect::Reset(dots.copy(alloc)?)),
        }
    }
}
