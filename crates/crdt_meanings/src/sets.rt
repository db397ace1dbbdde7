ghost use Rattle.std.specs.Prelude.{◌≡◌, ◌++◌, IfOk};

use crdt_core::Dots;
use field_codec::{ListOf, Text};
use std::alloc::{AllocError, Global};

/// An element with the updates of it that were seen.
#[derive(Drop)]
pub struct Named {
    pub text: Text,
    pub dots: Dots,
}

impl Named {
    /// An equal element with equal dots.
    ///
    /// # Errors
    ///
    /// `AllocError` where memory runs out.
    pub fn copy(&self, alloc: Global) -> Result<Named, AllocError>
        ensures { IfOk result (λ n. n ≡ self.now) }
    {
        let text = self.text.copy(alloc)?;
        let dots = self.dots.copy(alloc)?;
        Ok(Named { text, dots })
    }
}

/// What an update of a set does: of each element that it names, it takes out what stands at the dots.
#[derive(Drop)]
pub enum SetEffect {
    /// Puts an add of each element at its dot.
    Add(ListOf<Named>),
    /// Puts a remove of each element at its dot, where removes win.
    Remove(ListOf<Named>),
    /// Puts nothing.
    Reset(ListOf<Named>),
}

impl SetEffect {
    /// An equal effect.
    ///
    /// # Errors
    ///
    /// `AllocError` where memory runs out.
    pub fn copy(&self, alloc: Global) -> Result<SetEffect, AllocError>
        ensures { IfOk result (λ e. e ≡ self.now) }
    {
        match self {
            SetEffect::Add(named) => Ok(SetEffect::Add(copy_named(alloc, named.as_slice())?)),
            SetEffect::Remove(named) => Ok(SetEffect::Remove(copy_named(alloc, named.as_slice())?)),
            SetEffect::Reset(named) => Ok(SetEffect::Reset(copy_named(alloc, named.as_slice())?)),
        }
    }
}

/// An equal list.
///
/// # Errors
///
/// `AllocError` where memory runs out.
fn copy_named(alloc: Global, named: &[Named]) -> Result<ListOf<Named>, AllocError>
    ensures { IfOk result (λ l. l ≡ named.now) }
{
    let mut copied = ListOf::new(alloc);
    for one in named {
        copied.push(one.copy(alloc)?)?;
    }
    Ok(copied)
}
