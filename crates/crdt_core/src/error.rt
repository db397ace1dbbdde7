ghost use Rattle.std.specs.Prelude.{◌≡◌};
ghost use Rattle.crdt_core.specs.declared.error.GenError.TheVariants.{NoMemory};

use std::alloc::AllocError;
use thiserror::Error;

/// Why no effect was generated.
#[derive(Debug, Drop, Error)]
pub enum GenError {
    /// The operation isn't one of the kind.
    #[error("not an operation of the kind")]
    BadOp,
    /// The path leads through maps to a kind that the type has no room for.
    #[error("the path leads too deep")]
    TooDeep,
    /// Memory ran out.
    #[error("out of memory")]
    NoMemory,
}

impl From<AllocError> for GenError {
    ghost from_gives = { λ e r. r ≡ NoMemory };

    fn from(_error: AllocError) -> GenError {
        GenError::NoMemory
    }
}
