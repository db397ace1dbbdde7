ghost use Rattle.std.specs.Prelude.{◌≡◌};
ghost use Rattle.field_codec.specs.declared.error.TakeError.TheVariants.{NoMemory};

use std::alloc::{AllocError, AllocFailed};
use thiserror::Error;

/// Why a value could not be read.
#[derive(Clone, Copy, Debug, PartialEq, Eq, Error)]
pub enum TakeError {
    /// The first field that fails is cut off. It begins at this place.
    #[error("the field at {at} is cut off")]
    Short { at: usize },
    /// The first field that fails is whole, and no value is spelled so. It begins at this place.
    #[error("the field at {at} is refused")]
    Bad { at: usize },
    #[error("out of memory")]
    NoMemory,
}

impl From<AllocError> for TakeError {
    ghost from_gives = { λ _ e. e ≡ NoMemory };

    fn from(_: AllocError) -> TakeError {
        TakeError::NoMemory
    }
}
