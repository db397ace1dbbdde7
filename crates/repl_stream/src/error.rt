ghost use Rattle.std.specs.Prelude.{◌≡◌};
ghost use Rattle.repl_stream.specs.declared.error.KeepError.TheVariants.{NoMemory};

use std::alloc::AllocError;
use thiserror::Error;

/// Why a message wasn't kept.
#[derive(Debug, Drop, Error)]
pub enum KeepError {
    /// As many messages are kept as may be.
    #[error("too many messages are kept")]
    Full,
    /// Memory ran out.
    #[error("out of memory")]
    NoMemory,
}

impl From<AllocError> for KeepError {
    ghost from_gives = { λ e r. r ≡ NoMemory };

    fn from(_error: AllocError) -> KeepError {
        KeepError::NoMemory
    }
}
