ghost use Rattle.std.specs.Prelude.{◌≡◌};
ghost use Rattle.dc_engine.specs.declared.unanswered.Unanswered.TheVariants.{NoMemory};

use std::alloc::AllocError;
use thiserror::Error;

/// Why a line of a script isn't answered.
#[derive(Clone, Copy, Debug, PartialEq, Eq, Error)]
pub(crate) enum Unanswered {
    #[error("out of memory")]
    NoMemory,
    /// The line makes a cluster, and a disk of it couldn't be made.
    #[error("no disk")]
    NoDisk,
}

impl From<AllocError> for Unanswered {
    ghost from_gives = { λ e r. r ≡ NoMemory };

    fn from(_: AllocError) -> Self {
        Unanswered::NoMemory
    }
}
