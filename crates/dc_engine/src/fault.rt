ghost use Rattle.std.specs.Prelude.{◌≡◌};
ghost use Rattle.dc_engine.specs.Faults.{fault_of};

use crate::unanswered::Unanswered;
use thiserror::Error;

/// Why a script isn't played to its end.
#[derive(Clone, Copy, Debug, PartialEq, Eq, Error)]
pub(crate) enum Fault {
    #[error("read fault")]
    Read,
    #[error("write fault")]
    Write,
    #[error("out of memory")]
    NoMemory,
    #[error("script too long")]
    TooLong,
    #[error("no disk")]
    NoDisk,
}

impl From<Unanswered> for Fault {
    ghost from_gives = { λ e r. r ≡ fault_of e };

    fn from(error: Unanswered) -> Self {
        match error {
            Unanswered::NoMemory => Fault::NoMemory,
            Unanswered::NoDisk => Fault::NoDisk,
        }
    }
}
