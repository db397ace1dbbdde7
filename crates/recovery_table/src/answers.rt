use partition_core::{DurableError, Refusal, RestartError};
use std::alloc::AllocError;
use std::io;
use thiserror::Error;

/// Why a call isn't answered, or a table isn't printed.
#[derive(Debug, Drop, Error)]
pub(crate) enum Failure {
    /// The line asks for what no partition can be asked.
    #[error("not asked")]
    Unasked,
    /// What was answered isn't what the calls before allow.
    #[error("DIFFERS")]
    Differs,
    /// The partition's own answer.
    #[error("{0}")]
    Answer(DurableError),
    /// The partition doesn't come up.
    #[error("{0}")]
    Opening(RestartError),
    /// The output failed.
    #[error("not printed")]
    Unprinted,
}

impl From<DurableError> for Failure {
    fn from(error: DurableError) -> Failure {
        Failure::Answer(error)
    }
}

impl From<Refusal> for Failure {
    fn from(why: Refusal) -> Failure {
        Failure::Answer(DurableError::Refused(why))
    }
}

impl From<RestartError> for Failure {
    fn from(error: RestartError) -> Failure {
        Failure::Opening(error)
    }
}

impl From<AllocError> for Failure {
    fn from(_error: AllocError) -> Failure {
        Failure::Answer(DurableError::NoMemory)
    }
}

impl From<io::Error> for Failure {
    fn from(_error: io::Error) -> Failure {
        Failure::Unprinted
    }
}

impl From<Failure> for io::Error {
    fn from(_failure: Failure) -> io::Error {
        io::ErrorKind::Other.into()
    }
}
