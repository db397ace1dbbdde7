ghost use Rattle.std.specs.Prelude.{◌≡◌};
ghost use Rattle.txn_session.specs.declared.error.SessionError.TheVariants.{NoMemory};

use std::alloc::AllocError;
use thiserror::Error;

/// Why a call of a session did nothing.
#[derive(Debug, Drop, Error)]
pub enum SessionError {
    /// The session has no transaction in the state that the call needs.
    #[error("no transaction")]
    NoTxn,
    /// The session isn't idle.
    #[error("a transaction is there")]
    HasTxn,
    /// The transaction has 256 updates.
    #[error("too many updates")]
    TooMany,
    /// The operation isn't one of the kind.
    #[error("not an operation of the kind")]
    BadOp,
    /// The path leads through maps to a kind that the type has no room for.
    #[error("the path leads too deep")]
    TooDeep,
    /// Memory ran out.
    #[error("out of memory")]
    NoMemory,
}

impl From<AllocError> for SessionError {
    ghost from_gives = { λ e r. r ≡ NoMemory };

    fn from(_error: AllocError) -> SessionError {
        SessionError::NoMemory
    }
}
