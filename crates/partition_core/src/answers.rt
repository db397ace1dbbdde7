ghost use Rattle.std.specs.Prelude.{◌≡◌};
ghost use Rattle.partition_core.specs.declared.answers.CallError.TheVariants.{NoMemory, Refused};

use site_vector::{TxId, VTime};
use std::alloc::AllocError;
use thiserror::Error;

/// Why a partition refuses a call. Times are in ticks of its clock.
#[derive(Debug, Drop, Error)]
pub enum Refusal {
    /// The clock, at this value, hasn't reached the snapshot.
    #[error("the clock, at {at}, has not reached the snapshot")]
    ClockBehind { at: u64 },
    /// This transaction, prepared at this time, may belong to the snapshot.
    #[error("{tx}, prepared at {time}, may belong to the snapshot")]
    TxPending { tx: TxId, time: u64 },
    /// The stable entry of this site is below what the session depends on.
    #[error("of site {site} only {have} is stable")]
    StableBehind { site: u8, have: u64 },
    /// The clock shows its last time, 2^62.
    #[error("the end of time")]
    ClockAtEnd,
    /// The operation isn't one of the kind, or leads deeper than the type reaches.
    #[error("not an operation of the kind")]
    BadOp,
    /// The transaction isn't in a state that the call needs.
    #[error("the transaction is gone")]
    Gone,
    /// The message starts above this bound, which the partition has of its site.
    #[error("the message starts above {have}")]
    Gap { have: u64 },
    /// The message ends at or below this bound, which the partition has of its site.
    #[error("the message brings nothing above {have}")]
    Repeat { have: u64 },
}

/// Why a call that takes memory isn't answered.
#[derive(Debug, Drop, Error)]
pub enum CallError {
    /// Memory ran out. The partition is as before.
    #[error("out of memory")]
    NoMemory,
    /// It is refused. The partition is as before.
    #[error("{0}")]
    Refused(Refusal),
}

impl From<AllocError> for CallError {
    ghost from_gives = { λ e r. r ≡ NoMemory };

    fn from(_error: AllocError) -> CallError {
        CallError::NoMemory
    }
}

impl From<Refusal> for CallError {
    ghost from_gives = { λ why r. r ≡ Refused why };

    fn from(why: Refusal) -> CallError {
        CallError::Refused(why)
    }
}

/// What a partition tells of a transaction of its site. What the lead tells is the transaction's fate.
#[derive(Clone, Copy, Debug)]
pub enum Fate {
    /// It is prepared here and hasn't ended.
    Pending,
    /// It is committed here with this commit vector.
    Committed(VTime),
    /// Neither.
    Aborted,
    /// The partition is down and doesn't tell.
    Down,
}
