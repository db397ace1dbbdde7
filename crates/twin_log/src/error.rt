use thiserror::Error;

/// Why the list of a log wasn't replaced.
#[derive(Clone, Copy, Debug, PartialEq, Eq, Error)]
pub enum SwitchError {
    /// The disk failed. The log holds the list before or the new one, and is closed.
    #[error("the disk failed")]
    Failed,
    /// The new area doesn't fit the room of the disk. The log is as before.
    #[error("the log would pass its room of {room} bytes")]
    Full { room: u64 },
    /// A call failed before, or an opening. The log is as before.
    #[error("the log is closed since the disk failed")]
    Closed,
    /// Memory ran out before anything was written. The log is as before.
    #[error("out of memory")]
    NoMemory,
}
