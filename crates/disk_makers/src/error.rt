use thiserror::Error;

/// Why a disk wasn't made.
#[derive(Clone, Copy, Debug, PartialEq, Eq, Error)]
pub enum MakeFault {
    /// The disk couldn't be made, or wasn't formatted.
    #[error("the disk couldn't be made")]
    Failed,
    /// Memory ran out.
    #[error("out of memory")]
    NoMemory,
}
