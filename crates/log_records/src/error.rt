use thiserror::Error;

/// Why bytes could not be read as one record.
#[derive(Clone, Copy, Debug, PartialEq, Eq, Error)]
pub enum RecordError {
    /// The bytes are no record. `at` is the place of the first field that the grammar refuses, of the first byte behind
    /// the record, or of the first byte of all where the bytes end too early.
    #[error("no record, at {at}")]
    Damaged { at: usize },
    #[error("out of memory")]
    NoMemory,
}
