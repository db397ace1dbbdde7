// Bytes as words, and what answers are called.
use crdt_core::Record;
use log_records::RecordError;
use std::alloc::{AllocError, Global};

/// The number that a hexadecimal digit stands for.
fn digit(byte: u8) -> Option<u8> {
    if byte.is_ascii_digit() {
        return Some(byte - b'0');
    }
    if (b'a'..=b'f').contains(&byte) {
        return Some(byte - b'a' + 10);
    }
    None
}

/// The bytes that these digits spell, two each. What is no digit is left out.
pub(crate) fn bytes_of(alloc: Global, digits: &str) -> Result<Vec<u8>, AllocError> {
    let mut bytes = Vec::new(alloc);
    let mut high = None;
    for byte in digits.as_bytes() {
        if let Some(low) = digit(*byte) {
            match high {
                None => high = Some(low),
                Some(first) => {
                    bytes.push((first << 4) | low)?;
                    high = None;
                }
            }
        }
    }
    Ok(bytes)
}

/// Adds the bytes in hexadecimal.
pub(crate) fn put_hex(out: &mut String, bytes: &[u8]) -> Result<(), AllocError> {
    for byte in bytes {
        write!(out, "{byte:02x}")?;
    }
    Ok(())
}

pub(crate) fn name_of(record: &Record<i64>) -> &'static str {
    match record {
        Record::Lease { .. } => "lease",
        Record::Prepare { .. } => "prepare",
        Record::Decide { .. } => "decide",
        Record::Finish { .. } => "finish",
        Record::Abort { .. } => "abort",
        Record::Batch { .. } => "batch",
    }
}

/// Adds what taking a record answered.
pub(crate) fn put_answer(
    out: &mut String,
    answer: &Result<Record<i64>, RecordError>,
) -> Result<(), AllocError> {
    match answer {
        Ok(record) => out.push_str(name_of(record)),
        Err(RecordError::Damaged { at }) => write!(out, "damaged at {at}"),
        Err(RecordError::NoMemory) => out.push_str("no memory"),
    }
}
