// What answers are called in the table.
use disk_core::{Disk, Failed};
use gate_log::{AppendError, GateLog, OpenError};
use std::alloc::{AllocError, Global};

pub(crate) fn of_format(answer: Result<(), Failed>) -> &'static str {
    match answer {
        Ok(()) => "ok",
        Err(Failed) => "failed",
    }
}

pub(crate) fn of_append(
    alloc: Global,
    answer: Result<(), AppendError>,
) -> Result<String, AllocError> {
    match answer {
        Ok(()) => String::from_str(alloc, "ok"),
        Err(AppendError::Failed) => String::from_str(alloc, "failed"),
        Err(AppendError::Full { room }) => format!(in alloc; "full {room}"),
        Err(AppendError::Closed) => String::from_str(alloc, "closed"),
        Err(AppendError::NoMemory) => String::from_str(alloc, "no memory"),
    }
}

pub(crate) fn of_open_error(alloc: Global, error: OpenError) -> Result<String, AllocError> {
    match error {
        OpenError::Failed => String::from_str(alloc, "failed"),
        OpenError::Damaged { at } => format!(in alloc; "damaged at {at}"),
        OpenError::NoMemory => String::from_str(alloc, "no memory"),
    }
}

/// Adds the bytes in hexadecimal.
pub(crate) fn put_hex(bytes: &[u8], out: &mut String) -> Result<(), AllocError> {
    for byte in bytes {
        write!(out, "{byte:02x}")?;
    }
    Ok(())
}

/// The payloads that were read at opening, each as its place and its bytes in hexadecimal.
pub(crate) fn of_payloads<D: Disk + Drop>(
    alloc: Global,
    log: &GateLog<D>,
) -> Result<String, AllocError> {
    let mut out = String::from_str(alloc, "opened")?;
    for (place, payload) in log.payloads() {
        write!(out, " {place}:")?;
        put_hex(payload, &mut out)?;
    }
    Ok(out)
}

/// What opening the log of a disk answers.
pub(crate) fn of_opening<D: Disk + Drop>(alloc: Global, disk: D) -> Result<String, AllocError> {
    match GateLog::open(alloc, disk) {
        Ok(log) => of_payloads(alloc, &log),
        Err((_, error)) => of_open_error(alloc, error),
    }
}
