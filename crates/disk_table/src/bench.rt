// What bench/log measures.
ghost use Rattle.std.specs.Prelude.{◌≡◌, IfOk};
ghost use Rattle.gate_log.specs.Logs.{IsReady};
ghost use Rattle.disk_core.specs.MemDisks.{mem_state};

use crate::logs::new_log;
use disk_core::MemDisk;
use gate_log::GateLog;
use std::alloc::Global;
use std::io;

const ROOM: u64 = 1 << 31;

/// As many records of 100 bytes as fill 256 MiB.
const RECORDS: u64 = 2_556_528;

/// A log of so many records of 100 bytes.
fn filled(alloc: Global, records: u64) -> io::Result<GateLog<MemDisk>> {
    let mut log = new_log(alloc, MemDisk::new(alloc, ROOM))?;
    let payload = [7; 100];
    for _record in 0..records {
        if log.append(&payload).is_err() {
            return Err(io::ErrorKind::Other.into());
        }
    }
    Ok(log)
}

/// Appends so many records of 100 bytes.
pub(crate) fn append(rt: &HostRuntime, records: u64) -> io::Result<()> {
    let _log = filled(rt.alloc(), records)?;
    println!(rt; "{records} records")
}

/// Opens a log of 256 MiB so many times.
pub(crate) fn open(rt: &HostRuntime, times: u64) -> io::Result<()> {
    let alloc = rt.alloc();
    let mut disk = filled(alloc, RECORDS)?.close();
    let mut opened: u64 = 0;
    for _time in 0..times {
        match GateLog::open(alloc, disk) {
            Ok(log) => {
                opened = opened.saturating_add(1);
                disk = log.close();
            }
            Err(_) => return Err(io::ErrorKind::Other.into()),
        }
    }
    println!(rt; "{opened} openings")
}

/// Copies 256 MiB so many times.
pub(crate) fn copy(rt: &HostRuntime, times: u64) -> io::Result<()> {
    let alloc = rt.alloc();
    let bytes = vec![in alloc; 7u8; 1 << 28]?;
    let mut copied: u64 = 0;
    for _time in 0..times {
        let copy = Vec::from_slice(alloc, &bytes)?;
        copied = copied.saturating_add(copy.len() as u64);
    }
    println!(rt; "{copied} bytes")
}
