// New logs.
ghost use Rattle.std.specs.Prelude.{◌≡◌, ◌≤◌, [], IsTrue, IfOk, false};
ghost use Rattle.disk_core.specs.States.{bytes_of};
ghost use Rattle.gate_log.specs.Logs.{IsReady};

use disk_core::Disk;
use gate_log::{GateLog, format};
use std::alloc::Global;
use std::io;

/// A log without a record on a disk that holds nothing.
pub(crate) fn new_log<D: Disk + Drop>(alloc: Global, disk: D) -> io::Result<GateLog<D>>
    requires empty { IsTrue (D.state disk).tells → bytes_of (D.state disk) ≡ [] }
    requires room { 64 ≤ (D.state disk).room }
    ensures { IfOk result (λ log. IsReady D.state log) }
{
    let mut disk = disk;
    if format(&mut disk).is_err() {
        return Err(io::ErrorKind::Other.into());
    }
    match GateLog::open(alloc, disk) {
        Ok(log) => Ok(log),
        Err(_) => Err(io::ErrorKind::Other.into()),
    }
}
