ghost use Rattle.std.specs.Prelude.{◌≡◌, ◌≤◌, [], IsTrue, OnOk, OnErr};
ghost use Rattle.disk_core.specs.States.{GoesOn, Fails, bytes_of};
ghost use Rattle.gate_log.specs.Rest.{Lowers};
ghost use Rattle.twin_log.specs.Rests.{IsEmptyLog};

use disk_core::{Disk, Failed};

/// The header, whose first start is in use, and an area without a payload.
const EMPTY: [u8; 31] = [
    67, 85, 82, 69, 84, 87, 78, 49, 0, 0, 0, 0, 0, 0, 0, 0, 25, 0, 0, 0, 0, 0, 0, 0, 25, 1, 0, 0,
    0, 0, 0,
];

/// Makes a disk of length 0, with a room of at least 64, a log without a payload.
///
/// # Errors
///
/// `Failed` where the disk fails.
pub fn format<D: Disk>(disk: &mut D) -> Result<(), Failed>
    requires empty { IsTrue (D.state disk.old).tells → bytes_of (D.state disk.old) ≡ [] }
    requires room { 64 ≤ (D.state disk.old).room }
    ensures formatted { OnOk result (IsTrue (D.state disk.old).tells → IsEmptyLog (D.state disk.new)) }
    ensures goes_on { GoesOn (D.state disk.old) (D.state disk.new) }
    ensures failed { OnErr result (Fails (D.state disk.old) (D.state disk.new)) }
    ensures quiet { OnOk result ((D.state disk.new).faults ≡ (D.state disk.old).faults) }
    ensures fed { OnOk result ((D.state disk.new).starved ≡ (D.state disk.old).starved) }
    ensures left { Lowers 2 (D.state disk.old).left (D.state disk.new).left }
{
    disk.write_at(0, &EMPTY)?;
    disk.sync()
}
