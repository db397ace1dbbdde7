// The calls of the disk that a switch makes.
ghost use Rattle.std.specs.Prelude.{◌≡◌, ◌⊎◌, ◌+◌, ◌<◌, ◌≤◌, ◌^◌, List, ℕ, length, IsTrue, OnOk, OnErr};
ghost use Rattle.disk_core.specs.States.{GoesOn, Fails, IsWithin, Writes, MayTear, fewer, Spared};
ghost use Rattle.disk_core.specs.Moments.{AtEachMoment};
ghost use Rattle.gate_log.specs.Rest.{Lowers, WritesDurably};
ghost use Rattle.twin_log.specs.Twin.{IsEither, other_if, turned_if};
ghost use Rattle.twin_log.specs.Rests.{AtRest, IsArea, IsNext, calls_for};

use crate::spot::Spot;
use disk_core::{Disk, Failed};

// Writes these bytes and makes them durable.
fn write_durable<D: Disk>(disk: &mut D, at: u64, bytes: &[u8]) -> Result<(), Failed>
    requires place { IsWithin at (D.state disk.old) }
    requires room { at + length bytes.now ≤ (D.state disk.old).room }
    ensures durable { OnOk result (WritesDurably at bytes.now (D.state disk.old) (D.state disk.new)) }
    ensures torn { OnErr result (MayTear at (length bytes.now) (D.state disk.old) (D.state disk.new)
        ⊎ Writes at bytes.now (D.state disk.old) (D.state disk.new)) }
    ensures goes_on { GoesOn (D.state disk.old) (D.state disk.new) }
    ensures failed { OnErr result (Fails (D.state disk.old) (D.state disk.new)) }
    ensures left { Lowers 2 (D.state disk.old).left (D.state disk.new).left }
    ensures left_ok { OnOk result ((D.state disk.new).left ≡ fewer 2 (D.state disk.old).left) }
    ensures spared { OnOk result (Spared 2 (D.state disk.old).left) }
{
    disk.write_at(at, bytes)?;
    disk.sync()?;
    Ok(())
}

// Where the start that isn't in use stands.
fn other_place(second: bool) -> u64
    ensures { result ≡ other_if second }
{
    if second { 9 } else { 17 }
}

// The switch byte that puts it into use.
fn turned_byte(second: bool) -> u8
    ensures { result ≡ turned_if second }
{
    if second { 0 } else { 1 }
}

// Writes the area of the next spot and its start, and then turns to it; at the front it cuts off all behind it.
pub(crate) fn replace<D: Disk>(
    disk: &mut D,
    spot: &Spot,
    next: &Spot,
    area: &[u8],
) -> Result<(), Failed>
    requires room { next.now.end < (D.state disk.old).room }
    requires small { next.now.start < 2 ^ 64 }
    requires low { 25 ≤ spot.now.start }
    requires order { spot.now.start ≤ spot.now.end }
    requires next { IsNext spot.now (length area.now) next.now }
    requires at_rest { IsTrue (D.state disk.old).tells → (before after : List (List ℕ))
        × AtRest (D.state disk.old) spot.now before × IsArea area.now next.now.format after }
    ensures replaced { OnOk result ((before after : List (List ℕ)) → AtRest (D.state disk.old) spot.now before
        → IsArea area.now next.now.format after → AtRest (D.state disk.new) next.now after) }
    ensures any_moment { (before after : List (List ℕ)) → AtRest (D.state disk.old) spot.now before
        → IsArea area.now next.now.format after → AtEachMoment (D.state disk.old).story (D.state disk.new).story
        (IsEither spot.now.format before next.now.format after) }
    ensures goes_on { GoesOn (D.state disk.old) (D.state disk.new) }
    ensures failed { OnErr result (Fails (D.state disk.old) (D.state disk.new)) }
    ensures left { Lowers 6 (D.state disk.old).left (D.state disk.new).left }
    ensures left_ok { OnOk result ((D.state disk.new).left
        ≡ fewer (calls_for spot.now (length area.now)) (D.state disk.old).left) }
    ensures spared { OnOk result (Spared (calls_for spot.now (length area.now)) (D.state disk.old).left) }
{
    let other = other_place(spot.second);
    let turned = turned_byte(spot.second);
    let start = next.start.to_be_bytes();
    disk.write_at(next.start, area)?;
    write_durable(disk, other, &start)?;
    write_durable(disk, 8, &[turned])?;
    if next.start == 25 {
        disk.cut(next.end + 1)?;
    }
    Ok(())
}
