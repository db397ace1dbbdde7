// The calls of the disk that an append and an opening make.
ghost use Rattle.std.specs.Prelude.{◌≡◌, ◌≢◌, ◌⊎◌, ◌+◌, ◌<◌, ◌≤◌, ◌^◌, ◌++◌, [], ◌∷◌, List, ℕ, length, IsTrue, Some, Err, IfOk, OnOk, OnErr};
ghost use Rattle.disk_core.specs.States.{GoesOn, Fails, IsWithin, Writes, MayTear, Syncs, Rests, bytes_of, fewer, Spared};
ghost use Rattle.disk_core.specs.Moments.{AtEachMoment};
ghost use Rattle.disk_core.specs.Images.{IsSettled};
ghost use Rattle.gate_log.specs.Log.{IsTailWith};
ghost use Rattle.gate_log.specs.Rest.{RestsBehind, Lowers, WritesDurably};

use crate::OpenError;
use disk_core::{Disk, Failed};
use std::alloc::{AllocError, Global};

// Writes three pieces, one behind the other, and makes them durable.
fn write_durable<D: Disk>(
    disk: &mut D,
    at: u64,
    front: &[u8],
    middle: &[u8],
    back: &[u8],
) -> Result<(), Failed>
    requires place { IsWithin at (D.state disk.old) }
    requires room { at + (length front.now + length middle.now + length back.now) ≤ (D.state disk.old).room }
    ensures durable { OnOk result (WritesDurably at (front.now ++ middle.now
        ++ back.now) (D.state disk.old) (D.state disk.new)) }
    ensures torn { OnErr result (MayTear at (length (front.now ++ middle.now
        ++ back.now)) (D.state disk.old) (D.state disk.new)
        ⊎ Writes at (front.now ++ middle.now ++ back.now) (D.state disk.old) (D.state disk.new)) }
    ensures goes_on { GoesOn (D.state disk.old) (D.state disk.new) }
    ensures failed { OnErr result (Fails (D.state disk.old) (D.state disk.new)) }
    ensures left { Lowers 2 (D.state disk.old).left (D.state disk.new).left }
    ensures left_ok { OnOk result ((D.state disk.new).left ≡ fewer 2 (D.state disk.old).left) }
    ensures spared { OnOk result (Spared 2 (D.state disk.old).left) }
{
    disk.write_pieces(at, front, middle, back)?;
    disk.sync()?;
    Ok(())
}

/// Appends a record to the tail whose closed gate stands at `end`, whatever stands in front of it: writes it behind that
/// gate, with a new closed gate behind it, and opens its gate once that is durable. Makes four calls of the disk, and
/// takes no memory.
///
/// # Errors
///
/// `Failed` where the disk fails. A crash leaves the tail before or that with the record.
pub fn write_record<D: Disk>(disk: &mut D, end: u64, payload: &[u8]) -> Result<(), Failed>
    requires some { 1 ≤ length payload.now }
    requires small { length payload.now < 2 ^ 32 }
    requires room { end + 6 + length payload.now ≤ (D.state disk.old).room }
    requires at_rest { IsTrue (D.state disk.old).tells → (front : List ℕ) × (payloads : List (List ℕ))
        × RestsBehind front (D.state disk.old) end payloads }
    ensures appended { OnOk result ((front : List ℕ) (payloads : List (List ℕ))
        → RestsBehind front (D.state disk.old) end payloads
        → RestsBehind front (D.state disk.new) (end + (5 + length payload.now)) (payloads ++ payload.now ∷ [])) }
    ensures settled { OnOk result (IsTrue (D.state disk.old).tells → IsSettled (D.state disk.new).story.now) }
    ensures any_moment { (front : List ℕ) (payloads : List (List ℕ))
        → RestsBehind front (D.state disk.old) end payloads
        → AtEachMoment (D.state disk.old).story (D.state disk.new).story (IsTailWith front payloads payload.now) }
    ensures goes_on { GoesOn (D.state disk.old) (D.state disk.new) }
    ensures failed { OnErr result (Fails (D.state disk.old) (D.state disk.new)) }
    ensures left { Lowers 4 (D.state disk.old).left (D.state disk.new).left }
    ensures left_ok { OnOk result ((D.state disk.new).left ≡ fewer 4 (D.state disk.old).left) }
    ensures spared { OnOk result (Spared 4 (D.state disk.old).left) }
{
    let count = (payload.len() as u32).to_be_bytes();
    write_durable(disk, end + 1, &count, payload, &[0])?;
    write_durable(disk, end, &[1], &[], &[])
}

fn zeros(alloc: Global, count: usize) -> Result<Vec<u8>, AllocError>
    ensures { IfOk result (λ bytes. length bytes.items ≡ count) }
{
    Ok(vec![in alloc; 0; count]?)
}

/// Makes what the disk holds durable, and reads all of it, by three calls of the disk.
///
/// # Errors
///
/// `Failed` where the disk fails, and `NoMemory` where its bytes don't fit the memory.
pub fn read_durable<D: Disk>(alloc: Global, disk: &mut D) -> Result<Vec<u8>, OpenError>
    ensures bytes { IfOk result (λ bytes. IsTrue (D.state disk.old).tells → bytes.items ≡ bytes_of (D.state disk.old)) }
    ensures short { IfOk result (λ bytes. length bytes.items ≤ (D.state disk.old).room) }
    ensures synced { OnOk result (Syncs (D.state disk.old) (D.state disk.new)) }
    ensures rests { OnErr result (Rests (D.state disk.old) (D.state disk.new)
        ⊎ Syncs (D.state disk.old) (D.state disk.new)) }
    ensures goes_on { GoesOn (D.state disk.old) (D.state disk.new) }
    ensures failed { result ≡ Err OpenError.Failed → Fails (D.state disk.old) (D.state disk.new) }
    ensures undamaged { (at : ℕ) → result ≢ Err (OpenError.Damaged at) }
    ensures left { Lowers 3 (D.state disk.old).left (D.state disk.new).left }
    ensures unfired { OnOk result ((D.state disk.new).left ≢ Some 0) }
{
    if disk.sync().is_err() {
        return Err(OpenError::Failed);
    }
    let Ok(len) = disk.len() else {
        return Err(OpenError::Failed);
    };
    let Ok(mut bytes) = zeros(alloc, len as usize) else {
        return Err(OpenError::NoMemory);
    };
    if disk.read(0, &mut bytes).is_err() {
        return Err(OpenError::Failed);
    }
    Ok(bytes)
}
