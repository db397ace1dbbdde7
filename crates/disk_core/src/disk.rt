// What a disk is.
ghost use Rattle.std.specs.Prelude.{◌≡◌, ◌≤◌, ◌-◌, ◌+◌, ◌++◌, ◌^◌, length, take, drop, IsTrue, IfOk, OnOk, OnErr};
ghost use Rattle.disk_core.specs.States.{DiskState, Called, IsWithin, Rests, Writes, Cuts, Syncs, MayTear, ReadsAnImage, bytes_of};

use thiserror::Error;

/// A call of the device failed.
#[derive(Clone, Copy, Debug, PartialEq, Eq, Error)]
#[error("the disk failed")]
pub struct Failed;

/// A file of bytes that a crash may cut, tear and leave unwritten, back to its last sync.
///
/// Every method but `room` and `starved` is a call of the device. Its state says what a read gives, what each crash
/// may leave now and might have left since, a count of faults that never falls, and how many calls are left where it
/// is known. A call answers `Failed` only where the count rose, and `Ok` only where it stayed.
pub trait Disk {
    ghost state: { Self → DiskState };

    /// The greatest length, at most 2^31. It never changes.
    fn room(&self) -> u64
        ensures { result ≡ (state self.now).room };

    /// The length, which is at most the room.
    ///
    /// # Errors
    ///
    /// `Failed` where the device fails. Nothing has changed then.
    fn len(&mut self) -> Result<u64, Failed>
        ensures called { Called result (state self.old) (state self.new) }
        ensures rests { Rests (state self.old) (state self.new) }
        ensures len { IfOk result (λ n. IsTrue (state self.old).tells → n ≡ length (bytes_of (state self.old))) }
        ensures short { IfOk result (λ n. n ≤ (state self.old).room) };

    /// Fills the buffer with the bytes from this place on, which are to be there.
    ///
    /// # Errors
    ///
    /// `Failed` where the device fails. The buffer may hold anything then, and the disk hasn't changed.
    fn read(&mut self, at: u64, buf: &mut [u8]) -> Result<(), Failed>
        requires { IsTrue (state self.old).tells → at + length buf.old ≤ length (bytes_of (state self.old)) }
        ensures called { Called result (state self.old) (state self.new) }
        ensures rests { Rests (state self.old) (state self.new) }
        ensures bytes { OnOk result (IsTrue (state self.old).tells
            → buf.new ≡ take (length buf.old) (drop at (bytes_of (state self.old)))) };

    /// Writes these bytes from this place on, over what is there and past the end.
    ///
    /// # Errors
    ///
    /// `Failed` where the device fails. Any of the bytes may stand there then.
    fn write_at(&mut self, at: u64, bytes: &[u8]) -> Result<(), Failed>
        requires place { IsWithin at (state self.old) }
        requires room { at + length bytes.now ≤ (state self.old).room }
        ensures called { Called result (state self.old) (state self.new) }
        ensures written { OnOk result (Writes at bytes.now (state self.old) (state self.new)) }
        ensures torn { OnErr result (MayTear at (length bytes.now) (state self.old) (state self.new)) };

    /// Writes three pieces, one behind the other, as one write and one call of the device.
    ///
    /// # Errors
    ///
    /// `Failed` where the device fails. Any of the bytes may stand there then.
    fn write_pieces(
        &mut self,
        at: u64,
        front: &[u8],
        middle: &[u8],
        back: &[u8],
    ) -> Result<(), Failed>
        requires place { IsWithin at (state self.old) }
        requires room { at + (length front.now + length middle.now + length back.now) ≤ (state self.old).room }
        ensures called { Called result (state self.old) (state self.new) }
        ensures written { OnOk result (Writes at
            (front.now ++ middle.now ++ back.now) (state self.old) (state self.new)) }
        ensures torn { OnErr result (MayTear at (length
            (front.now ++ middle.now ++ back.now)) (state self.old) (state self.new)) };

    /// Cuts what it holds to this length, which is at most what it has.
    ///
    /// # Errors
    ///
    /// `Failed` where the device fails. Nothing has changed then.
    fn cut(&mut self, len: u64) -> Result<(), Failed>
        requires { IsWithin len (state self.old) }
        ensures called { Called result (state self.old) (state self.new) }
        ensures cut { OnOk result (Cuts len (state self.old) (state self.new)) }
        ensures rests { OnErr result (Rests (state self.old) (state self.new)) };

    /// Makes all that was written durable.
    ///
    /// # Errors
    ///
    /// `Failed` where the device fails. Nothing is more durable than before then.
    fn sync(&mut self) -> Result<(), Failed>
        ensures called { Called result (state self.old) (state self.new) }
        ensures durable { OnOk result (Syncs (state self.old) (state self.new)) }
        ensures rests { OnErr result (Rests (state self.old) (state self.new)) };

    /// Whether a call failed because the disk found no memory to grow.
    fn starved(&self) -> bool
        ensures { result ≡ (state self.now).starved };

    ghost room_fits: { (disk : Self) → (state disk).room ≤ 2 ^ 31 };

    ghost faults_fit: { (disk : Self) → (state disk).faults ≤ 2 ^ 64 - 1 };

    /// What is read may stay after a crash.
    ghost reads_an_image: { (disk : Self) → ReadsAnImage (state disk) };
}
