// A disk in memory, of which the calls on a list fail.
ghost use Rattle.std.specs.Prelude.{◌≡◌, ◌≤◌, ◌+◌, ◌++◌, ◌-◌, ◌^◌, ◌||◌, ◌&&◌, [], true, false, not, length, take, drop, is_err, IsTrue, IfOk, OnOk, OnErr};
ghost use Rattle.disk_core.specs.States.{Called, IsWithin, Rests, Writes, Cuts, Syncs, MayTear, bytes_of};
ghost use Rattle.disk_core.specs.Mediums.{story_of};

use crate::calls::Calls;
use crate::medium::Medium;
use crate::{Disk, Failed};
use std::alloc::{AllocError, Global};

/// A disk in memory that grows as it is written.
///
/// A call fails exactly where its number is on a list (`fail_at`), and where a write finds no memory to grow. Then
/// nothing is written.
#[derive(Drop)]
pub struct MemDisk {
    medium: Medium,
    room: u64,
    calls: Calls,
    starved: bool,
    ghost fits: { room ≤ 2 ^ 31 },
    ghost within: { length (story_of medium).now.bytes ≤ room },
}

impl MemDisk {
    ghost use Rattle.disk_core.specs.Counts.{is_empty};
    ghost use Rattle.disk_core.specs.MemDisks.{mem_state, calls_made, calls_to_fail, IsFresh};

    /// An empty disk of this room, which is at most 2^31. Takes no memory.
    pub fn new(alloc: Global, room: u64) -> MemDisk
        requires { room ≤ 2 ^ 31 }
        ensures { IsFresh room [] result }
    {
        MemDisk::fresh(room, Vec::new(alloc), Calls::new(alloc))
    }

    /// A disk of this room that holds a copy of these bytes, all durable. They fit the room.
    ///
    /// # Errors
    ///
    /// `AllocError` where memory runs out.
    pub fn of_bytes(alloc: Global, room: u64, bytes: &[u8]) -> Result<MemDisk, AllocError>
        requires room { room ≤ 2 ^ 31 }
        requires fits { length bytes.now ≤ room }
        ensures { IfOk result (λ disk. IsFresh room bytes.now disk) }
    {
        let copy = Vec::from_slice(alloc, bytes)?;
        Ok(MemDisk::fresh(room, copy, Calls::new(alloc)))
    }

    fn fresh(room: u64, bytes: Vec<u8>, calls: Calls) -> MemDisk
        requires room { room ≤ 2 ^ 31 }
        requires fits { length bytes.items ≤ room }
        requires made { calls.made ≡ 0 }
        requires failing { calls.failing.items ≡ [] }
        requires failed { calls.failed ≡ 0 }
        ensures { IsFresh room bytes.items result }
    {
        MemDisk {
            medium: Medium::of_bytes(bytes),
            room,
            calls,
            starved: false,
        }
    }

    /// From now on exactly the calls of the device with these numbers fail, counted from 1 since the disk was made,
    /// besides those that find no memory to grow.
    ///
    /// # Errors
    ///
    /// `AllocError` where memory runs out. The disk is as before then.
    pub fn fail_at(&mut self, calls: &[u64]) -> Result<(), AllocError>
        ensures listed { OnOk result (calls_to_fail self.new ≡ calls.now) }
        ensures unlisted { OnErr result (calls_to_fail self.new ≡ calls_to_fail self.old) }
        ensures made { calls_made self.new ≡ calls_made self.old }
        ensures state { mem_state self.new ≡ record (mem_state self.old) { sound = is_empty (calls_to_fail self.new) } }
    {
        self.calls.list(calls)
    }
}

impl Disk for MemDisk {
    ghost use Rattle.disk_core.specs.MemDisks.{mem_state, is_due, CountsCall, mem_reads_an_image};

    ghost state = { mem_state };

    ghost room_fits = { λ disk. disk.fits };

    ghost faults_fit = { λ disk. disk.calls.bounded };

    ghost reads_an_image = { λ disk. mem_reads_an_image disk };

    fn room(&self) -> u64 {
        self.room
    }

    fn len(&mut self) -> Result<u64, Failed>
        ensures called { Called result (mem_state self.old) (mem_state self.new) }
        ensures rests { Rests (mem_state self.old) (mem_state self.new) }
        ensures len { IfOk result (λ n. IsTrue (mem_state self.old).tells
            → n ≡ length (bytes_of (mem_state self.old))) }
        ensures short { IfOk result (λ n. n ≤ (mem_state self.old).room) }
        ensures due { is_err result ≡ is_due self.old }
        ensures fed { (mem_state self.new).starved ≡ (mem_state self.old).starved }
        ensures counts { CountsCall result self.old self.new }
    {
        if self.calls.begin() {
            return Err(Failed);
        }
        Ok(self.medium.len() as u64)
    }

    fn read(&mut self, at: u64, buf: &mut [u8]) -> Result<(), Failed>
        requires { IsTrue (mem_state self.old).tells → at + length buf.old ≤ length (bytes_of (mem_state self.old)) }
        ensures called { Called result (mem_state self.old) (mem_state self.new) }
        ensures rests { Rests (mem_state self.old) (mem_state self.new) }
        ensures bytes { OnOk result (IsTrue (mem_state self.old).tells
            → buf.new ≡ take (length buf.old) (drop at (bytes_of (mem_state self.old)))) }
        ensures due { is_err result ≡ is_due self.old }
        ensures fed { (mem_state self.new).starved ≡ (mem_state self.old).starved }
        ensures counts { CountsCall result self.old self.new }
    {
        if self.calls.begin() {
            return Err(Failed);
        }
        self.medium.read(at as usize, buf);
        Ok(())
    }

    fn write_at(&mut self, at: u64, bytes: &[u8]) -> Result<(), Failed>
        requires place { IsWithin at (mem_state self.old) }
        requires room { at + length bytes.now ≤ (mem_state self.old).room }
        ensures called { Called result (mem_state self.old) (mem_state self.new) }
        ensures written { OnOk result (Writes at bytes.now (mem_state self.old) (mem_state self.new)) }
        ensures torn { OnErr result (MayTear at (length bytes.now) (mem_state self.old) (mem_state self.new)) }
        ensures rests { OnErr result (Rests (mem_state self.old) (mem_state self.new)) }
        ensures due { IsTrue (is_due self.old) → IsTrue (is_err result) }
        ensures starved { (mem_state self.new).starved ≡ ((mem_state self.old).starved || is_err result && not
            (is_due self.old)) }
        ensures counts { CountsCall result self.old self.new }
    {
        self.write_pieces(at, bytes, &[], &[])
    }

    fn write_pieces(
        &mut self,
        at: u64,
        front: &[u8],
        middle: &[u8],
        back: &[u8],
    ) -> Result<(), Failed>
        requires place { IsWithin at (mem_state self.old) }
        requires room { at + (length front.now + length middle.now + length back.now) ≤ (mem_state self.old).room }
        ensures called { Called result (mem_state self.old) (mem_state self.new) }
        ensures written { OnOk result (Writes at
            (front.now ++ middle.now ++ back.now) (mem_state self.old) (mem_state self.new)) }
        ensures torn { OnErr result (MayTear at (length
            (front.now ++ middle.now ++ back.now)) (mem_state self.old) (mem_state self.new)) }
        ensures rests { OnErr result (Rests (mem_state self.old) (mem_state self.new)) }
        ensures due { IsTrue (is_due self.old) → IsTrue (is_err result) }
        ensures starved { (mem_state self.new).starved ≡ ((mem_state self.old).starved || is_err result && not
            (is_due self.old)) }
        ensures counts { CountsCall result self.old self.new }
    {
        if self.calls.begin() {
            return Err(Failed);
        }
        if self.medium.write(at as usize, front, middle, back).is_err() {
            self.calls.fail();
            self.starved = true;
            return Err(Failed);
        }
        Ok(())
    }

    fn cut(&mut self, len: u64) -> Result<(), Failed>
        requires { IsWithin len (mem_state self.old) }
        ensures called { Called result (mem_state self.old) (mem_state self.new) }
        ensures cut { OnOk result (Cuts len (mem_state self.old) (mem_state self.new)) }
        ensures rests { OnErr result (Rests (mem_state self.old) (mem_state self.new)) }
        ensures due { is_err result ≡ is_due self.old }
        ensures fed { (mem_state self.new).starved ≡ (mem_state self.old).starved }
        ensures counts { CountsCall result self.old self.new }
    {
        if self.calls.begin() {
            return Err(Failed);
        }
        self.medium.cut(len as usize);
        Ok(())
    }

    fn sync(&mut self) -> Result<(), Failed>
        ensures called { Called result (mem_state self.old) (mem_state self.new) }
        ensures durable { OnOk result (Syncs (mem_state self.old) (mem_state self.new)) }
        ensures rests { OnErr result (Rests (mem_state self.old) (mem_state self.new)) }
        ensures due { is_err result ≡ is_due self.old }
        ensures fed { (mem_state self.new).starved ≡ (mem_state self.old).starved }
        ensures counts { CountsCall result self.old self.new }
    {
        if self.calls.begin() {
            return Err(Failed);
        }
        self.medium.sync();
        Ok(())
    }

    fn starved(&self) -> bool {
        self.starved
    }
}
