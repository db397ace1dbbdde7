// A disk in memory that takes all its room when it is made.
ghost use Rattle.std.specs.Prelude.{◌≡◌, ◌≤◌, ◌+◌, ◌++◌, ◌^◌, [], true, false, length, take, drop, vec_capacity, None, IsTrue, IsOk, IfOk, OnOk, OnErr};
ghost use Rattle.disk_core.specs.Images.{settled};
ghost use Rattle.disk_core.specs.States.{Called, IsWithin, Rests, Writes, Cuts, Syncs, MayTear, bytes_of};
ghost use Rattle.disk_core.specs.Mediums.{story_of};

use crate::medium::Medium;
use crate::{Disk, Failed};
use std::alloc::{AllocError, Global};

/// A disk in memory that takes all its room when it is made, so that no call of it fails.
#[derive(Drop)]
pub struct SureDisk {
    medium: Medium,
    room: u64,
    ghost fits: { room ≤ 2 ^ 31 },
    ghost taken: { room ≤ vec_capacity medium.bytes },
    ghost within: { length (story_of medium).now.bytes ≤ room },
}

impl SureDisk {
    ghost use Rattle.disk_core.specs.SureDisks.{sure_state};

    /// An empty disk of this room, which is at most 2^31.
    ///
    /// # Errors
    ///
    /// `AllocError` where the room isn't there.
    pub fn new(alloc: Global, room: u64) -> Result<SureDisk, AllocError>
        requires { room ≤ 2 ^ 31 }
        ensures { IfOk result (λ disk. sure_state disk
            ≡ record { tells = true; story = record { now = settled []; past = [] }; room = room; faults = 0; left = None; keep = 0; starved = false; sound = true }) }
    {
        let bytes = Vec::with_capacity(alloc, room as usize)?;
        Ok(SureDisk {
            medium: Medium::of_bytes(bytes),
            room,
        })
    }
}

impl Disk for SureDisk {
    ghost use Rattle.std.specs.Prelude.{refl};
    ghost use Rattle.std.proofs.Common.{lit≤};
    ghost use Rattle.disk_core.specs.SureDisks.{sure_state, sure_reads_an_image};

    ghost state = { sure_state };

    ghost room_fits = { λ disk. disk.fits };

    ghost faults_fit = { λ disk. lit≤ tt };

    ghost reads_an_image = { λ disk. sure_reads_an_image disk };

    fn room(&self) -> u64 {
        self.room
    }

    fn len(&mut self) -> Result<u64, Failed>
        ensures called { Called result (sure_state self.old) (sure_state self.new) }
        ensures rests { Rests (sure_state self.old) (sure_state self.new) }
        ensures len { IfOk result (λ n. IsTrue (sure_state self.old).tells
            → n ≡ length (bytes_of (sure_state self.old))) }
        ensures short { IfOk result (λ n. n ≤ (sure_state self.old).room) }
        ensures sure { IsOk result }
    {
        Ok(self.medium.len() as u64)
    }

    fn read(&mut self, at: u64, buf: &mut [u8]) -> Result<(), Failed>
        requires { IsTrue (sure_state self.old).tells → at + length buf.old ≤ length (bytes_of (sure_state self.old)) }
        ensures called { Called result (sure_state self.old) (sure_state self.new) }
        ensures rests { Rests (sure_state self.old) (sure_state self.new) }
        ensures bytes { OnOk result (IsTrue (sure_state self.old).tells
            → buf.new ≡ take (length buf.old) (drop at (bytes_of (sure_state self.old)))) }
        ensures sure { IsOk result }
    {
        self.medium.read(at as usize, buf);
        Ok(())
    }

    fn write_at(&mut self, at: u64, bytes: &[u8]) -> Result<(), Failed>
        requires place { IsWithin at (sure_state self.old) }
        requires room { at + length bytes.now ≤ (sure_state self.old).room }
        ensures called { Called result (sure_state self.old) (sure_state self.new) }
        ensures written { OnOk result (Writes at bytes.now (sure_state self.old) (sure_state self.new)) }
        ensures torn { OnErr result (MayTear at (length bytes.now) (sure_state self.old) (sure_state self.new)) }
        ensures sure { IsOk result }
    {
        self.write_pieces(at, bytes, &[], &[])
    }

    fn write_pieces(
        &mut self,
        at: u64,
        front: &[u8],
        middle: &[u8],
        back: &[u8],
    ) -> Result<(), Failed>
        requires place { IsWithin at (sure_state self.old) }
        requires room { at + (length front.now + length middle.now + length back.now) ≤ (sure_state self.old).room }
        ensures called { Called result (sure_state self.old) (sure_state self.new) }
        ensures written { OnOk result (Writes at
            (front.now ++ middle.now ++ back.now) (sure_state self.old) (sure_state self.new)) }
        ensures torn { OnErr result (MayTear at (length
            (front.now ++ middle.now ++ back.now)) (sure_state self.old) (sure_state self.new)) }
        ensures sure { IsOk result }
    {
        match self.medium.write(at as usize, front, middle, back) {
            Ok(()) => Ok(()),
            // The room was taken when the disk was made.
            Err(_) => unreachable!(),
        }
    }

    fn cut(&mut self, len: u64) -> Result<(), Failed>
        requires { IsWithin len (sure_state self.old) }
        ensures called { Called result (sure_state self.old) (sure_state self.new) }
        ensures cut { OnOk result (Cuts len (sure_state self.old) (sure_state self.new)) }
        ensures rests { OnErr result (Rests (sure_state self.old) (sure_state self.new)) }
        ensures sure { IsOk result }
    {
        self.medium.cut(len as usize);
        Ok(())
    }

    fn sync(&mut self) -> Result<(), Failed>
        ensures called { Called result (sure_state self.old) (sure_state self.new) }
        ensures durable { OnOk result (Syncs (sure_state self.old) (sure_state self.new)) }
        ensures rests { OnErr result (Rests (sure_state self.old) (sure_state self.new)) }
        ensures sure { IsOk result }
    {
        self.medium.sync();
        Ok(())
    }

    fn starved(&self) -> bool {
        false
    }
}
