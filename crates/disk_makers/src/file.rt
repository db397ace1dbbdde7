// A disk that is kept in a file.
ghost use Rattle.std.specs.Prelude.{◌≡◌, ◌≤◌, ◌+◌, ◌++◌, ◌^◌, [], ◌==◌, true, false, Some, is_none, is_some, length, take, drop, IsTrue, IsOk, IfOk, OnOk, OnErr};
ghost use Rattle.disk_core.specs.Counts.{counted};
ghost use Rattle.disk_core.specs.Images.{Content, after_write, after_cut, after_sync, settled};
ghost use Rattle.disk_core.specs.States.{Called, IsWithin, Rests, Writes, Cuts, Syncs, MayTear, bytes_of};
ghost use Rattle.disk_makers.specs.FileCalls.{ReachesFile};

use crate::BackingFile;
use disk_core::{Disk, Failed, MemDisk};
use std::alloc::Global;

/// A disk in memory, each change of which goes to a file first, where it has one: what it holds is read from memory.
///
/// A file that has failed once is not trusted again, since what it holds isn't known any more: each later call fails.
#[derive(Drop)]
pub struct FileDisk<F: BackingFile + Drop> {
    memory: MemDisk,
    file: Option<F>,
    // How many calls failed at the file, or after it had failed.
    faults: u64,
}

impl<F: BackingFile + Drop> FileDisk<F> {
    ghost use Rattle.disk_makers.specs.FileDisks.{file_state, fresh_state, is_in_file, IsMirrored};

    /// An empty disk of this room, which is at most 2^31, kept in this file, which is empty, or in memory alone. Takes no
    /// memory.
    pub fn new(alloc: Global, room: u64, file: Option<F>) -> Self
        requires room { room ≤ 2 ^ 31 }
        requires empty { (it : F) (content : Content) → file ≡ Some it → F.held it ≡ Some content → content ≡ settled [] }
        ensures state { file_state result ≡ fresh_state room (is_none file) }
        ensures kept { is_in_file result ≡ is_some file }
        ensures mirrored { IsMirrored F.held result }
    {
        FileDisk {
            memory: MemDisk::new(alloc, room),
            file,
            faults: 0,
        }
    }
}

impl<F: BackingFile + Drop> Disk for FileDisk<F> {
    ghost use Rattle.disk_makers.specs.FileDisks.{file_state, file_faults_fit, file_room_fits, file_reads_an_image, has_failed, IsMirrored, StaysFailed};

    ghost state = { file_state };

    ghost room_fits = { file_room_fits };

    ghost faults_fit = { file_faults_fit };

    ghost reads_an_image = { file_reads_an_image };

    fn room(&self) -> u64 {
        self.memory.room()
    }

    fn len(&mut self) -> Result<u64, Failed>
        ensures called { Called result (file_state self.old) (file_state self.new) }
        ensures rests { Rests (file_state self.old) (file_state self.new) }
        ensures len { IfOk result (λ n. IsTrue (file_state self.old).tells
            → n ≡ length (bytes_of (file_state self.old))) }
        ensures short { IfOk result (λ n. n ≤ (file_state self.old).room) }
        ensures mirrored { IsMirrored F.held self.old → IsMirrored F.held self.new }
        ensures failed { has_failed self.old → StaysFailed result self.old self.new }
    {
        go_on(&mut self.faults)?;
        self.memory.len()
    }

    fn read(&mut self, at: u64, buf: &mut [u8]) -> Result<(), Failed>
        requires { IsTrue (file_state self.old).tells → at + length buf.old ≤ length (bytes_of (file_state self.old)) }
        ensures called { Called result (file_state self.old) (file_state self.new) }
        ensures rests { Rests (file_state self.old) (file_state self.new) }
        ensures bytes { OnOk result (IsTrue (file_state self.old).tells
            → buf.new ≡ take (length buf.old) (drop at (bytes_of (file_state self.old)))) }
        ensures mirrored { IsMirrored F.held self.old → IsMirrored F.held self.new }
        ensures failed { has_failed self.old → StaysFailed result self.old self.new }
    {
        go_on(&mut self.faults)?;
        self.memory.read(at, buf)
    }

    fn write_at(&mut self, at: u64, bytes: &[u8]) -> Result<(), Failed>
        requires place { IsWithin at (file_state self.old) }
        requires room { at + length bytes.now ≤ (file_state self.old).room }
        ensures called { Called result (file_state self.old) (file_state self.new) }
        ensures written { OnOk result (Writes at bytes.now (file_state self.old) (file_state self.new)) }
        ensures torn { OnErr result (MayTear at (length bytes.now) (file_state self.old) (file_state self.new)) }
        ensures mirrored { IsMirrored F.held self.old → IsMirrored F.held self.new }
        ensures failed { has_failed self.old → StaysFailed result self.old self.new }
    {
        self.write_pieces(at, bytes, &[], &[])
    }

    fn write_pieces(
        &mut self,
        at: u64,
        front: &[u8],
        middle: &[u8],
        back: &[u8],
    ) -> Result<(), Failed>
        requires place { IsWithin at (file_state self.old) }
        requires room { at + (length front.now + length middle.now + length back.now) ≤ (file_state self.old).room }
        ensures called { Called result (file_state self.old) (file_state self.new) }
        ensures written { OnOk result (Writes at
            (front.now ++ middle.now ++ back.now) (file_state self.old) (file_state self.new)) }
        ensures torn { OnErr result (MayTear at (length
            (front.now ++ middle.now ++ back.now)) (file_state self.old) (file_state self.new)) }
        ensures mirrored { IsMirrored F.held self.old → IsMirrored F.held self.new }
        ensures failed { has_failed self.old → StaysFailed result self.old self.new }
    {
        go_on(&mut self.faults)?;
        let answer = write_to(&mut self.file, at, front, middle, back);
        count(answer, &mut self.faults)?;
        let answer = self.memory.write_pieces(at, front, middle, back);
        count(answer, &mut self.faults)
    }

    fn cut(&mut self, len: u64) -> Result<(), Failed>
        requires { IsWithin len (file_state self.old) }
        ensures called { Called result (file_state self.old) (file_state self.new) }
        ensures cut { OnOk result (Cuts len (file_state self.old) (file_state self.new)) }
        ensures rests { OnErr result (Rests (file_state self.old) (file_state self.new)) }
        ensures mirrored { IsMirrored F.held self.old → IsMirrored F.held self.new }
        ensures failed { has_failed self.old → StaysFailed result self.old self.new }
    {
        go_on(&mut self.faults)?;
        let answer = cut_in(&mut self.file, len);
        count(answer, &mut self.faults)?;
        let answer = self.memory.cut(len);
        count(answer, &mut self.faults)
    }

    fn sync(&mut self) -> Result<(), Failed>
        ensures called { Called result (file_state self.old) (file_state self.new) }
        ensures durable { OnOk result (Syncs (file_state self.old) (file_state self.new)) }
        ensures rests { OnErr result (Rests (file_state self.old) (file_state self.new)) }
        ensures mirrored { IsMirrored F.held self.old → IsMirrored F.held self.new }
        ensures failed { has_failed self.old → StaysFailed result self.old self.new }
    {
        go_on(&mut self.faults)?;
        let answer = sync_in(&mut self.file);
        count(answer, &mut self.faults)?;
        let answer = self.memory.sync();
        count(answer, &mut self.faults)
    }

    fn starved(&self) -> bool {
        self.memory.starved()
    }
}

/// Fails, and counts that, where a call has failed at the file before.
fn go_on(faults: &mut u64) -> Result<(), Failed>
    ensures ok { OnOk result (faults.old ≡ 0) }
    ensures some { OnErr result (((faults.old == 0) ≡ false) × ((faults.new == 0) ≡ false)) }
    ensures same { OnOk result (faults.new ≡ faults.old) }
    ensures failed { OnErr result (faults.new ≡ counted faults.old) }
{
    let before = *faults;
    if before == 0 {
        return Ok(());
    }
    *faults = before.saturating_add(1);
    Err(Failed)
}

/// What a change answered, which is counted where it failed: the file and the memory may differ then.
fn count(answer: Result<(), Failed>, faults: &mut u64) -> Result<(), Failed>
    ensures answer { result ≡ answer }
    ensures same { OnOk result (faults.new ≡ faults.old) }
    ensures failed { OnErr result (faults.new ≡ counted faults.old) }
{
    let before = *faults;
    if answer.is_err() {
        *faults = before.saturating_add(1);
    }
    answer
}

fn write_to<F: BackingFile>(
    file: &mut Option<F>,
    at: u64,
    front: &[u8],
    middle: &[u8],
    back: &[u8],
) -> Result<(), Failed>
    ensures reaches { OnOk result (ReachesFile F.held (after_write at (front.now ++ middle.now ++ back.now)) file.old file.new) }
    ensures in_memory { is_none file.old ≡ true → IsOk result }
    ensures in_file { is_none file.new ≡ is_none file.old }
{
    match file {
        Some(file) => file.write_pieces(at, front, middle, back),
        None => Ok(()),
    }
}

fn cut_in<F: BackingFile>(file: &mut Option<F>, len: u64) -> Result<(), Failed>
    ensures reaches { OnOk result (ReachesFile F.held (after_cut len) file.old file.new) }
    ensures in_memory { is_none file.old ≡ true → IsOk result }
    ensures in_file { is_none file.new ≡ is_none file.old }
{
    match file {
        Some(file) => file.cut(len),
        None => Ok(()),
    }
}

fn sync_in<F: BackingFile>(file: &mut Option<F>) -> Result<(), Failed>
    ensures reaches { OnOk result (ReachesFile F.held after_sync file.old file.new) }
    ensures in_memory { is_none file.old ≡ true → IsOk result }
    ensures in_file { is_none file.new ≡ is_none file.old }
{
    match file {
        Some(file) => file.sync(),
        None => Ok(()),
    }
}
