// The maker of the program's disks.
ghost use Rattle.std.specs.Prelude.{◌≡◌, ◌≢◌, ◌≤◌, [], true, false, not, None, Some, Err, is_none, is_some, IfOk};
ghost use Rattle.disk_makers.specs.FileDisks.{file_state, fresh_state, is_in_file};
ghost use Rattle.disk_makers.specs.Makers.{IsMade, IsSound, Makes, MakesAll, MakesSound, KeepsOn, TakesBack};

use crate::backing::or_failed;
use crate::{Disks, FileDisk, MakeFault, SystemFile};
use disk_core::Disk;
use gate_log::format;
use site_vector::PartId;
use std::alloc::{AllocError, Global};
use std::fs::{File, Files, OpenFile};

/// The greatest length of a disk.
const ROOM: u64 = 2_147_483_648;

/// The maker of a program's disks, of a room of 2^31 bytes each, which drops what is given back.
///
/// They are in memory, and fail at no call. Once it is told a folder (`keep_in`), each is kept in a file there besides,
/// which is new, has the name of its partition, as `1.2.log`, and stays when the disk is dropped.
#[derive(Drop)]
pub struct RealDisks<'f, R: Files> {
    files: &'f R,
    folder: Option<String>,
    // How many disks are out.
    out: u64,
    // How many disks couldn't be made.
    faults: u64,
}

impl<'f, R: Files> RealDisks<'f, R> {
    ghost use Rattle.disk_makers.specs.RealMakers.{real_maker, folder_of};

    /// No disk is out, and they will be in memory. Takes no memory.
    pub fn new(files: &'f R) -> Self
        ensures state { real_maker result ≡ record { faults = 0; out = 0; tells = false; given = [] } }
        ensures folder { folder_of result ≡ None }
    {
        RealDisks {
            files,
            folder: None,
            out: 0,
            faults: 0,
        }
    }

    /// An empty disk, kept in a new file where there is a folder.
    fn empty(&self, alloc: Global, part: PartId) -> Result<FileDisk<SystemFile<R::File>>, MakeFault>
        ensures empty { IfOk result (λ disk. file_state disk ≡ fresh_state 2147483648 (is_none (folder_of self.now))) }
        ensures kept { IfOk result (λ disk. is_in_file disk ≡ is_some (folder_of self.now)) }
        ensures makes_all { folder_of self.now ≡ None → result ≢ Err MakeFault.Failed }
        ensures sound { folder_of self.now ≡ None → IfOk result (λ disk. IsSound (file_state disk)) }
    {
        match &self.folder {
            Some(folder) => {
                let file = new_file(self.files, alloc, folder, part)?;
                Ok(FileDisk::new(alloc, ROOM, Some(file)))
            }
            None => Ok(FileDisk::new(alloc, ROOM, None)),
        }
    }

    /// A disk that holds no record.
    fn made(&self, alloc: Global, part: PartId) -> Result<FileDisk<SystemFile<R::File>>, MakeFault>
        ensures made { IfOk result (λ disk. IsMade (file_state disk)) }
        ensures makes_all { folder_of self.now ≡ None → result ≢ Err MakeFault.Failed }
        ensures sound { folder_of self.now ≡ None → IfOk result (λ disk. IsSound (file_state disk)) }
    {
        let mut disk = self.empty(alloc, part)?;
        if format(&mut disk).is_ok() {
            Ok(disk)
        } else if self.folder.is_none() || disk.starved() {
            // A disk in memory fails only where it finds no memory to grow.
            Err(MakeFault::NoMemory)
        } else {
            Err(MakeFault::Failed)
        }
    }
}

/// The file of a partition's disk in this folder, which is new and whose name is durable.
fn new_file<R: Files>(
    files: &R,
    alloc: Global,
    folder: &str,
    part: PartId,
) -> Result<SystemFile<R::File>, MakeFault> {
    let Ok(path) = format!(in alloc; "{folder}/{part}.log") else {
        return Err(MakeFault::NoMemory);
    };
    let Ok(file) = File::create_new(files, path.as_str()) else {
        return Err(MakeFault::Failed);
    };
    match File::open(files, folder) {
        Ok(names) if names.sync_all().is_ok() => Ok(SystemFile::new(file)),
        _ => Err(MakeFault::Failed),
    }
}

impl<'f, R: Files> Disks for RealDisks<'f, R> {
    ghost use Rattle.disk_makers.specs.RealMakers.{real_maker, folder_of, real_faults_fit};

    type Disk = FileDisk<SystemFile<R::File>>;

    ghost state = { real_maker };

    ghost makes_all = { λ maker. folder_of maker ≡ None };

    ghost sound = { λ maker. folder_of maker ≡ None };

    ghost keeps_in = { λ maker folder. folder_of maker ≡ Some folder };

    ghost faults_fit = { real_faults_fit };

    fn keep_in(&mut self, alloc: Global, folder: &str) -> Result<(), AllocError> {
        self.folder = Some(String::from_str(alloc, folder)?);
        Ok(())
    }

    fn make(
        &mut self,
        alloc: Global,
        part: PartId,
    ) -> Result<FileDisk<SystemFile<R::File>>, MakeFault>
        ensures makes { Makes file_state result (real_maker self.old) (real_maker self.new) }
        ensures makes_all { MakesAll (λ maker. folder_of maker ≡ None) (result ≡ Err MakeFault.Failed) self.old self.new }
        ensures sound { MakesSound (λ maker. folder_of maker ≡ None) file_state result self.old self.new }
        ensures folder { folder_of self.new ≡ folder_of self.old }
        ensures keeps { KeepsOn (λ maker folder. folder_of maker ≡ Some folder) self.old self.new }
    {
        if self.out == u64::MAX {
            return Err(MakeFault::NoMemory);
        }
        match self.made(alloc, part) {
            Ok(disk) => {
                self.out += 1;
                Ok(disk)
            }
            Err(MakeFault::NoMemory) => Err(MakeFault::NoMemory),
            Err(MakeFault::Failed) => {
                self.faults = self.faults.saturating_add(1);
                Err(MakeFault::Failed)
            }
        }
    }

    fn give_back(&mut self, part: PartId, disk: FileDisk<SystemFile<R::File>>)
        requires { 1 ≤ (real_maker self.old).out }
        ensures takes { TakesBack part disk (real_maker self.old) (real_maker self.new) }
        ensures makes_all { folder_of self.old ≡ None → folder_of self.new ≡ None }
        ensures sound { folder_of self.old ≡ None → folder_of self.new ≡ None }
        ensures folder { folder_of self.new ≡ folder_of self.old }
        ensures keeps { KeepsOn (λ maker folder. folder_of maker ≡ Some folder) self.old self.new }
    {
        let _dropped = disk;
        self.out -= 1;
    }
}
