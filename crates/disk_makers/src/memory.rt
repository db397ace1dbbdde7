// A maker of disks in memory.
ghost use Rattle.std.specs.Prelude.{◌≡◌, ◌≤◌, ◌+◌, ◌^◌, [], true, vec_len, vec_capacity, IfOk, OnOk, OnErr};
ghost use Rattle.disk_core.specs.MemDisks.{mem_state, calls_to_fail};
ghost use Rattle.disk_makers.specs.Makers.{IsMade, IsSound};

use crate::{Disks, MakeFault};
use disk_core::{Calls, MemDisk};
use gate_log::format;
use site_vector::PartId;
use std::alloc::{AllocError, Global};

/// A maker of disks in memory, all of one room. It keeps the disks that are given back.
///
/// A call of `make` answers `Failed` exactly where its number is on a list (`fail_at`).
#[derive(Drop)]
pub struct MemDisks {
    room: u64,
    calls: Calls,
    disk_calls: Vec<u64>,
    stored: Vec<(PartId, MemDisk)>,
    // How many disks are out. Each has a place among those that are kept.
    out: usize,
    ghost least: { 64 ≤ room },
    ghost most: { room ≤ 2 ^ 31 },
    ghost placed: { vec_len stored + out ≤ vec_capacity stored },
}

// A disk in memory that is formatted, of which these calls are to fail.
pub(crate) fn formatted(alloc: Global, room: u64, calls: &[u64]) -> Result<MemDisk, AllocError>
    requires least { 64 ≤ room }
    requires most { room ≤ 2 ^ 31 }
    ensures made { IfOk result (λ disk. IsMade (mem_state disk)) }
    ensures room { IfOk result (λ disk. (mem_state disk).room ≡ room) }
    ensures listed { IfOk result (λ disk. calls_to_fail disk ≡ calls.now) }
    ensures sound { IfOk result (λ disk. calls.now ≡ [] → IsSound (mem_state disk)) }
{
    let mut disk = MemDisk::new(alloc, room);
    // Such a disk fails only where it finds no memory to grow.
    if format(&mut disk).is_err() {
        return Err(AllocError);
    }
    disk.fail_at(calls)?;
    Ok(disk)
}

impl MemDisks {
    ghost use Rattle.disk_makers.specs.MemMakers.{mem_maker, disk_room, makes_begun, makes_to_fail, disk_calls_to_fail};

    /// A maker of disks of this room, which is at least 64 and at most 2^31. No call is to fail. Takes no memory.
    pub fn new(alloc: Global, room: u64) -> MemDisks
        requires least { 64 ≤ room }
        requires most { room ≤ 2 ^ 31 }
        ensures state { mem_maker result ≡ record { faults = 0; out = 0; tells = true; given = [] } }
        ensures room { disk_room result ≡ room }
        ensures begun { makes_begun result ≡ 0 }
        ensures to_fail { makes_to_fail result ≡ [] }
        ensures disk_calls { disk_calls_to_fail result ≡ [] }
    {
        MemDisks {
            room,
            calls: Calls::new(alloc),
            disk_calls: Vec::new(alloc),
            stored: Vec::new(alloc),
            out: 0,
        }
    }

    /// From now on exactly the calls of `make` with these numbers fail, counted from 1 since the maker was made.
    ///
    /// # Errors
    ///
    /// `AllocError` where memory runs out. The maker is as before then.
    pub fn fail_at(&mut self, calls: &[u64]) -> Result<(), AllocError>
        ensures listed { OnOk result (makes_to_fail self.new ≡ calls.now) }
        ensures unlisted { OnErr result (makes_to_fail self.new ≡ makes_to_fail self.old) }
        ensures state { mem_maker self.new ≡ mem_maker self.old }
        ensures room { disk_room self.new ≡ disk_room self.old }
        ensures begun { makes_begun self.new ≡ makes_begun self.old }
        ensures disk_calls { disk_calls_to_fail self.new ≡ disk_calls_to_fail self.old }
    {
        self.calls.list(calls)
    }

    /// Each disk that is made from now on gets this list once it is formatted: its calls with these numbers fail,
    /// counted from 1 since the disk was made, of which formatting takes the first.
    ///
    /// # Errors
    ///
    /// `AllocError` where memory runs out. The maker is as before then.
    pub fn fail_disks_at(&mut self, calls: &[u64]) -> Result<(), AllocError>
        ensures listed { OnOk result (disk_calls_to_fail self.new ≡ calls.now) }
        ensures unlisted { OnErr result (disk_calls_to_fail self.new ≡ disk_calls_to_fail self.old) }
        ensures state { mem_maker self.new ≡ mem_maker self.old }
        ensures room { disk_room self.new ≡ disk_room self.old }
        ensures begun { makes_begun self.new ≡ makes_begun self.old }
        ensures to_fail { makes_to_fail self.new ≡ makes_to_fail self.old }
    {
        let alloc = *self.disk_calls.allocator();
        self.disk_calls = Vec::from_slice(alloc, calls)?;
        Ok(())
    }

    /// The disks that were given back, each with its partition, in the order in which they came.
    pub fn disks(&self) -> &[(PartId, MemDisk)]
        ensures { result.now ≡ (mem_maker self.now).given }
    {
        &self.stored
    }
}

impl Disks for MemDisks {
    ghost use Rattle.disk_makers.specs.Makers.{Makes, MakesAll, MakesSound, TakesBack};
    ghost use Rattle.disk_makers.specs.MemMakers.{mem_maker, makes_begun, makes_to_fail, disk_calls_to_fail, CountsMake, IsSameMaker};

    type Disk = MemDisk;

    ghost state = { mem_maker };

    ghost makes_all = { λ maker. makes_to_fail maker ≡ [] };

    ghost sound = { λ maker. disk_calls_to_fail maker ≡ [] };

    ghost keeps_in = { λ maker folder. Unit {0} };

    ghost faults_fit = { λ maker. maker.calls.bounded };

    fn keep_in(&mut self, _alloc: Global, _folder: &str) -> Result<(), AllocError>
        ensures same { self.new ≡ self.old }
    {
        Ok(())
    }

    fn make(&mut self, alloc: Global, _part: PartId) -> Result<MemDisk, MakeFault>
        ensures makes { Makes mem_state result (mem_maker self.old) (mem_maker self.new) }
        ensures makes_all { MakesAll (λ maker. makes_to_fail maker ≡ []) (result ≡ Err MakeFault.Failed) self.old self.new }
        ensures sound { MakesSound (λ maker. disk_calls_to_fail maker ≡ []) mem_state result self.old self.new }
        ensures counts { CountsMake result self.old self.new }
    {
        if self.calls.begin() {
            return Err(MakeFault::Failed);
        }
        if self.stored.reserve(self.out + 1).is_err() {
            return Err(MakeFault::NoMemory);
        }
        let Ok(disk) = formatted(alloc, self.room, &self.disk_calls) else {
            return Err(MakeFault::NoMemory);
        };
        self.out += 1;
        Ok(disk)
    }

    fn give_back(&mut self, part: PartId, disk: MemDisk)
        requires { 1 ≤ (mem_maker self.old).out }
        ensures takes { TakesBack part disk (mem_maker self.old) (mem_maker self.new) }
        ensures makes_all { makes_to_fail self.old ≡ [] → makes_to_fail self.new ≡ [] }
        ensures sound { disk_calls_to_fail self.old ≡ [] → disk_calls_to_fail self.new ≡ [] }
        ensures same { IsSameMaker self.old self.new }
        ensures begun { makes_begun self.new ≡ makes_begun self.old }
    {
        self.stored.push_reserved((part, disk));
        self.out -= 1;
    }
}
