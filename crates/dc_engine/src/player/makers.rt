// The disks of a cluster: they come from a maker, and go back to it.
ghost use Rattle.std.specs.Prelude.{◌≡◌, ◌≤◌, ◌+◌, ◌*◌, ◌++◌, ◌∷◌, [], length, map, Err, IfOk, OnOk, OnErr};
ghost use Rattle.disk_core.specs.Fuses.{fused_state, inside};
ghost use Rattle.disk_core.specs.States.{Rose};
ghost use Rattle.gate_log.specs.Logs.{disk_of};
ghost use Rattle.disk_makers.specs.Makers.{IsMade, IsSound, MakesAll};
ghost use Rattle.site_partitions.specs.Made.{AreBlank};
ghost use Rattle.site_partitions.specs.Reaches.{types_of};
ghost use Rattle.cluster.specs.Reached.{SizedIn, parts_in};
ghost use Rattle.dc_engine.specs.Held.{HasOutOf};
ghost use Rattle.dc_engine.specs.Makers.{AreSure, IsUnchanged, ReturnsAll, GivesBack, disk_from, first_place, next_place, number_or_none};

use crate::unanswered::Unanswered;
use cluster::Cluster;
use crdt_core::Crdt;
use disk_core::{Disk, Fused};
use disk_makers::{Disks, MakeFault};
use partition_core::DurablePartition;
use site_vector::PartId;
use std::alloc::{AllocError, Global};

/// What becomes of a cluster's memory.
#[derive(Clone, Copy, Debug)]
pub(crate) enum Memory {
    /// It is given back.
    Freed,
    /// The process ends, and the system takes it: to give back each update would take some twentieth of a long script's time.
    Left,
}

/// Where the first partition stands.
const FIRST: PartId = PartId { site: 1, part: 1 };

/// The place after this one, site by site.
fn next(at: PartId, parts: u8) -> PartId
    requires { at.site ≤ 200 }
    ensures { result ≡ next_place parts at }
{
    if at.part < parts {
        return PartId {
            site: at.site,
            part: at.part + 1,
        };
    }
    PartId {
        site: at.site + 1,
        part: 1,
    }
}

/// Adds a disk, with a fuse that isn't armed.
fn add<D: Disk + Drop>(made: &mut Vec<Fused<D>>, disk: D) -> Result<(), AllocError>
    requires { IsMade (D.state disk) }
    ensures count { OnOk result (length made.new.items ≡ length made.old.items + 1) }
    ensures same_made { OnErr result (made.new.items ≡ made.old.items) }
    ensures blank { AreBlank (fused_state D.state) made.old.items → AreBlank (fused_state D.state) made.new.items }
    ensures sure { IsSound (D.state disk) → AreSure (fused_state D.state) made.old.items → AreSure (fused_state D.state) made.new.items }
{
    made.push(Fused::new(disk))?;
    Ok(())
}

/// Makes one more disk.
fn make_one<M: Disks>(
    alloc: Global,
    disks: &mut M,
    at: PartId,
    made: &mut Vec<Fused<M::Disk>>,
) -> Result<(), Unanswered>
    ensures count { OnOk result (length made.new.items ≡ length made.old.items + 1) }
    ensures same_made { OnErr result (made.new.items ≡ made.old.items) }
    ensures blank { AreBlank (fused_state M.Disk.state) made.old.items → AreBlank (fused_state M.Disk.state) made.new.items }
    ensures out { OnOk result ((M.state disks.new).out ≡ (M.state disks.old).out + 1) }
    ensures more { (M.state disks.old).out ≤ (M.state disks.new).out }
    ensures later { (M.state disks.old).faults ≤ (M.state disks.new).faults }
    ensures cause { result ≡ Err Unanswered.NoDisk → Rose (M.state disks.old).faults (M.state disks.new).faults }
    ensures sure { MakesAll M.makes_all (result ≡ Err Unanswered.NoDisk) disks.old disks.new }
    ensures sound { M.sound disks.old → M.sound disks.new × (AreSure (fused_state M.Disk.state) made.old.items → AreSure (fused_state M.Disk.state) made.new.items) }
    ensures same { IsUnchanged (M.state disks.old) (M.state disks.new) }
{
    match disks.make(alloc, at) {
        Ok(disk) => Ok(add(made, disk)?),
        Err(MakeFault::Failed) => Err(Unanswered::NoDisk),
        Err(MakeFault::NoMemory) => Err(Unanswered::NoMemory),
    }
}

/// Makes the disks of a cluster, site by site.
///
/// # Errors
///
/// `NoDisk` only where the maker's count of faults rose; `NoMemory` where memory runs out. What was made is given back.
pub(crate) fn make_all<M: Disks>(
    alloc: Global,
    disks: &mut M,
    sites: u8,
    parts: u8,
) -> Result<Vec<Fused<M::Disk>>, Unanswered>
    requires most_sites { sites ≤ 8 }
    requires most_parts { parts ≤ 16 }
    ensures all { IfOk result (λ made. length made.items ≡ sites * parts) }
    ensures blank { IfOk result (λ made. AreBlank (fused_state M.Disk.state) made.items) }
    ensures sound { M.sound disks.old → M.sound disks.new }
    ensures all_sound { IfOk result (λ made. M.sound disks.old → AreSure (fused_state M.Disk.state) made.items) }
    ensures out { OnOk result ((M.state disks.new).out ≡ (M.state disks.old).out + sites * parts) }
    ensures more { (M.state disks.old).out ≤ (M.state disks.new).out }
    ensures later { (M.state disks.old).faults ≤ (M.state disks.new).faults }
    ensures cause { result ≡ Err Unanswered.NoDisk → Rose (M.state disks.old).faults (M.state disks.new).faults }
    ensures sure { MakesAll M.makes_all (result ≡ Err Unanswered.NoDisk) disks.old disks.new }
    ensures same { OnOk result (IsUnchanged (M.state disks.old) (M.state disks.new)) }
{
    let mut made = Vec::new(alloc);
    let mut at = FIRST;
    let mut left = sites as usize * parts as usize;
    while left > 0 {
        if let Err(error) = make_one(alloc, disks, at, &mut made) {
            give_back_made(disks, parts, made);
            return Err(error);
        }
        at = next(at, parts);
        left -= 1;
    }
    Ok(made)
}

/// Gives back disks that were made for the first partitions.
fn give_back_made<M: Disks>(disks: &mut M, parts: u8, made: Vec<Fused<M::Disk>>)
    requires few { length made.items ≤ 128 }
    requires enough { length made.items ≤ (M.state disks.old).out }
    ensures back { GivesBack parts first_place (map inside made.items) (M.state disks.old) (M.state disks.new) }
    ensures sure { M.makes_all disks.old → M.makes_all disks.new }
    ensures sound { M.sound disks.old → M.sound disks.new }
{
    let mut at = FIRST;
    for disk in made {
        disks.give_back(at, disk.into_inner());
        at = next(at, parts);
    }
}

/// How many partitions each site of the cluster has; 0 where none is made.
fn parts_or_none<C: Crdt, D: Disk + Drop>(cluster: &Cluster<C, D>) -> u8
    ensures is { result ≡ number_or_none (parts_in cluster.now) }
    ensures sized { SizedIn cluster.now }
{
    match cluster.parts() {
        Some(parts) => parts,
        None => 0,
    }
}

/// Gives back the disks of a cluster, if one is made. Takes no memory.
pub(crate) fn give_back_cluster<C: Crdt, M: Disks>(
    disks: &mut M,
    cluster: Cluster<C, M::Disk>,
    memory: Memory,
)
    requires { HasOutOf (types_of C.laws C.spells (fused_state M.Disk.state)) (M.state disks.old).out cluster }
    ensures { ReturnsAll cluster (M.state disks.old) (M.state disks.new) }
{
    let parts = parts_or_none(&cluster);
    let partitions = cluster.into_partitions();
    give_back_all(disks, parts, partitions, memory);
}

/// The disk of a partition, with the log as it is.
fn disk_out<C: Crdt, D: Disk + Drop>(partition: DurablePartition<C, D>, memory: Memory) -> D
    ensures { result ≡ disk_of partition.gates }
{
    match memory {
        Memory::Freed => partition.into_disk(),
        Memory::Left => partition.leak_into_disk(),
    }
}

/// Gives back the disks of all partitions, site by site.
fn give_back_all<C: Crdt, M: Disks>(
    disks: &mut M,
    parts: u8,
    partitions: Vec<DurablePartition<C, Fused<M::Disk>>>,
    memory: Memory,
)
    requires few { length partitions.items ≤ 128 }
    requires enough { length partitions.items ≤ (M.state disks.old).out }
    ensures { GivesBack parts first_place (map disk_from partitions.items) (M.state disks.old) (M.state disks.new) }
{
    let mut at = FIRST;
    for partition in partitions {
        disks.give_back(at, disk_out(partition, memory).into_inner());
        at = next(at, parts);
    }
}
