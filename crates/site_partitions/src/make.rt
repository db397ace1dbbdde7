// How the partitions of a cluster come up over their disks.
ghost use Rattle.std.specs.Prelude.{◌≡◌, ◌≤◌, ◌+◌, ◌*◌, ◌++◌, [], ◌∷◌, length, None, IfOk, IfErr, OnOk};
ghost use Rattle.disk_core.specs.Fuses.{fused_state};
ghost use Rattle.partition_core.specs.Durable.{StandsOn, disk_in};
ghost use Rattle.partition_log.specs.Codec.{codec_of};
ghost use Rattle.world_model.specs.rules.Partition.{PartState};
ghost use Rattle.site_partitions.specs.Held.{index_of};
ghost use Rattle.site_partitions.specs.Made.{AreBlank, HandsBack};
ghost use Rattle.site_partitions.specs.Reaches.{types_of, Reaches};
ghost use Rattle.site_partitions.specs.Sound.{AreSound, AreUnarmed, AllSound};
ghost use Rattle.site_partitions.specs.declared.make.MakeError.TheVariants.{NoMemory};

use crate::Sites;
use crdt_core::Crdt;
use disk_core::{Disk, Fused};
use partition_core::{DurablePartition, RestartError};
use site_vector::PartId;
use std::alloc::{AllocError, Global};

/// Why the partitions of a cluster aren't made.
#[derive(Drop)]
pub enum MakeError<D: Drop> {
    /// Memory ran out.
    NoMemory,
    /// A partition doesn't come up over its disk, which is handed back.
    Partition {
        part: PartId,
        disk: D,
        error: RestartError,
    },
}

impl<D: Drop> From<AllocError> for MakeError<D> {
    ghost from_gives = { λ e r. r ≡ NoMemory };

    fn from(_error: AllocError) -> MakeError<D> {
        MakeError::NoMemory
    }
}

impl<C: Crdt, D: Disk + Drop> Sites<C, Fused<D>> {
    /// The partitions of a cluster whose logs these disks hold: one disk for each, site by site. They hold nothing over
    /// disks that are formatted. No fuse is armed on a disk then.
    ///
    /// # Errors
    ///
    /// `Partition` where one doesn't come up, as its restart says; `NoMemory` where memory runs out.
    pub fn new(
        alloc: Global,
        sites: u8,
        parts: u8,
        disks: Vec<Fused<D>>,
    ) -> Result<Sites<C, Fused<D>>, MakeError<Fused<D>>>
        requires least_site { 1 ≤ sites }
        requires most_sites { sites ≤ 8 }
        requires least_part { 1 ≤ parts }
        requires most_parts { parts ≤ 16 }
        requires all { length disks.items ≡ sites * parts }
        ensures size { IfOk result (λ c. (c.sites ≡ sites) × (c.parts ≡ parts)) }
        ensures reaches { IfOk result (λ c. AreBlank (fused_state D.state) disks.items → Reaches (types_of C.laws C.spells (fused_state D.state)) c []) }
        ensures unarmed { IfOk result (λ c. AreUnarmed (fused_state D.state) c) }
        ensures sound { IfOk result (λ c. AllSound (fused_state D.state) disks.items → AreSound (fused_state D.state) c) }
        ensures failed { IfErr result (λ e. HandsBack (fused_state D.state) sites parts disks.items e) }
    {
        let mut partitions = Vec::new(alloc);
        let mut part = PartId { site: 1, part: 1 };
        for disk in disks {
            match DurablePartition::make(alloc, part, sites, parts, disk) {
                Err((disk, error)) => {
                    return Err(MakeError::Partition { part, disk, error });
                }
                Ok(partition) => {
                    add(&mut partitions, unarmed(partition))?;
                }
            }
            part = next_part(part, parts);
        }
        Ok(Sites {
            alloc,
            sites,
            parts,
            partitions,
        })
    }
}

impl<C: Crdt, D: Disk + Drop> Sites<C, D> {
    /// The partitions, site by site, each with its disk.
    pub fn into_partitions(self) -> Vec<DurablePartition<C, D>>
        ensures { result.items ≡ self.partitions }
    {
        self.partitions
    }
}

/// The partition, with no fuse armed on its disk.
fn unarmed<C: Crdt, D: Disk + Drop>(
    partition: DurablePartition<C, Fused<D>>,
) -> DurablePartition<C, Fused<D>>
    ensures left { (disk_in (fused_state D.state) result).left ≡ None }
    ensures sound { (disk_in (fused_state D.state) result).sound ≡ (disk_in (fused_state D.state) partition).sound }
    ensures same { result.tables ≡ partition.tables }
    ensures stands { (p : PartState C.Effect) → StandsOn (codec_of C.spells) (fused_state D.state) partition p → StandsOn (codec_of C.spells) (fused_state D.state) result p }
{
    let mut partition = partition;
    // One that has fired is taken away, whatever was armed before.
    partition.arm(0, 0);
    partition.revive();
    partition
}

fn add<T: Drop>(list: &mut Vec<T>, one: T) -> Result<(), AllocError>
    ensures { OnOk result (list.new.items ≡ list.old.items ++ one ∷ []) }
{
    list.push(one)?;
    Ok(())
}

/// The place after this one, site by site.
fn next_part(at: PartId, parts: u8) -> PartId
    requires least_site { 1 ≤ at.site }
    requires most_site { at.site ≤ 8 }
    requires least_part { 1 ≤ at.part }
    requires most_part { at.part ≤ parts }
    requires most_parts { parts ≤ 16 }
    ensures index { index_of parts result ≡ index_of parts at + 1 }
    ensures least_site { 1 ≤ result.site }
    ensures least_part { 1 ≤ result.part }
    ensures most_part { result.part ≤ parts }
{
    if at.part < parts {
        return PartId {
            site: at.site,
            part: at.part + 1,
        };
    }
    PartId {
        site: at.site + 1,
        part: 1,
    }
}
