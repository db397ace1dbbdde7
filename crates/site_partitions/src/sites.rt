ghost use Rattle.std.specs.Prelude.{◌≡◌, ◌<◌, ◌≤◌, ◌*◌};
ghost use Rattle.world_model.specs.lines.Places.{IsPlace};
ghost use Rattle.site_partitions.specs.Held.{index_of, holds_site, holds_part, IsDownAt};
ghost use Rattle.site_partitions.specs.Starved.{IsStarvedAt};

use crdt_core::Crdt;
use disk_core::Disk;
use partition_core::DurablePartition;
use site_vector::PartId;
use std::alloc::Global;
use std::marker::Model;

/// The partitions of a cluster: 1 to 8 sites of 1 to 16 partitions each, each on its own disk.
///
/// Contracts see all partitions (`Held`), and say of each call that whatever run of the world the cluster had reached
/// (`Reaches`), in which the call may be asked, goes on by the event that the answer shows (`GoesOn`).
#[derive(Drop)]
pub struct Sites<C: Crdt, D: Disk + Drop> {
    pub(crate) alloc: Global,
    pub(crate) sites: u8,
    pub(crate) parts: u8,
    /// Site by site.
    pub(crate) partitions: Vec<DurablePartition<C, D>>,
}

impl<C: Crdt, D: Disk + Drop> Model for Sites<C, D> {
    ghost use Rattle.std.specs.Prelude.{length};
    ghost use Rattle.site_partitions.specs.Held.{Held, IsSized};

    ghost Value = { Held C.Effect D };

    ghost view = { λ s. record { sites = s.sites; parts = s.parts; partitions = s.partitions.items } };

    ghost invariant = { λ s. IsSized s.sites s.parts (length s.partitions.items) };
}

impl<C: Crdt, D: Disk + Drop> Sites<C, D> {
    ghost use Rattle.std.specs.Prelude.{length, not};
    ghost use Rattle.site_partitions.specs.Fates.{OfState};
    ghost use Rattle.site_partitions.specs.Held.{IsSized};
    ghost use Rattle.site_partitions.specs.Reaches.{types_of};

    /// The number of sites, from 1 to 8.
    pub fn sites(&self) -> u8
        ensures is { result ≡ self.now.sites }
        ensures least { 1 ≤ result }
        ensures most { result ≤ 8 }
    {
        self.sites
    }

    /// The number of partitions of each site, from 1 to 16.
    pub fn parts(&self) -> u8
        ensures is { result ≡ self.now.parts }
        ensures least { 1 ≤ result }
        ensures most { result ≤ 16 }
        ensures sized { IsSized self.now.sites self.now.parts (length self.now.partitions) }
    {
        self.parts
    }

    pub fn has_site(&self, site: u8) -> bool
        ensures { result ≡ holds_site self.now site }
    {
        1 <= site && site <= self.sites
    }

    pub fn has_part(&self, part: PartId) -> bool
        ensures { result ≡ holds_part self.now part }
    {
        self.has_site(part.site) && 1 <= part.part && part.part <= self.parts
    }

    /// Whether a partition crashed, or its disk failed, and it was not restarted since.
    pub fn is_down_at(&self, at: PartId) -> bool
        requires { IsPlace self.now.sites self.now.parts at }
        ensures down { IsDownAt self.now at result }
        ensures up { OfState (types_of C.laws C.spells D.state) self.now at (λ p. p.up ≡ not result) }
    {
        let i = index_of(at, self.sites, self.parts);
        self.partitions[i].is_down()
    }

    /// Whether a call of a partition's disk failed because it found no memory to grow.
    pub fn starved_at(&self, at: PartId) -> bool
        requires { IsPlace self.now.sites self.now.parts at }
        ensures { IsStarvedAt D.state self.now at result }
    {
        let i = index_of(at, self.sites, self.parts);
        self.partitions[i].starved()
    }
}

/// Where the partition at a place stands in the list.
pub(crate) fn index_of(at: PartId, sites: u8, parts: u8) -> usize
    requires place { IsPlace sites parts at }
    ensures index { result ≡ index_of parts at }
    ensures below { result < sites * parts }
{
    (at.site as usize - 1) * parts as usize + (at.part as usize - 1)
}
