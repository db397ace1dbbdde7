ghost use Rattle.std.specs.Prelude.{◌≡◌, ⊤};
ghost use Rattle.crdt_core.specs.KindsOf.{kinds_of};
ghost use Rattle.world_model.specs.lines.Places.{IsOther};
ghost use Rattle.world_model.specs.rules.Event.{AskMessage, AskTake, AskReport, AskHear, Sent, Took, Reported, Heard};
ghost use Rattle.partition_core.specs.Steps.{Anything};
ghost use Rattle.site_partitions.specs.Reaches.{types_of};
ghost use Rattle.partition_lock.specs.Doing as doing;

use crate::form::PartitionCall;
use crdt_core::{Crdt, Message};
use disk_core::Disk;
use partition_core::{DurableError, DurablePartition};
use site_vector::VTime;
use std::alloc::Global;

/// Hands on a message that was sent, as the one with this number among its sender's.
#[derive(Drop)]
pub(crate) struct Take<'a, E> {
    pub(crate) number: u64,
    pub(crate) message: &'a Message<E>,
}

impl<'a, C: Crdt, D: Disk + Drop> PartitionCall<C, D> for Take<'a, C::Effect> {
    type Out = ();

    ghost ask = { λ call. AskTake call.number call.message.now };

    ghost fit = { λ call. ⊤ };

    ghost given = { λ call run. ⊤ };

    ghost premise = { λ call. Anything };

    ghost shows = { λ call n e. e ≡ Took call.number call.message.now };

    fn make(
        &self,
        alloc: Global,
        partition: &mut DurablePartition<C, D>,
    ) -> Result<(), DurableError> {
        partition.take(alloc, self.message)
    }

    ghost plain = { λ call. doing.plain };

    ghost knows = { λ call sites parts at run state r m. doing.nothing };

    ghost fits = { λ call f why. doing.nothing };

    ghost done = { λ call sites parts at n run m given e h. doing.took (types_of C.laws C.spells D.state) run call.number call.message.now e h };
}

/// Asks a partition for its bounds: how far it has come with each site.
#[derive(Drop)]
pub(crate) struct Report;

impl<C: Crdt, D: Disk + Drop> PartitionCall<C, D> for Report {
    type Out = VTime;

    ghost ask = { λ call. AskReport };

    ghost fit = { λ call. ⊤ };

    ghost given = { λ call run. ⊤ };

    ghost premise = { λ call. Anything };

    ghost shows = { λ call b e. e ≡ Reported b };

    fn make(
        &self,
        alloc: Global,
        partition: &mut DurablePartition<C, D>,
    ) -> Result<VTime, DurableError> {
        partition.report()
    }

    ghost plain = { λ call. doing.plain };

    ghost knows = { λ call sites parts at run state r m. doing.nothing };

    ghost fits = { λ call f why. doing.nothing };

    ghost done = { λ call sites parts at b run m given e h. doing.reported (types_of C.laws C.spells D.state) run b e h };
}

/// Hands on a report of the partition `part` of the site, as the one with this number among its maker's. Answers how far all
/// partitions of the site have come with each site, as this one knows.
#[derive(Drop)]
pub(crate) struct Hear<'a> {
    pub(crate) number: u64,
    pub(crate) part: u8,
    pub(crate) bounds: &'a VTime,
}

impl<'a, C: Crdt, D: Disk + Drop> PartitionCall<C, D> for Hear<'a> {
    type Out = VTime;

    ghost ask = { λ call. AskHear call.number call.part call.bounds.now };

    ghost fit = { λ call. ⊤ };

    ghost given = { λ call run. ⊤ };

    ghost premise = { λ call. Anything };

    ghost shows = { λ call stable e. e ≡ Heard call.number call.part call.bounds.now stable };

    fn make(
        &self,
        alloc: Global,
        partition: &mut DurablePartition<C, D>,
    ) -> Result<VTime, DurableError> {
        partition.hear(self.part, self.bounds)
    }

    ghost plain = { λ call. doing.plain };

    ghost knows = { λ call sites parts at run state r m. doing.nothing };

    ghost fits = { λ call f why. doing.nothing };

    ghost done = { λ call sites parts at stable run m given e h. doing.heard (types_of C.laws C.spells D.state) run call.number call.part call.bounds.now stable e h };
}
