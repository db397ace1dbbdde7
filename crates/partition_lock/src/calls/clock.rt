ghost use Rattle.std.specs.Prelude.{◌≡◌, ◌≤◌, ⊤};
ghost use Rattle.crdt_core.specs.KindsOf.{kinds_of};
ghost use Rattle.crdt_core.specs.Log.{end_of_time};
ghost use Rattle.world_model.specs.lines.Lines.{wish_of};
ghost use Rattle.world_model.specs.rules.Event.{AskTick, AskBegin, Ticked, Began};
ghost use Rattle.partition_core.specs.Steps.{Anything};
ghost use Rattle.site_partitions.specs.Reaches.{types_of};
ghost use Rattle.partition_lock.specs.Doing as doing;

use crate::form::PartitionCall;
use crdt_core::Crdt;
use disk_core::Disk;
use field_codec::Text;
use partition_core::{DurableError, DurablePartition};
use site_vector::{TxId, VTime};
use std::alloc::Global;
use world_model::Mode;

/// The clock reads a time, at most 2^62. Answers what it shows.
#[derive(Drop)]
pub(crate) struct Tick {
    pub(crate) clock_time: u64,
}

impl<C: Crdt, D: Disk + Drop> PartitionCall<C, D> for Tick {
    type Out = u64;

    ghost ask = { λ call. AskTick call.clock_time };

    ghost fit = { λ call. call.clock_time ≤ end_of_time };

    ghost given = { λ call run. ⊤ };

    ghost premise = { λ call. Anything };

    ghost shows = { λ call n e. e ≡ Ticked call.clock_time n };

    fn make(
        &self,
        alloc: Global,
        partition: &mut DurablePartition<C, D>,
    ) -> Result<u64, DurableError> {
        partition.tick(self.clock_time)
    }

    ghost plain = { λ call. doing.plain };

    ghost knows = { λ call sites parts at run state r m. doing.nothing };

    ghost fits = { λ call f why. doing.nothing };

    ghost done = { λ call sites parts at n run m given e h. doing.ticked (types_of C.laws C.spells D.state) run call.clock_time n e h };
}

/// Begins a transaction of a session that depends on these times. Answers its id and its snapshot.
#[derive(Drop)]
pub(crate) struct Begin<'a> {
    pub(crate) who: &'a Text,
    pub(crate) dependency: &'a VTime,
    pub(crate) mode: Mode,
}

impl<'a, C: Crdt, D: Disk + Drop> PartitionCall<C, D> for Begin<'a> {
    type Out = (TxId, VTime);

    ghost ask = { λ call. AskBegin call.who.now (wish_of call.dependency.now call.mode) };

    ghost fit = { λ call. ⊤ };

    ghost given = { λ call run. ⊤ };

    ghost premise = { λ call. Anything };

    ghost shows = { λ call x e. e ≡ Began call.who.now (wish_of call.dependency.now call.mode) x.0 x.1 };

    fn make(
        &self,
        alloc: Global,
        partition: &mut DurablePartition<C, D>,
    ) -> Result<(TxId, VTime), DurableError> {
        partition.begin(self.dependency, self.mode)
    }

    ghost plain = { λ call. doing.plain };

    ghost knows = { λ call sites parts at run state r m. doing.nothing };

    ghost fits = { λ call f why. doing.nothing };

    ghost done = { λ call sites parts at x run m given e h. doing.began (types_of C.laws C.spells D.state) run call.who.now (wish_of call.dependency.now call.mode) x.0 x.1 e h };
}
