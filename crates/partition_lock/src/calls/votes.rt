ghost use Rattle.std.specs.Prelude.{◌≡◌, true, ⊤};
ghost use Rattle.crdt_core.specs.KindsOf.{kinds_of};
ghost use Rattle.world_model.specs.rules.Event.{led_by, AskPrepare, AskDecide, AskFinish, AskAbort, Prepared, Decided, Finished, Aborted};
ghost use Rattle.partition_core.specs.Steps.{Anything, NamesNowhere};
ghost use Rattle.site_partitions.specs.Reaches.{types_of};
ghost use Rattle.site_partitions.proofs.Asking.{never_named};
ghost use Rattle.partition_lock.specs.Doing as doing;

use crate::form::PartitionCall;
use crdt_core::{Crdt, UpdateList};
use disk_core::Disk;
use partition_core::{DurableError, DurablePartition};
use site_vector::{TxId, VTime};
use std::alloc::Global;

/// Asks for a vote: a transaction's updates here, and the number of its lead. Answers the prepare time.
#[derive(Drop)]
pub(crate) struct Prepare<'a, E> {
    pub(crate) tx: TxId,
    pub(crate) s: &'a VTime,
    pub(crate) lead: u8,
    pub(crate) updates: &'a UpdateList<E>,
}

impl<'a, C: Crdt, D: Disk + Drop> PartitionCall<C, D> for Prepare<'a, C::Effect> {
    type Out = u64;

    ghost ask = { λ call. AskPrepare call.tx call.s.now (led_by call.lead) call.updates.now };

    ghost fit = { λ call. ⊤ };

    ghost given = { λ call run. ⊤ };

    ghost premise = { λ call. NamesNowhere call.tx };

    ghost shows = { λ call n e. e ≡ Prepared call.tx call.s.now (led_by call.lead) call.updates.now n };

    fn make(
        &self,
        alloc: Global,
        partition: &mut DurablePartition<C, D>,
    ) -> Result<u64, DurableError> {
        partition.prepare(alloc, self.tx, self.s, self.lead, self.updates)
    }

    ghost plain = { λ call. doing.plain };

    ghost knows = { λ call sites parts at run state r m. never_named (kinds_of C.laws) sites parts at run state r call.tx call.s.now (led_by call.lead) call.updates.now m };

    ghost fits = { λ call f why. doing.nothing };

    ghost done = { λ call sites parts at n run m given e h. doing.prepared (types_of C.laws C.spells D.state) run call.tx call.s.now (led_by call.lead) call.updates.now n e h };
}

/// Asks the lead to decide, with the commit vector.
#[derive(Drop)]
pub(crate) struct Decide<'a> {
    pub(crate) tx: TxId,
    pub(crate) c: &'a VTime,
}

impl<'a, C: Crdt, D: Disk + Drop> PartitionCall<C, D> for Decide<'a> {
    type Out = ();

    ghost ask = { λ call. AskDecide call.tx call.c.now };

    ghost fit = { λ call. ⊤ };

    ghost given = { λ call run. ⊤ };

    ghost premise = { λ call. Anything };

    ghost shows = { λ call n e. e ≡ Decided call.tx call.c.now };

    fn make(
        &self,
        alloc: Global,
        partition: &mut DurablePartition<C, D>,
    ) -> Result<(), DurableError> {
        partition.decide(self.tx, self.c)
    }

    ghost plain = { λ call. doing.plain };

    ghost knows = { λ call sites parts at run state r m. doing.nothing };

    ghost fits = { λ call f why. doing.nothing };

    ghost done = { λ call sites parts at n run m given e h. doing.decided (types_of C.laws C.spells D.state) run call.tx call.c.now e h };
}

/// Asks a participant to finish a decided transaction, with its commit vector.
#[derive(Drop)]
pub(crate) struct Finish<'a> {
    pub(crate) tx: TxId,
    pub(crate) c: &'a VTime,
}

impl<'a, C: Crdt, D: Disk + Drop> PartitionCall<C, D> for Finish<'a> {
    type Out = ();

    ghost ask = { λ call. AskFinish call.tx call.c.now };

    ghost fit = { λ call. ⊤ };

    ghost given = { λ call run. ⊤ };

    ghost premise = { λ call. Anything };

    ghost shows = { λ call n e. e ≡ Finished call.tx call.c.now };

    fn make(
        &self,
        alloc: Global,
        partition: &mut DurablePartition<C, D>,
    ) -> Result<(), DurableError> {
        partition.finish(self.tx, self.c)
    }

    ghost plain = { λ call. doing.plain };

    ghost knows = { λ call sites parts at run state r m. doing.nothing };

    ghost fits = { λ call f why. doing.nothing };

    ghost done = { λ call sites parts at n run m given e h. doing.finished (types_of C.laws C.spells D.state) run call.tx call.c.now e h };
}

/// Asks to abort, on the word of the transaction's session.
#[derive(Drop)]
pub(crate) struct AbortOwn {
    pub(crate) tx: TxId,
}

impl<C: Crdt, D: Disk + Drop> PartitionCall<C, D> for AbortOwn {
    type Out = ();

    ghost ask = { λ call. AskAbort call.tx };

    ghost fit = { λ call. ⊤ };

    ghost given = { λ call run. ⊤ };

    ghost premise = { λ call. Anything };

    ghost shows = { λ call n e. e ≡ Aborted call.tx true };

    fn make(
        &self,
        alloc: Global,
        partition: &mut DurablePartition<C, D>,
    ) -> Result<(), DurableError> {
        partition.abort(self.tx)
    }

    ghost plain = { λ call. doing.plain };

    ghost knows = { λ call sites parts at run state r m. doing.nothing };

    ghost fits = { λ call f why. doing.nothing };

    ghost done = { λ call sites parts at n run m given e h. doing.aborted (types_of C.laws C.spells D.state) run call.tx e h };
}
