ghost use Rattle.std.specs.Prelude.{◌≡◌, ◌≤◌, ◌+◌, List, true, ⊤};
ghost use Rattle.crdt_core.specs.declared.record.Part.{Part};
ghost use Rattle.crdt_core.specs.KindsOf.{fits_kind, kinds_of};
ghost use Rattle.world_model.specs.rules.Event.{AskRead, AskUpdate, Updated};
ghost use Rattle.world_model.specs.rules.Event as event;
ghost use Rattle.world_model.specs.rules.Plan.{update_count};
ghost use Rattle.partition_core.specs.Steps.{Anything};
ghost use Rattle.site_partitions.specs.Reaches.{types_of};
ghost use Rattle.partition_lock.specs.Doing as doing;

use crate::form::PartitionCall;
use crdt_core::{Crdt, ObjectId, Op, Upd, Value};
use disk_core::Disk;
use partition_core::{DurableError, DurablePartition};
use site_vector::{TxId, VTime};
use std::alloc::Global;

/// Reads an object under a snapshot, with the transaction's own earlier updates of it. Answers what it shows.
#[derive(Drop)]
pub(crate) struct Read<'a, E> {
    pub(crate) tx: TxId,
    pub(crate) s: &'a VTime,
    pub(crate) object: &'a ObjectId,
    pub(crate) own: &'a [Upd<E>],
}

impl<'a, C: Crdt, D: Disk + Drop> PartitionCall<C, D> for Read<'a, C::Effect> {
    type Out = Value;

    ghost ask = { λ call. AskRead call.tx call.s.now call.object.now call.own.now };

    ghost fit = { λ call. C.has call.object.now.kind ≡ true };

    ghost given = { λ call run. ⊤ };

    ghost premise = { λ call. Anything };

    ghost shows = { λ call v e. (read : List (Part C.Effect)) × (e ≡ event.Read call.tx call.s.now call.object.now call.own.now read v) };

    fn make(
        &self,
        alloc: Global,
        partition: &mut DurablePartition<C, D>,
    ) -> Result<Value, DurableError> {
        partition.read(alloc, self.tx, self.s, self.object, self.own)
    }

    ghost plain = { λ call. doing.plain };

    ghost knows = { λ call sites parts at run state r m. doing.nothing };

    ghost fits = { λ call f why. doing.nothing };

    ghost done = { λ call sites parts at v run m given e h. doing.read_event (types_of C.laws C.spells D.state) run call.tx call.s.now call.object.now call.own.now h.0 v e h.1 };
}

/// Makes the effect of an operation that fits the object's kind, as the transaction's update with this number, from 1 to
/// 256. Answers the effect, and its stamp if its kind has stamps.
#[derive(Drop)]
pub(crate) struct Update<'a, E> {
    pub(crate) tx: TxId,
    pub(crate) s: &'a VTime,
    pub(crate) object: &'a ObjectId,
    pub(crate) own: &'a [Upd<E>],
    pub(crate) op: &'a Op,
    pub(crate) index: u16,
}

impl<'a, C: Crdt, D: Disk + Drop> PartitionCall<C, D> for Update<'a, C::Effect> {
    type Out = (C::Effect, Option<u64>);

    ghost ask = { λ call. AskUpdate call.tx call.s.now call.object.now call.own.now call.op.now };

    ghost fit = { λ call. (C.has call.object.now.kind ≡ true) × (fits_kind C.too_deep call.object.now call.op.now ≡ true) × (1 ≤ call.index) × (call.index ≤ 256) };

    ghost given = { λ call run. call.index ≡ update_count run call.tx + 1 };

    ghost premise = { λ call. Anything };

    ghost shows = { λ call x e. (read : List (Part C.Effect)) × (e ≡ Updated call.tx call.s.now call.object.now call.own.now call.op.now read (record { object = call.object.now; index = call.index; effect = x.0 }) x.1) };

    fn make(
        &self,
        alloc: Global,
        partition: &mut DurablePartition<C, D>,
    ) -> Result<(C::Effect, Option<u64>), DurableError> {
        partition.update_fitting(alloc, self.tx, self.s, self.object, self.own, self.op)
    }

    ghost plain = { λ call. doing.plain };

    ghost knows = { λ call sites parts at run state r m. doing.nothing };

    ghost fits = { λ call f why. f.1 };

    ghost done = { λ call sites parts at x run m given e h. doing.updated (types_of C.laws C.spells D.state) run call.tx call.s.now call.object.now call.own.now call.op.now h.0 (record { object = call.object.now; index = call.index; effect = x.0 }) x.1 m.1 given e h.1 };
}
