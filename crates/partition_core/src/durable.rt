ghost use Rattle.std.specs.Prelude.{◌≡◌, ◌≤◌, ◌||◌, true};
ghost use Rattle.site_vector.specs.Vector.{entry};
ghost use Rattle.crdt_core.specs.KindsOf.{kinds_of};
ghost use Rattle.gate_log.specs.Logs.{is_closed, disk_of};
ghost use Rattle.gate_log.specs.declared.error.AppendError.{AppendError};
ghost use Rattle.gate_log.specs.declared.error.AppendError.TheVariants as append;
ghost use Rattle.prepared_table.specs.Entries.{first_on};
ghost use Rattle.partition_log.specs.Codec.{codec_of};
ghost use Rattle.partition_core.specs.Durable.{is_down};
ghost use Rattle.partition_core.specs.Moments.{Crashes};
ghost use Rattle.partition_core.specs.Stopped.{stopped, uncalled};
ghost use Rattle.partition_core.specs.Tables.{knows};
ghost use Rattle.partition_core.specs.declared.durable.DurableError.TheVariants.{NoMemory, Refused};

use crate::{CallError, Partition, Refusal};
use crdt_core::{Crdt, ObjectId};
use disk_core::{Disk, Fused};
use gate_log::AppendError;
use partition_log::PartLog;
use prepared_table::Entry;
use site_vector::{PartId, TxId};
use std::alloc::AllocError;
use std::marker::Model;
use std::mem::forget;
use thiserror::Error;

/// Why a partition on its disk doesn't answer a call.
#[derive(Debug, Drop, Error)]
pub enum DurableError {
    /// It crashed, or its disk failed, and it was not restarted since. It is as before.
    #[error("the partition is down")]
    Down,
    /// The disk failed in this call: the partition is down, and its log has a front of the call's records.
    #[error("the disk failed")]
    Disk,
    /// The records of the call would together pass the room of the disk, in bytes. The partition is as before.
    #[error("the log would pass its room of {room} bytes")]
    Full { room: u64 },
    /// Memory ran out. The partition is as before.
    #[error("out of memory")]
    NoMemory,
    /// It is refused. The partition is as before.
    #[error("{0}")]
    Refused(Refusal),
}

impl From<AllocError> for DurableError {
    ghost from_gives = { λ e r. r ≡ NoMemory };

    fn from(_error: AllocError) -> DurableError {
        DurableError::NoMemory
    }
}

impl From<Refusal> for DurableError {
    ghost from_gives = { λ why r. r ≡ Refused why };

    fn from(why: Refusal) -> DurableError {
        DurableError::Refused(why)
    }
}

impl From<CallError> for DurableError {
    ghost from_gives = { λ e r. r ≡ uncalled e };

    fn from(error: CallError) -> DurableError {
        match error {
            CallError::NoMemory => DurableError::NoMemory,
            CallError::Refused(why) => DurableError::Refused(why),
        }
    }
}

impl From<AppendError> for DurableError {
    ghost from_gives = { λ e r. r ≡ stopped e };

    fn from(error: AppendError) -> DurableError {
        match error {
            AppendError::Failed => DurableError::Disk,
            AppendError::Full { room } => DurableError::Full { room },
            AppendError::Closed => DurableError::Down,
            AppendError::NoMemory => DurableError::NoMemory,
        }
    }
}

/// A partition with its log on a disk. It keeps in memory what the log tells (`Partition`), and each record that a call
/// adds is durable before the call answers.
///
/// Contracts say of each call that whatever state of a partition it stood for (`StandsOn`) took a step of the world's
/// step relation, which the answer shows; and that at each moment of the call every crash leaves on the disk what a
/// restart may find after it (`StepsOn`).
#[derive(Drop)]
pub struct DurablePartition<C: Crdt, D: Disk + Drop> {
    pub(crate) tables: Partition<C>,
    pub(crate) log: PartLog<C, D>,
    /// It was told to crash.
    pub(crate) crashed: bool,
}

impl<C: Crdt, D: Disk + Drop> Model for DurablePartition<C, D> {
    ghost use Rattle.gate_log.specs.Logs.{IsReady};
    ghost use Rattle.partition_log.specs.Gates.{gates_of};
    ghost use Rattle.partition_core.specs.Durable.{Durable};

    ghost Value = { Durable C.Effect D };

    ghost view = { λ p. record { tables = p.tables; gates = gates_of p.log; crashed = p.crashed } };

    ghost invariant = { λ p. IsReady D.state (gates_of p.log) };
}

impl<C: Crdt, D: Disk + Drop> DurablePartition<C, D> {
    /// The time that its clock shows.
    pub fn now(&self) -> u64
        ensures { result ≡ self.now.tables.clock }
    {
        self.tables.now()
    }

    /// The pending transactions, in the order of prepare time and then of transaction.
    pub fn pending(&self) -> &[Entry<C::Effect>]
        ensures { result.now ≡ self.now.tables.pending }
    {
        self.tables.pending()
    }

    /// The first pending transaction, in order, that changes the object and is prepared by `upto`: its id and its
    /// prepare time.
    pub fn pending_on(&self, object: &ObjectId, upto: u64) -> Option<(TxId, u64)>
        ensures { result ≡ first_on object.now upto self.now.tables.pending }
    {
        self.tables.pending_on(object, upto)
    }

    /// Whether a transaction is pending or held here, as it knows in memory.
    pub fn knows(&self, tx: TxId) -> bool
        ensures { result ≡ knows self.now.tables tx }
    {
        self.tables.knows(tx)
    }

    /// Up to where the messages of a site were taken.
    pub fn bound(&self, site: u8) -> u64
        requires least { 1 ≤ site }
        requires most { site ≤ self.now.tables.sites }
        ensures { result ≡ entry self.now.tables.bounds site }
    {
        self.tables.bound(site)
    }

    /// Whether it crashed, or its disk failed, and it was not restarted since.
    pub fn is_down(&self) -> bool
        ensures { result ≡ is_down self.now }
    {
        self.crashed || self.log.is_closed()
    }

    /// Whether a call of the disk failed because it found no memory to grow.
    pub fn starved(&self) -> bool
        ensures { result ≡ (D.state (disk_of self.now.gates)).starved }
    {
        self.log.starved()
    }

    /// Stops it, also where it is down already: what it keeps in memory is lost, and every call but a restart answers
    /// `Down` from then on. Its disk isn't touched.
    pub fn crash(&mut self)
        ensures down { is_down self.new ≡ true }
        ensures steps { Crashes (kinds_of C.laws) (codec_of C.spells) D.state self.old self.new }
    {
        self.crashed = true;
    }

    /// The disk, with the log as it is.
    pub fn into_disk(self) -> D
        ensures { result ≡ disk_of self.gates }
    {
        self.log.close()
    }

    /// The disk, with the log as it is. What memory the tables have is never given back, as by `Vec::leak`: for a process
    /// that ends, and whose memory the system takes back at once.
    pub fn leak_into_disk(self) -> D
        ensures { result ≡ disk_of self.gates }
    {
        forget(self.tables);
        self.log.close()
    }
}

impl<C: Crdt, D: Disk + Drop> DurablePartition<C, Fused<D>> {
    ghost use Rattle.std.specs.Prelude.{Some, None, ◌≢◌};
    ghost use Rattle.disk_core.specs.Fuses.{fused_state, calls_left, cut_length};
    ghost use Rattle.partition_log.specs.Codec.{codec_of};
    ghost use Rattle.world_model.specs.rules.Partition.{PartState};
    ghost use Rattle.partition_core.specs.Durable.{StandsOn, disk_in};

    /// Arms the fuse of the disk, also where the partition is down: of its calls from now on the one with this number,
    /// from 1, fails, and all later ones. Where it writes, at most the first `keep` bytes are written.
    pub fn arm(&mut self, k: u64, keep: u64)
        ensures keep { cut_length (disk_of self.new.gates) ≡ keep }
        ensures armed { disk_in (fused_state D.state) self.new ≡ record (disk_in (fused_state D.state) self.old) { left = Some k; keep = keep } }
        ensures same { (self.new.tables ≡ self.old.tables) × (is_down self.new ≡ is_down self.old) }
        ensures stands { (p : PartState C.Effect) → StandsOn (codec_of C.spells) (fused_state D.state) self.old p → StandsOn (codec_of C.spells) (fused_state D.state) self.new p }
    {
        self.log.arm(k, keep);
    }

    /// Takes the fuse of the disk away where it has fired, also where the partition is down.
    pub fn revive(&mut self)
        ensures fired { calls_left (disk_of self.old.gates) ≡ Some 0 → disk_in (fused_state D.state) self.new ≡ record (disk_in (fused_state D.state) self.old) { left = None } }
        ensures burning { calls_left (disk_of self.old.gates) ≢ Some 0 → self.new ≡ self.old }
        ensures same { (self.new.tables ≡ self.old.tables) × (is_down self.new ≡ is_down self.old) }
        ensures stands { (p : PartState C.Effect) → StandsOn (codec_of C.spells) (fused_state D.state) self.old p → StandsOn (codec_of C.spells) (fused_state D.state) self.new p }
    {
        self.log.revive();
    }
}
