// How a partition on its disk comes up, and comes up again.
ghost use Rattle.std.specs.Prelude.{◌≡◌, ◌≢◌, ◌≤◌, ◌⊎◌, ℕ, List, [], false, None, Err, IsTrue, IfOk, IfErr, MatchResult};
ghost use Rattle.disk_core.specs.States.{GoesOn, Fails, bytes_of};
ghost use Rattle.gate_log.specs.Logs.{disk_of, is_closed, read_at_opening, IsReady};
ghost use Rattle.gate_log.specs.Payloads.{placed};
ghost use Rattle.gate_log.specs.Rest.{AtRest, Lowers};
ghost use Rattle.partition_log.specs.Codec.{codec_of};
ghost use Rattle.partition_log.specs.Gates.{gates_of};
ghost use Rattle.partition_log.specs.Damage.{AreRecords, IsDamaged, IsRefusedAt};
ghost use Rattle.partition_log.specs.Logs.{HasRecords, HoldsLog};
ghost use Rattle.crdt_core.specs.declared.record.Record.{Record};
ghost use Rattle.crdt_core.specs.Fitting.{unfit};
ghost use Rattle.crdt_core.specs.KindsOf.{kinds_of};
ghost use Rattle.log_recovery.specs.Recovered.{AreKnown};
ghost use Rattle.log_recovery.specs.Rising.{Rises};
ghost use Rattle.world_model.specs.rules.Partition.{new_part};
ghost use Rattle.partition_core.specs.Durable.{StandsOn, is_down};
ghost use Rattle.partition_core.specs.Recovered.{resumed};
ghost use Rattle.partition_core.specs.Stands.{Stands};
ghost use Rattle.partition_core.specs.Restarts.{RestartsOn, ComesUpOver, unopened, IsListed};
ghost use Rattle.partition_core.specs.Unfit.{IsUnfitAt};
ghost use Rattle.partition_core.specs.declared.restart.RestartError.TheVariants.{Disk as DiskFailed, Damaged as DamagedAt, NoMemory};

use crate::told::{read_again, told_by};
use crate::{DurablePartition, Partition};
use crdt_core::Crdt;
use disk_core::Disk;
use field_codec::ListOf;
use gate_log::OpenError;
use partition_log::PartLog;
use prepared_table::Entry;
use site_vector::{PartId, TxId, VTime};
use std::alloc::{AllocError, Global};
use thiserror::Error;

/// What a partition tells that comes up again. Times are in logical ticks.
#[derive(Drop)]
pub struct Restarted {
    /// What its clock shows: the ceiling of its last lease.
    pub now: u64,
    /// How far it has come with each site: of its own one its own bound.
    pub bounds: VTime,
    /// The last transaction that it decided.
    pub decided: Option<TxId>,
    /// What is pending, with prepare times, in the order of prepare time and then of transaction.
    pub pending: ListOf<(TxId, u64)>,
}

/// Why a partition doesn't come up again.
#[derive(Debug, Drop, Error)]
pub enum RestartError {
    /// The disk failed.
    #[error("the disk failed")]
    Disk,
    /// The disk holds no log that the partition may have written: it is damaged at this place, which for a record that
    /// isn't the partition's is the first byte of its payload.
    #[error("the log is damaged at {at}")]
    Damaged { at: u64 },
    /// Memory ran out.
    #[error("out of memory")]
    NoMemory,
}

impl From<AllocError> for RestartError {
    ghost from_gives = { λ e r. r ≡ NoMemory };

    fn from(_error: AllocError) -> RestartError {
        RestartError::NoMemory
    }
}

impl From<OpenError> for RestartError {
    ghost from_gives = { λ e r. r ≡ unopened e };

    fn from(error: OpenError) -> RestartError {
        match error {
            OpenError::Failed => RestartError::Disk,
            OpenError::Damaged { at } => RestartError::Damaged { at },
            OpenError::NoMemory => RestartError::NoMemory,
        }
    }
}

/// The tables that a log tells of, which was read at its opening.
///
/// # Errors
///
/// As `told_by`.
fn tables_of<C: Crdt, D: Disk + Drop>(
    alloc: Global,
    log: &PartLog<C, D>,
    id: PartId,
    sites: u8,
    parts: u8,
) -> Result<Partition<C>, RestartError>
    requires least_site { 1 ≤ id.site }
    requires most_site { id.site ≤ sites }
    requires most_sites { sites ≤ 8 }
    requires least_part { 1 ≤ id.part }
    requires most_part { id.part ≤ parts }
    requires most_parts { parts ≤ 16 }
    requires placed { (payloads : List (List ℕ)) × (read_at_opening (gates_of log.now) ≡ placed 8 payloads) }
    ensures place { IfOk result (λ t. (t.id ≡ id) × (t.sites ≡ sites) × (t.parts ≡ parts)) }
    ensures stands { IfOk result (λ t. (l : List (Record C.Effect)) × AreRecords (codec_of C.spells) (read_at_opening (gates_of log.now)) l
        × (unfit sites parts id l ≡ None) × ((b : List ℕ) × AreKnown sites id.site l b × (Rises l → Stands t (resumed sites parts b l)))) }
    ensures damaged { (at : ℕ) → result ≡ Err (DamagedAt at) → IsRefusedAt (codec_of C.spells) (read_at_opening (gates_of log.now)) at
        ⊎ ((l : List (Record C.Effect)) × AreRecords (codec_of C.spells) (read_at_opening (gates_of log.now)) l × IsUnfitAt (codec_of C.spells) sites parts id l at) }
    ensures reads { result ≢ Err DiskFailed }
{
    let told = told_by(alloc, log, id, sites, parts)?;
    let tables = Partition::recovered(alloc, id, sites, parts, told)?;
    Ok(tables)
}

/// A partition over a log that was read at its opening. An `Err` hands the disk back.
///
/// # Errors
///
/// As `told_by`.
fn wake<C: Crdt, D: Disk + Drop>(
    alloc: Global,
    log: PartLog<C, D>,
    id: PartId,
    sites: u8,
    parts: u8,
) -> Result<DurablePartition<C, D>, (D, RestartError)>
    requires least_site { 1 ≤ id.site }
    requires most_site { id.site ≤ sites }
    requires most_sites { sites ≤ 8 }
    requires least_part { 1 ≤ id.part }
    requires most_part { id.part ≤ parts }
    requires most_parts { parts ≤ 16 }
    requires placed { (payloads : List (List ℕ)) × (read_at_opening (gates_of log) ≡ placed 8 payloads) }
    requires ready { IsReady D.state (gates_of log) }
    requires open { is_closed (gates_of log) ≡ false }
    ensures place { IfOk result (λ p. (p.tables.id ≡ id) × (p.tables.sites ≡ sites) × (p.tables.parts ≡ parts)) }
    ensures up { IfOk result (λ p. is_down p ≡ false) }
    ensures has { IfOk result (λ p. (l : List (Record C.Effect)) → HasRecords (codec_of C.spells) D.state (gates_of log) l → HasRecords (codec_of C.spells) D.state p.gates l) }
    ensures stands { IfOk result (λ p. (l : List (Record C.Effect)) × AreRecords (codec_of C.spells) (read_at_opening (gates_of log)) l
        × (unfit sites parts id l ≡ None) × ((b : List ℕ) × AreKnown sites id.site l b × (HasRecords (codec_of C.spells) D.state (gates_of log) l → Rises l → StandsOn (codec_of C.spells) D.state p (resumed sites parts b l)))) }
    ensures damaged { IfErr result (λ e. (at : ℕ) → e.1 ≡ DamagedAt at → IsRefusedAt (codec_of C.spells) (read_at_opening (gates_of log)) at
        ⊎ ((l : List (Record C.Effect)) × AreRecords (codec_of C.spells) (read_at_opening (gates_of log)) l × IsUnfitAt (codec_of C.spells) sites parts id l at)) }
    ensures disk { MatchResult result (λ p. disk_of p.gates ≡ disk_of (gates_of log)) (λ e. (e.0 ≡ disk_of (gates_of log)) × (e.1 ≢ DiskFailed)) }
{
    let mut log = log;
    match tables_of(alloc, &log, id, sites, parts) {
        Err(error) => Err((log.close(), error)),
        Ok(tables) => {
            log.forget_read();
            Ok(DurablePartition {
                tables,
                log,
                crashed: false,
            })
        }
    }
}

/// The transactions of these entries, with their prepare times.
///
/// # Errors
///
/// `AllocError` where memory runs out.
fn list_pending<E>(alloc: Global, entries: &[Entry<E>]) -> Result<ListOf<(TxId, u64)>, AllocError>
    ensures { IfOk result (λ l. IsListed entries.now l) }
{
    let mut all = ListOf::new(alloc);
    for entry in entries {
        all.push((entry.tx, entry.time))?;
    }
    Ok(all)
}

impl<C: Crdt, D: Disk + Drop> DurablePartition<C, D> {
    /// The partition of this place whose log a disk holds, with what the log tells; one that holds nothing over a disk
    /// that is formatted. An `Err` hands the disk back.
    ///
    /// # Errors
    ///
    /// As `restart`.
    pub fn make(
        alloc: Global,
        id: PartId,
        sites: u8,
        parts: u8,
        disk: D,
    ) -> Result<DurablePartition<C, D>, (D, RestartError)>
        requires least_site { 1 ≤ id.site }
        requires most_site { id.site ≤ sites }
        requires most_sites { sites ≤ 8 }
        requires least_part { 1 ≤ id.part }
        requires most_part { id.part ≤ parts }
        requires most_parts { parts ≤ 16 }
        ensures place { IfOk result (λ p. (p.tables.id ≡ id) × (p.tables.sites ≡ sites) × (p.tables.parts ≡ parts)) }
        ensures up { IfOk result (λ p. is_down p ≡ false) }
        ensures stands { IfOk result (λ p. IsTrue (D.state disk).tells → (log : List (Record C.Effect)) → HoldsLog (codec_of C.spells) (bytes_of (D.state disk)) log → Rises log
            → (b : List ℕ) × AreKnown sites id.site log b × StandsOn (codec_of C.spells) D.state p (resumed sites parts b log)) }
        ensures read { IfOk result (λ p. IsTrue (D.state disk).tells → ComesUpOver (codec_of C.spells) D.state sites parts id (bytes_of (D.state disk)) p) }
        ensures new { IfOk result (λ p. (end : ℕ) → AtRest (D.state disk) end [] → StandsOn (codec_of C.spells) D.state p (new_part sites parts)) }
        ensures damaged { IfErr result (λ e. (at : ℕ) → e.1 ≡ DamagedAt at → IsTrue (D.state disk).tells → IsDamaged (codec_of C.spells) (bytes_of (D.state disk)) at
            ⊎ ((log : List (Record C.Effect)) × HoldsLog (codec_of C.spells) (bytes_of (D.state disk)) log × IsUnfitAt (codec_of C.spells) sites parts id log at)) }
        ensures goes_on { MatchResult result (λ p. GoesOn (D.state disk) (D.state (disk_of p.gates))) (λ e. GoesOn (D.state disk) (D.state e.0)) }
        ensures left { MatchResult result (λ p. Lowers 3 (D.state disk).left (D.state (disk_of p.gates)).left) (λ e. Lowers 3 (D.state disk).left (D.state e.0).left) }
        ensures failed { IfErr result (λ e. e.1 ≡ DiskFailed → Fails (D.state disk) (D.state e.0)) }
    {
        match PartLog::open(alloc, disk) {
            Err((disk, error)) => Err((disk, RestartError::from(error))),
            Ok(log) => wake(alloc, log, id, sites, parts),
        }
    }

    /// Comes up again, also where it is up: forgets all that it has in memory, and reads the log of its disk.
    ///
    /// # Errors
    ///
    /// `Disk` only where the disk fails; `Damaged` only where the disk holds no log that the partition may have
    /// written; `NoMemory` where memory runs out. It is down then, and every crash still leaves what it left.
    pub fn restart(&mut self, alloc: Global) -> Result<Restarted, RestartError>
        ensures { RestartsOn (kinds_of C.laws) (codec_of C.spells) D.state self.old self.new result }
    {
        self.crashed = true;
        let (id, sites, parts) = self.tables.place();
        self.tables = Partition::make(alloc, id, sites, parts);
        let told = read_again(alloc, &mut self.log, id, sites, parts)?;
        let (now, bounds, decided) = (told.ceiling, told.bounds, told.last_decided);
        let tables = Partition::recovered(alloc, id, sites, parts, told)?;
        let pending = list_pending(alloc, tables.pending())?;
        self.tables = tables;
        self.crashed = false;
        Ok(Restarted {
            now,
            bounds,
            decided,
            pending,
        })
    }
}
