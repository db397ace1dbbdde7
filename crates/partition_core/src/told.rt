// What a log that is read again tells a partition.
ghost use Rattle.std.specs.Prelude.{◌≡◌, ◌≢◌, ◌≤◌, ◌⊎◌, ℕ, List, false, Some, Err, IfOk, OnOk};
ghost use Rattle.disk_core.specs.Moments.{AtEachMoment};
ghost use Rattle.disk_core.specs.States.{GoesOn, Fails};
ghost use Rattle.gate_log.specs.Logs.{disk_of, is_closed, read_at_opening, IsReady};
ghost use Rattle.gate_log.specs.Payloads.{placed};
ghost use Rattle.gate_log.specs.Rest.{Lowers};
ghost use Rattle.crdt_core.specs.declared.record.Record.{Record};
ghost use Rattle.crdt_core.specs.Log.{MayFind};
ghost use Rattle.log_recovery.specs.Told.{IsToldBy};
ghost use Rattle.partition_log.specs.Codec.{codec_of};
ghost use Rattle.partition_log.specs.Damage.{AreRecords, IsRefusedAt};
ghost use Rattle.partition_log.specs.Gates.{gates_of};
ghost use Rattle.partition_log.specs.Logs.{HasRecords, HoldsFront, LeavesFront};
ghost use Rattle.partition_core.specs.Unfit.{IsUnfitAt};
ghost use Rattle.partition_core.specs.declared.restart.RestartError.TheVariants.{Disk as DiskFailed, Damaged as DamagedAt};

use crate::RestartError;
use crdt_core::Crdt;
use disk_core::Disk;
use log_recovery::{Rebuilt, Recovery};
use partition_log::{PartLog, record_at};
use site_vector::PartId;
use std::alloc::Global;

/// Where a log is damaged whose record at a place doesn't fit: a payload that is no record comes before it.
fn damage_of<C: Crdt, D: Disk + Drop>(
    alloc: Global,
    log: &PartLog<C, D>,
    place: u64,
) -> RestartError
    ensures damaged { (at : ℕ) → result ≡ DamagedAt at → IsRefusedAt (codec_of C.spells) (read_at_opening (gates_of log.now)) at
        ⊎ ((at ≡ place) × ((l : List (Record C.Effect)) × AreRecords (codec_of C.spells) (read_at_opening (gates_of log.now)) l)) }
    ensures reads { result ≢ DiskFailed }
{
    match log.check(alloc) {
        Ok(()) => RestartError::Damaged { at: place },
        Err(error) => RestartError::from(error),
    }
}

/// What a log tells a partition that was read at its opening. Once its last lease is found, each record is read, tested
/// and counted before the next one is looked at.
///
/// # Errors
///
/// `Damaged` exactly where a payload is no record, or else a record doesn't fit the partition, with the place of the
/// first; `NoMemory` where memory runs out.
pub(crate) fn told_by<C: Crdt, D: Disk + Drop>(
    alloc: Global,
    log: &PartLog<C, D>,
    id: PartId,
    sites: u8,
    parts: u8,
) -> Result<Rebuilt<C::Effect>, RestartError>
    requires least { 1 ≤ sites }
    requires most { sites ≤ 8 }
    requires first { 1 ≤ id.site }
    requires last { id.site ≤ sites }
    requires some { 1 ≤ parts }
    requires placed { (payloads : List (List ℕ)) × (read_at_opening (gates_of log.now) ≡ placed 8 payloads) }
    ensures told { IfOk result (λ told. (l : List (Record C.Effect)) × AreRecords (codec_of C.spells) (read_at_opening (gates_of log.now)) l × IsToldBy sites parts id l told) }
    ensures damaged { (at : ℕ) → result ≡ Err (DamagedAt at) → IsRefusedAt (codec_of C.spells) (read_at_opening (gates_of log.now)) at
        ⊎ ((l : List (Record C.Effect)) × AreRecords (codec_of C.spells) (read_at_opening (gates_of log.now)) l × IsUnfitAt (codec_of C.spells) sites parts id l at) }
    ensures reads { result ≢ Err DiskFailed }
{
    let top = log.last_ceiling();
    let mut recovery = Recovery::new(alloc, id, sites, parts, top);
    for (place, payload) in log.payloads() {
        let record = record_at::<C>(alloc, place, payload)?;
        if !recovery.read(record)? {
            return Err(damage_of(alloc, log, place));
        }
    }
    Ok(recovery.finish(alloc)?)
}

/// What the log of a disk tells a partition, read again.
///
/// # Errors
///
/// `Disk` where the disk fails; else as `told_by`.
pub(crate) fn read_again<C: Crdt, D: Disk + Drop>(
    alloc: Global,
    log: &mut PartLog<C, D>,
    id: PartId,
    sites: u8,
    parts: u8,
) -> Result<Rebuilt<C::Effect>, RestartError>
    requires least { 1 ≤ sites }
    requires most { sites ≤ 8 }
    requires first { 1 ≤ id.site }
    requires last { id.site ≤ sites }
    requires some { 1 ≤ parts }
    ensures found { IfOk result (λ told. (found : List (Record C.Effect)) × IsToldBy sites parts id found told
        × ((l torn : List (Record C.Effect)) → LeavesFront (codec_of C.spells) l torn (D.state (disk_of (gates_of log.old)))
        → MayFind l torn found × HasRecords (codec_of C.spells) D.state (gates_of log.new) found)) }
    ensures damaged { (at : ℕ) → result ≡ Err (DamagedAt at) → (l torn : List (Record C.Effect)) → LeavesFront (codec_of C.spells) l torn (D.state (disk_of (gates_of log.old)))
        → (found : List (Record C.Effect)) × MayFind l torn found × IsUnfitAt (codec_of C.spells) sites parts id found at }
    ensures moments { (l torn : List (Record C.Effect)) → LeavesFront (codec_of C.spells) l torn (D.state (disk_of (gates_of log.old)))
        → AtEachMoment (D.state (disk_of (gates_of log.old))).story (D.state (disk_of (gates_of log.new))).story (HoldsFront (codec_of C.spells) l torn) }
    ensures failed { result ≡ Err DiskFailed → Fails (D.state (disk_of (gates_of log.old))) (D.state (disk_of (gates_of log.new))) }
    ensures ready { IsReady D.state (gates_of log.old) → IsReady D.state (gates_of log.new) }
    ensures open { OnOk result (is_closed (gates_of log.new) ≡ false) }
    ensures goes_on { GoesOn (D.state (disk_of (gates_of log.old))) (D.state (disk_of (gates_of log.new))) }
    ensures left { Lowers 3 (D.state (disk_of (gates_of log.old))).left (D.state (disk_of (gates_of log.new))).left }
    ensures unfired { OnOk result ((D.state (disk_of (gates_of log.new))).left ≢ Some 0) }
{
    log.reopen(alloc)?;
    let told = told_by(alloc, log, id, sites, parts);
    log.forget_read();
    told
}
