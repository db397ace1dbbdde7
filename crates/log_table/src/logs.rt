// Partitions' logs on disks that crash, are full, or hold any bytes.
ghost use Rattle.std.specs.Prelude.{◌≡◌, ◌≤◌, [], true, IsTrue, IfOk, IfSome};
ghost use Rattle.disk_core.specs.States.{bytes_of};
ghost use Rattle.gate_log.specs.Logs.{IsReady};
ghost use Rattle.log_records.specs.Records.{can_put_record};
ghost use Rattle.partition_log.specs.Gates.{gates_of};

use crate::words::{bytes_of as bytes_of_digits, name_of};
use crdt_core::{Crdt, Record};
use crdt_counters::CounterPn;
use disk_core::{Disk, Fused, MemDisk, SureDisk};
use gate_log::{AppendError, OpenError, format};
use log_records::take;
use partition_log::{PartLog, record_at};
use site_vector::{TxId, VTime};
use std::alloc::{AllocError, Global};

/// A Prepare of 1.1#101 at 1002, of one update.
const PREPARE: &str =
    "02 0101 0000000000000065 01 00000000000003ea 01 0000000000000065 00000001 0001 0000 0001 6b 01 0000000000000001";

fn prepare(alloc: Global) -> Result<Option<Record<i64>>, AllocError>
    ensures { let C = ⟦<CounterPn as Crdt>⟧ in IfOk result (λ o. IfSome o (λ r. can_put_record C.has C.is_of C.can_put r ≡ true)) }
{
    let bytes = bytes_of_digits(alloc, PREPARE)?;
    Ok(take::<CounterPn>(alloc, bytes.as_slice()).ok())
}

/// A log without a record on a disk that holds nothing.
fn new_log<D: Disk + Drop>(alloc: Global, disk: D) -> Option<PartLog<CounterPn, D>>
    requires empty { IsTrue (D.state disk).tells → bytes_of (D.state disk) ≡ [] }
    requires room { 64 ≤ (D.state disk).room }
    ensures { IfSome result (λ log. IsReady D.state (gates_of log)) }
{
    let mut disk = disk;
    if format(&mut disk).is_err() {
        return None;
    }
    PartLog::open(alloc, disk).ok()
}

fn put_answer(out: &mut String, answer: Result<(), AppendError>) -> Result<(), AllocError> {
    match answer {
        Ok(()) => out.push_str("ok, "),
        Err(AppendError::Failed) => out.push_str("failed, "),
        Err(AppendError::Full { room }) => write!(out, "full {room}, "),
        Err(AppendError::Closed) => out.push_str("closed, "),
        Err(AppendError::NoMemory) => out.push_str("no memory, "),
    }
}

fn put_refusal(out: &mut String, error: &OpenError) -> Result<(), AllocError> {
    match error {
        OpenError::Failed => out.push_str("failed"),
        OpenError::Damaged { at } => write!(out, "damaged at {at}"),
        OpenError::NoMemory => out.push_str("no memory"),
    }
}

/// Adds the records of an open log with their places, or where the first payload is damaged that is none.
fn put_records<D: Disk + Drop>(
    alloc: Global,
    out: &mut String,
    log: &PartLog<CounterPn, D>,
) -> Result<(), AllocError> {
    let mut names = String::new(alloc);
    for (place, payload) in log.payloads() {
        match record_at::<CounterPn>(alloc, place, payload) {
            Ok(record) => write!(&mut names, " {place} {}", name_of(&record))?,
            Err(error) => {
                return put_refusal(out, &error);
            }
        }
    }
    out.push_str("opened")?;
    out.push_str(names.as_str())
}

/// Adds what opening the log of a disk answers: the records with their places.
fn put_opening<D: Disk + Drop>(alloc: Global, out: &mut String, disk: D) -> Result<(), AllocError> {
    match PartLog::<CounterPn, D>::open(alloc, disk) {
        Ok(log) => put_records(alloc, out, &log),
        Err((_, error)) => put_refusal(out, &error),
    }
}

/// A Prepare with its Lease in front, of which a call of the disk fails; then a Decide, and what is opened.
pub(crate) fn crash(
    alloc: Global,
    out: &mut String,
    call: u64,
    cut_length: u64,
) -> Result<(), AllocError> {
    let Some(prepare) = prepare(alloc)? else {
        return out.push_str("no record\n");
    };
    let Some(mut log) = new_log(alloc, Fused::new(MemDisk::new(alloc, 512))) else {
        return out.push_str("no log\n");
    };
    put_answer(out, log.lease(1000))?;
    log.arm(call, cut_length);
    put_answer(out, log.prepare(alloc, Some(2001), &prepare))?;
    let tx = TxId {
        site: 1,
        part: 1,
        time: 101,
    };
    put_answer(out, log.decide(tx, &VTime::zero(1).with(1, 1002)))?;
    put_answer(out, log.abort(tx))?;
    put_opening(alloc, out, log.close().into_inner())?;
    out.push_str("\n")
}

/// A Lease, and a Prepare with one in front, on a disk of this room; then a Prepare alone, and what is opened.
pub(crate) fn room(alloc: Global, out: &mut String, room: u64) -> Result<(), AllocError> {
    if !(64..=512).contains(&room) {
        return out.push_str("bad\n");
    }
    let Some(prepare) = prepare(alloc)? else {
        return out.push_str("no record\n");
    };
    let Some(mut log) = new_log(alloc, SureDisk::new(alloc, room)?) else {
        return out.push_str("no log\n");
    };
    put_answer(out, log.lease(1000))?;
    put_answer(out, log.prepare(alloc, Some(2001), &prepare))?;
    put_answer(out, log.prepare(alloc, None, &prepare))?;
    put_opening(alloc, out, log.close())?;
    out.push_str("\n")
}

/// What is opened where a disk holds these bytes.
pub(crate) fn open(alloc: Global, out: &mut String, digits: &str) -> Result<(), AllocError> {
    let bytes = bytes_of_digits(alloc, digits)?;
    if bytes.len() > 512 {
        return out.push_str("bad\n");
    }
    put_opening(alloc, out, MemDisk::of_bytes(alloc, 512, bytes.as_slice())?)?;
    out.push_str("\n")
}
