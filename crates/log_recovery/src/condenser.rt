ghost use Rattle.std.specs.Prelude.{◌≡◌, ◌≤◌, ◌+◌, if◌then◌else◌, true, false, reverse, IfOk};
ghost use Rattle.std.specs.HashSet.{contains};
ghost use Rattle.site_vector.specs.declared.ids.TxId.{TxId};
ghost use Rattle.site_vector.specs.Ids.{same_tx};
ghost use Rattle.crdt_core.specs.Log.{aborted};
ghost use Rattle.log_recovery.specs.Condensed.{aborted_by, prepared_by, is_dropped, kept, condensed, stays, is_lease, leases_in};

use crate::shared::share_record;
use crdt_core::Record;
use field_codec::ListOf;
use site_vector::TxId;
use std::alloc::{AllocError, Global};
use std::collections::HashSet;

/// The transaction that a record aborts.
fn aborted_by<E>(next: &Record<E>) -> Option<TxId>
    ensures { result ≡ aborted_by next.now }
{
    match next {
        Record::Abort { tx } => Some(*tx),
        _ => None,
    }
}

/// The transaction that a record prepares.
fn prepared_by<E>(next: &Record<E>) -> Option<TxId>
    ensures { result ≡ prepared_by next.now }
{
    match next {
        Record::Prepare { tx, .. } => Some(*tx),
        _ => None,
    }
}

/// The transactions that these records abort.
fn aborted_in<E>(alloc: Global, records: &[Record<E>]) -> Result<HashSet<TxId>, AllocError>
    ensures { IfOk result (λ set. (u : TxId) → contains same_tx set u ≡ aborted (reverse records.now) u) }
{
    let mut all = HashSet::new(alloc);
    for next in records {
        if let Some(tx) = aborted_by(next) {
            all.insert(tx)?;
        }
    }
    Ok(all)
}

/// The transactions that these records prepare and abort.
fn dropped_in<E>(alloc: Global, records: &[Record<E>]) -> Result<HashSet<TxId>, AllocError>
    ensures { IfOk result (λ set. (u : TxId) → contains same_tx set u ≡ is_dropped (reverse records.now) u) }
{
    let ended = aborted_in(alloc, records)?;
    let mut all = HashSet::new(alloc);
    for next in records {
        if let Some(tx) = prepared_by(next) {
            if ended.contains(&tx) {
                all.insert(tx)?;
            }
        }
    }
    Ok(all)
}

/// Whether a record is a lease.
fn is_lease<E>(next: &Record<E>) -> bool
    ensures { result ≡ is_lease next.now }
{
    matches!(next, Record::Lease { .. })
}

/// Whether a record stays that stands before others, among which a lease is or isn't.
fn stays<E>(dropped: &HashSet<TxId>, leased: bool, next: &Record<E>) -> bool
    ensures { result ≡ stays leased (contains same_tx dropped.now) next.now }
{
    match next {
        Record::Lease { .. } => !leased,
        Record::Prepare { tx, .. } => !dropped.contains(tx),
        Record::Abort { tx } => !dropped.contains(tx),
        Record::Decide { .. } => true,
        Record::Finish { .. } => true,
        Record::Batch { .. } => true,
    }
}

/// How many of these records are leases.
fn count_leases<E>(records: &[Record<E>]) -> usize
    ensures { result ≡ leases_in records.now }
{
    let mut count = 0;
    for next in records {
        if is_lease(next) {
            count += 1;
        }
    }
    count
}

/// How many leases stand behind a record, if so many stand from it on.
fn left_behind<E>(left: usize, next: &Record<E>) -> usize
    requires { is_lease next.now ≡ true → 1 ≤ left }
    ensures { left ≡ if is_lease next.now then 1 + result else result }
{
    if is_lease(next) { left - 1 } else { left }
}

/// The records that stay where these transactions are dropped.
fn keep<E: Drop>(
    alloc: Global,
    records: &[Record<E>],
    dropped: &HashSet<TxId>,
) -> Result<ListOf<Record<E>>, AllocError>
    ensures { IfOk result (λ all. reverse all ≡ kept false (contains same_tx dropped.now) (reverse records.now)) }
{
    let mut left = count_leases(records);
    let mut all = ListOf::new(alloc);
    for next in records {
        left = left_behind(left, next);
        if stays(dropped, left > 0, next) {
            all.push(share_record(alloc, next)?)?;
        }
    }
    Ok(all)
}

/// The records of a log, oldest first, without what no restart needs: without the leases before the last one, and
/// without each Prepare that has an Abort, and that Abort. Their updates are shared, and not copied. Takes time and memory
/// in proportion to the records.
///
/// # Errors
///
/// `AllocError` where memory runs out, or where updates have 2^63 owners.
pub fn condense<E: Drop>(
    alloc: Global,
    records: &[Record<E>],
) -> Result<ListOf<Record<E>>, AllocError>
    ensures { IfOk result (λ all. reverse all ≡ condensed (reverse records.now)) }
{
    let dropped = dropped_in(alloc, records)?;
    keep(alloc, records, &dropped)
}
