ghost use Rattle.std.specs.Prelude.{◌≡◌, ◌≤◌, [], ℕ, List, None, length, reverse, IfOk};
ghost use Rattle.site_vector.specs.declared.ids.PartId.{PartId};
ghost use Rattle.crdt_core.specs.declared.record.Record.{Record};
ghost use Rattle.crdt_core.specs.Fitting.{unfit};
ghost use Rattle.crdt_core.specs.Log.{ceiling};
ghost use Rattle.log_recovery.specs.Ledgers.{IsLedger};
ghost use Rattle.log_recovery.specs.Lists.{least_below};
ghost use Rattle.log_recovery.specs.Told.{HasRead, ReadsNext, IsToldBy};

use crate::ledger::Ledger;
use crate::seen::Seen;
use crdt_core::{Part, Record};
use field_codec::ListOf;
use prepared_table::Entry;
use site_vector::{PartId, TxId, VTime};
use std::alloc::{AllocError, Global};

/// What a partition's log tells of its state.
#[derive(Drop)]
pub struct Rebuilt<E> {
    /// The ceiling of the last lease, in logical ticks, or 0.
    pub ceiling: u64,
    /// What was prepared and hasn't ended, in the order of the records.
    pub pending: ListOf<Entry<E>>,
    /// What was committed here or brought from other sites, in the order of the records that commit and bring it.
    pub committed: ListOf<Part<E>>,
    /// Up to where all is known of each site, in logical ticks: of the others by what was brought, of the own one at a
    /// clock that shows the ceiling.
    pub bounds: VTime,
    /// The last transaction that was decided here.
    pub last_decided: Option<TxId>,
}

/// The log of a partition as far as it was read, record by record, the oldest first. It keeps what later records are
/// judged by, and what the log tells in the end.
#[derive(Drop)]
pub struct Recovery<E> {
    seen: Seen,
    ledger: Ledger<E>,
}

impl<E: Drop> Recovery<E> {
    /// Nothing was read yet of the log of this partition, in a cluster of 1 to 8 sites with so many partitions each.
    /// The last lease of the log has the ceiling `top`, in logical ticks; a log with no lease has 0. Takes no memory.
    pub fn new(alloc: Global, id: PartId, sites: u8, parts: u8, top: u64) -> Recovery<E>
        requires least { 1 ≤ sites }
        requires most { sites ≤ 8 }
        requires first { 1 ≤ id.site }
        requires last { id.site ≤ sites }
        requires some { 1 ≤ parts }
        ensures { HasRead sites parts id top [] result }
    {
        Recovery {
            seen: Seen::new(alloc, id, sites, parts, top),
            ledger: Ledger::new(alloc, sites),
        }
    }

    /// Reads the next record, if it fits the partition: whether it does.
    ///
    /// # Errors
    ///
    /// `AllocError` where memory runs out. What was read is of no use then, nor where the record doesn't fit.
    pub fn read(&mut self, next: Record<E>) -> Result<bool, AllocError>
        requires { (sites parts : ℕ) × (id : PartId) × (top : ℕ) × (log : List (Record E)) × HasRead sites parts id top log self.old }
        ensures { (sites parts : ℕ) (id : PartId) (top : ℕ) (log : List (Record E)) → HasRead sites parts id top log self.old
            → IfOk result (ReadsNext sites parts id top log next self.new) }
    {
        if !self.seen.see(&next)? {
            return Ok(false);
        }
        self.ledger.read(next)?;
        Ok(true)
    }

    /// What the records tell that were read, the last lease among them.
    ///
    /// # Errors
    ///
    /// `AllocError` where memory runs out.
    pub fn finish(self, alloc: Global) -> Result<Rebuilt<E>, AllocError>
        requires { (sites parts : ℕ) × (id : PartId) × (top : ℕ) × (log : List (Record E)) × HasRead sites parts id top log self }
        ensures { (sites parts : ℕ) (id : PartId) (log : List (Record E)) → HasRead sites parts id (ceiling log) log self
            → IfOk result (IsToldBy sites parts id log) }
    {
        let Recovery { seen, ledger } = self;
        tell(alloc, ledger, seen.id)
    }
}

/// What the log of a partition tells, whose records, oldest first, all fit it.
///
/// # Errors
///
/// `AllocError` where memory runs out.
pub fn rebuild<E: Drop>(
    alloc: Global,
    records: ListOf<Record<E>>,
    sites: u8,
    id: PartId,
) -> Result<Rebuilt<E>, AllocError>
    requires least { 1 ≤ sites }
    requires most { sites ≤ 8 }
    requires first { 1 ≤ id.site }
    requires last { id.site ≤ sites }
    requires fits { (parts : ℕ) × (unfit sites parts id (reverse records) ≡ None) }
    ensures { (parts : ℕ) → unfit sites parts id (reverse records) ≡ None
        → IfOk result (IsToldBy sites parts id (reverse records)) }
{
    let ledger = read_all(alloc, records, sites)?;
    tell(alloc, ledger, id)
}

/// What the records tell that a ledger has read.
fn tell<E: Drop>(alloc: Global, ledger: Ledger<E>, id: PartId) -> Result<Rebuilt<E>, AllocError>
    requires first { 1 ≤ id.site }
    requires last { id.site ≤ length ledger.bounds }
    ensures { (sites parts : ℕ) (log : List (Record E)) → unfit sites parts id log ≡ None → IsLedger log ledger
        → length ledger.bounds ≡ sites → IfOk result (IsToldBy sites parts id log) }
{
    let pending = ledger.waiting.into_list(alloc)?;
    let own = own_bound(ledger.ceiling, pending.as_slice());
    Ok(Rebuilt {
        ceiling: ledger.ceiling,
        pending,
        committed: ledger.committed,
        bounds: ledger.bounds.with(id.site, own),
        last_decided: ledger.last_decided,
    })
}

/// Reads all records, oldest first.
fn read_all<E: Drop>(
    alloc: Global,
    records: ListOf<Record<E>>,
    sites: u8,
) -> Result<Ledger<E>, AllocError>
    requires least { 1 ≤ sites }
    requires most { sites ≤ 8 }
    requires fits { (parts : ℕ) × (id : PartId) × (unfit sites parts id (reverse records) ≡ None) }
    ensures read { IfOk result (λ l. IsLedger (reverse records) l) }
    ensures width { IfOk result (λ l. length l.bounds ≡ sites) }
{
    let mut ledger = Ledger::new(alloc, sites);
    for record in records.into_vec() {
        ledger.read(record)?;
    }
    Ok(ledger)
}

/// The lesser of the clock's time and one below the least prepare time.
fn own_bound<E>(now: u64, pending: &[Entry<E>]) -> u64
    ensures { result ≡ least_below now pending.now }
{
    let mut bound = now;
    for entry in pending {
        bound = bound.min(entry.time.saturating_sub(1));
    }
    bound
}
