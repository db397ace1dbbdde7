ghost use Rattle.std.specs.Prelude.{◌≡◌, ◌≤◌, ◌∷◌, ◌++◌, [], ℕ, List, true, length, replicate, OnOk, None};
ghost use Rattle.site_vector.specs.declared.ids.PartId.{PartId};
ghost use Rattle.crdt_core.specs.declared.record.Record.{Record};
ghost use Rattle.crdt_core.specs.Fitting.{unfit};
ghost use Rattle.prepared_table.specs.Entries.{has_entry};
ghost use Rattle.log_recovery.specs.Ledgers.{IsLedger, IsNext, IsSame, Reads, Commits, Aborts, raised};

use crate::vectors::raise;
use crate::waiting::Waiting;
use crdt_core::{Message, Part, Record};
use field_codec::ListOf;
use prepared_table::Entry;
use site_vector::{TxId, VTime};
use std::alloc::{AllocError, Global};

/// What was read of a log so far.
#[derive(Drop)]
pub(crate) struct Ledger<E> {
    pub(crate) ceiling: u64,
    pub(crate) waiting: Waiting<E>,
    pub(crate) committed: ListOf<Part<E>>,
    pub(crate) bounds: VTime,
    pub(crate) last_decided: Option<TxId>,
}

impl<E: Drop> Ledger<E> {
    /// That nothing was read. Takes no memory.
    pub(crate) fn new(alloc: Global, sites: u8) -> Ledger<E>
        requires least { 1 ≤ sites }
        requires most { sites ≤ 8 }
        ensures empty { IsLedger [] result }
        ensures width { length result.bounds ≡ sites }
    {
        Ledger {
            ceiling: 0,
            waiting: Waiting::new(alloc),
            committed: ListOf::new(alloc),
            bounds: VTime::zero(sites),
            last_decided: None,
        }
    }

    /// Reads one record more.
    ///
    /// # Errors
    ///
    /// `AllocError` where memory runs out. The ledger is of no use then.
    pub(crate) fn read(&mut self, next: Record<E>) -> Result<(), AllocError>
        requires { IsNext self.old next }
        ensures read { OnOk result (Reads self.old next self.new) }
        ensures width { OnOk result (length self.new.bounds ≡ length self.old.bounds) }
    {
        match next {
            Record::Lease { ceil } => {
                self.ceiling = ceil;
                Ok(())
            }
            Record::Prepare {
                tx,
                lead,
                time,
                s,
                updates,
            } => self.waiting.add(Entry {
                tx,
                lead,
                time,
                s,
                updates,
            }),
            Record::Decide { tx, c } => {
                self.last_decided = Some(tx);
                self.commit(tx, c)
            }
            Record::Finish { tx, c } => self.commit(tx, c),
            Record::Abort { tx } => {
                self.abort(tx);
                Ok(())
            }
            Record::Batch { message } => self.bring(message),
        }
    }

    /// Moves what is waiting to what is committed, with its commit vector.
    fn commit(&mut self, tx: TxId, c: VTime) -> Result<(), AllocError>
        requires { has_entry self.old.waiting tx ≡ true }
        ensures committed { OnOk result (Commits tx c self.old.waiting self.new.waiting self.old.committed self.new.committed) }
        ensures same { IsSame self.old self.new }
    {
        let entry = self.waiting.take(tx);
        self.committed.push(Part {
            tx,
            c,
            updates: entry.updates,
        })
    }

    /// Drops what is waiting.
    fn abort(&mut self, tx: TxId)
        requires { has_entry self.old.waiting tx ≡ true }
        ensures aborted { Aborts tx self.old.waiting self.new.waiting }
        ensures committed { self.new.committed ≡ self.old.committed }
        ensures same { IsSame self.old self.new }
    {
        let _aborted = self.waiting.take(tx);
    }

    /// Adds what a message brought.
    fn bring(&mut self, message: Message<E>) -> Result<(), AllocError>
        requires least { 1 ≤ message.from }
        requires most { message.from ≤ length self.old.bounds }
        ensures brought { OnOk result (self.new.committed ≡ self.old.committed ++ message.parts) }
        ensures bounds { self.new.bounds ≡ raised self.old.bounds message.from message.hi }
        ensures waiting { self.new.waiting ≡ self.old.waiting }
        ensures ceiling { self.new.ceiling ≡ self.old.ceiling }
        ensures last_decided { self.new.last_decided ≡ self.old.last_decided }
    {
        let from = message.from;
        self.bounds = raise(&self.bounds, from, message.hi);
        append(&mut self.committed, message.parts)
    }
}

/// Adds parts at the end.
fn append<E: Drop>(all: &mut ListOf<Part<E>>, more: ListOf<Part<E>>) -> Result<(), AllocError>
    ensures { OnOk result (all.new ≡ all.old ++ more) }
{
    for part in more.into_vec() {
        all.push(part)?;
    }
    Ok(())
}
