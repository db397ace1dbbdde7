// What is pending at partitions, and how it ends without its session.
ghost use Rattle.std.specs.Prelude.{◌≡◌, false, List, Option, IfOk, option_map, map};
ghost use Rattle.site_vector.specs.Ids.{same_tx};
ghost use Rattle.prepared_table.specs.Entries.{found};
ghost use Rattle.world_model.specs.rules.Event.{Entry as Happened, AskAbort, Aborted};
ghost use Rattle.world_model.specs.rules.Partition.{fate_of};
ghost use Rattle.world_model.specs.lines.Places.{IsPlace};
ghost use Rattle.partition_core.specs.Answers.{fate_told};
ghost use Rattle.partition_core.specs.Untouched.{TakesNoMemory};
ghost use Rattle.site_partitions.specs.Answers.{AbortsByLead, CallsIf};
ghost use Rattle.site_partitions.specs.Fates.{OfState, IsLead, AreWaiting, waiting_of};
ghost use Rattle.site_partitions.specs.Held.{IsDownAt};
ghost use Rattle.site_partitions.specs.Reaches.{types_of, Reaches, HasBegun};

use crate::Sites;
use crate::sites::index_of;
use crdt_core::Crdt;
use disk_core::Disk;
use partition_core::{DurableError, Fate};
use prepared_table::Entry;
use site_vector::{PartId, TxId};
use std::alloc::{AllocError, Global};

/// A transaction that is pending at a partition, and the number of its lead.
#[derive(Clone, Copy, Debug)]
pub struct Waiting {
    pub tx: TxId,
    pub lead: u8,
}

impl<C: Crdt, D: Disk + Drop> Sites<C, D> {
    /// What a partition tells of a transaction of its site.
    pub fn fate_at(&self, at: PartId, tx: TxId) -> Fate
        requires place { IsPlace self.now.sites self.now.parts at }
        requires site { tx.site ≡ at.site }
        requires reached { (run : List (Happened C.Effect)) × Reaches (types_of C.laws C.spells D.state) self.now run }
        ensures { OfState (types_of C.laws C.spells D.state) self.now at (λ p. fate_told result ≡ fate_of p tx) }
    {
        let i = index_of(at, self.sites, self.parts);
        self.partitions[i].fate(tx)
    }

    /// The number of the lead of a transaction, if it is pending at the partition, which is up.
    pub fn lead_at(&self, at: PartId, tx: TxId) -> Option<u8>
        requires { IsPlace self.now.sites self.now.parts at }
        ensures { IsDownAt self.now at false → OfState (types_of C.laws C.spells D.state) self.now at (λ p. IsLead p.log tx result) }
    {
        let i = index_of(at, self.sites, self.parts);
        lead_in(self.partitions[i].pending(), tx)
    }

    /// What is pending at a partition, which is up, in the order of prepare time and then of transaction.
    ///
    /// # Errors
    ///
    /// `AllocError` where memory runs out.
    pub fn waiting_at(&self, at: PartId) -> Result<Vec<Waiting>, AllocError>
        requires { IsPlace self.now.sites self.now.parts at }
        ensures { IfOk result (λ l. IsDownAt self.now at false → OfState (types_of C.laws C.spells D.state) self.now at (λ p. AreWaiting p.log l.items)) }
    {
        let i = index_of(at, self.sites, self.parts);
        waiting_in(self.alloc, self.partitions[i].pending())
    }

    /// Has a partition abort a transaction on the word of its lead. Takes no memory.
    ///
    /// # Errors
    ///
    /// `Gone` exactly where the transaction isn't pending there; `Down`, `Full`, `Disk`.
    pub fn drop_at(&mut self, at: PartId, tx: TxId) -> Result<(), DurableError>
        requires place { IsPlace self.old.sites self.old.parts at }
        requires began { HasBegun (types_of C.laws C.spells D.state) self.old tx }
        ensures answers { CallsIf (types_of C.laws C.spells D.state) self.old self.new (AbortsByLead (types_of C.laws C.spells D.state) self.old at tx) at (AskAbort tx) (λ n e. e ≡ Aborted tx false) result }
        ensures fed { TakesNoMemory result }
    {
        let i = index_of(at, self.sites, self.parts);
        self.partitions[i].abort(tx)
    }
}

/// Whether two transactions are one.
fn same(t: TxId, u: TxId) -> bool
    ensures { result ≡ same_tx t u }
{
    t.time == u.time && t.part == u.part && t.site == u.site
}

/// The number of the lead of the first entry of a transaction.
fn lead_in<E>(entries: &[Entry<E>], tx: TxId) -> Option<u8>
    ensures { result ≡ option_map (λ e. e.lead) (found tx entries.now) }
{
    for entry in entries {
        if same(entry.tx, tx) {
            return Some(entry.lead);
        }
    }
    None
}

/// Each entry's transaction and its lead.
fn waiting_in<E>(alloc: Global, entries: &[Entry<E>]) -> Result<Vec<Waiting>, AllocError>
    ensures { IfOk result (λ l. l.items ≡ map waiting_of entries.now) }
{
    let mut all = Vec::new(alloc);
    for entry in entries {
        all.push(Waiting {
            tx: entry.tx,
            lead: entry.lead,
        })?;
    }
    Ok(all)
}
