ghost use Rattle.std.specs.Prelude.{◌≡◌, ◌≤◌, ◌+◌, Bool, true, false, length, IfOk, MatchOption};
ghost use Rattle.crdt_core.specs.KindsOf.{kinds_of};
ghost use Rattle.prepared_table.specs.Entries.{has_entry, IsTakenOut};
ghost use Rattle.world_model.specs.rules.Event.{AskDecide, AskFinish, AskAbort, Decided, Finished, Aborted};
ghost use Rattle.world_model.specs.rules.Partition.{PartState, fate_of};
ghost use Rattle.partition_core.specs.Answers.{Answered, fate_told};
ghost use Rattle.partition_core.specs.Committed.{Commits};
ghost use Rattle.partition_core.specs.Sound.{HasRoom, updates_pending};
ghost use Rattle.partition_core.specs.Stands.{Stands};
ghost use Rattle.partition_core.specs.Steps.{Anything};

use crate::{Fate, Partition, Refusal};
use crdt_core::{Crdt, Part};
use effect_store::Store;
use prepared_table::{Entry, Prepared};
use site_vector::{TxId, VTime};
use std::alloc::AllocError;

impl<C: Crdt> Partition<C> {
    /// The commit point of a transaction of this site, of which this partition is the lead, with its commit vector.
    /// Done already where it is committed here. Takes no memory.
    ///
    /// # Errors
    ///
    /// `Gone` exactly where it is neither pending nor committed here.
    pub fn decide(&mut self, tx: TxId, c: &VTime) -> Result<(), Refusal>
        requires place { tx.site ≡ self.old.id.site }
        requires width { length c.now ≡ self.old.sites }
        ensures { Answered (kinds_of C.laws) self.old Anything (AskDecide tx c.now) (λ n e. e ≡ Decided tx c.now) result self.new }
    {
        commit(
            &mut self.prepared,
            &mut self.store,
            &mut self.promised,
            tx,
            c,
        )
    }

    /// The commit of a transaction of this site, of which another partition is the lead, with its commit vector. Done
    /// already where it is committed here. Takes no memory.
    ///
    /// # Errors
    ///
    /// `Gone` exactly where it is neither pending nor committed here.
    pub fn finish(&mut self, tx: TxId, c: &VTime) -> Result<(), Refusal>
        requires place { tx.site ≡ self.old.id.site }
        requires width { length c.now ≡ self.old.sites }
        ensures { Answered (kinds_of C.laws) self.old Anything (AskFinish tx c.now) (λ n e. e ≡ Finished tx c.now) result self.new }
    {
        commit(
            &mut self.prepared,
            &mut self.store,
            &mut self.promised,
            tx,
            c,
        )
    }

    /// Ends a transaction without a commit, on the word of its session or of its lead. Takes no memory.
    ///
    /// # Errors
    ///
    /// `Gone` exactly where it isn't pending here.
    pub fn abort(&mut self, tx: TxId) -> Result<(), Refusal>
        ensures { (own : Bool) → Answered (kinds_of C.laws) self.old Anything (AskAbort tx) (λ n e. e ≡ Aborted tx own) result self.new }
    {
        if let Some(_entry) = take_out(&mut self.prepared, &mut self.promised, tx) {
            return Ok(());
        }
        Err(Refusal::Gone)
    }

    /// What the partition tells of a transaction of its site: at its lead this is its fate.
    pub fn fate(&self, tx: TxId) -> Fate
        requires { tx.site ≡ self.now.id.site }
        ensures { (p : PartState C.Effect) → Stands self.now p → fate_told result ≡ fate_of p tx }
    {
        if let Some(_entry) = self.prepared.get(tx) {
            return Fate::Pending;
        }
        match self.store.has(tx) {
            Some(c) => Fate::Committed(c),
            None => Fate::Aborted,
        }
    }
}

/// Takes memory for one more pending transaction with so many updates, and for all that is pending to be held. Answers
/// how many updates are pending then.
///
/// # Errors
///
/// `AllocError` where memory runs out. What is pending and held is as before, and there is no less room for it.
pub(crate) fn promise<C: Crdt>(
    prepared: &mut Prepared<C::Effect>,
    store: &mut Store<C>,
    promised: usize,
    updates: usize,
) -> Result<usize, AllocError>
    requires { HasRoom prepared.old.entries promised store.old }
    ensures pending { prepared.new.entries ≡ prepared.old.entries }
    ensures sites { store.new.sites ≡ store.old.sites }
    ensures held { store.new.parts ≡ store.old.parts }
    ensures rooms { HasRoom prepared.new.entries promised store.new }
    ensures more { IfOk result (λ n. (n ≡ promised + updates) × (1 ≤ prepared.new.room) × (length prepared.new.entries + 1 ≤ store.new.room) × (n ≤ store.new.update_room)) }
{
    let count = prepared.entries().len();
    let (Some(pending), Some(all)) = (count.checked_add(1), promised.checked_add(updates)) else {
        return Err(AllocError);
    };
    prepared.reserve(1)?;
    store.reserve(pending, all)?;
    Ok(all)
}

/// Takes out what is pending of a transaction, and counts its updates no more.
#[tactic(auto, using(crate::proofs::Rooms::not_found_is, crate::proofs::Rooms::found_is, crate::proofs::Rooms::had_updates))]
fn take_out<E: Drop>(prepared: &mut Prepared<E>, promised: &mut usize, tx: TxId) -> Option<Entry<E>>
    requires { promised.old ≡ updates_pending prepared.old.entries }
    ensures { MatchOption result ((has_entry prepared.old.entries tx ≡ false) × (prepared.new.entries ≡ prepared.old.entries) × (promised.new ≡ promised.old)) (λ e. (e.tx ≡ tx) × IsTakenOut e prepared.old.entries prepared.new.entries × (promised.new + length e.updates ≡ promised.old)) }
{
    let entry = prepared.remove(tx)?;
    *promised -= entry.updates.as_slice().len();
    Some(entry)
}

/// Makes what is pending of a transaction a part that is held. Takes no memory.
///
/// # Errors
///
/// `Gone` exactly where it is neither pending nor held.
#[tactic(auto, using(crate::proofs::Rooms::some_room, crate::proofs::Rooms::committed_room_of))]
fn commit<C: Crdt>(
    prepared: &mut Prepared<C::Effect>,
    store: &mut Store<C>,
    promised: &mut usize,
    tx: TxId,
    c: &VTime,
) -> Result<(), Refusal>
    requires rooms { HasRoom prepared.old.entries promised.old store.old }
    requires width { length c.now ≡ store.old.sites }
    ensures commits { Commits tx c.now prepared.old.entries store.old.parts result prepared.new.entries store.new.parts }
    ensures rooms { HasRoom prepared.new.entries promised.new store.new }
    ensures sites { store.new.sites ≡ store.old.sites }
{
    if let Some(entry) = take_out(prepared, promised, tx) {
        store.insert(Part {
            tx,
            c: *c,
            updates: entry.updates,
        });
        return Ok(());
    }
    match store.has(tx) {
        Some(_c) => Ok(()),
        None => Err(Refusal::Gone),
    }
}
