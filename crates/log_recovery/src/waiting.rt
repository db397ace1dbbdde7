ghost use Rattle.std.specs.Prelude.{◌≡◌, ◌≤◌, ◌-◌, ◌++◌, ◌∷◌, ℕ, Option, length, [], false, true, OnOk, OnErr, IfOk, Some, None, slice_get, slice_set};
ghost use Rattle.std.specs.HashMap.{get};
ghost use Rattle.site_vector.specs.declared.ids.TxId.{TxId};
ghost use Rattle.prepared_table.specs.declared.entry.Entry.{Entry};
ghost use Rattle.prepared_table.specs.Entries.{has_entry, IsTakenOut};
ghost use Rattle.log_recovery.specs.Lists.{still_there, ArePlaced};

use field_codec::ListOf;
use prepared_table::Entry;
use site_vector::TxId;
use std::alloc::{AllocError, Global};
use std::collections::HashMap;
use std::marker::Model;

/// Transactions that were prepared and haven't ended, in the order of their records. Contracts see their list.
#[derive(Drop)]
pub(crate) struct Waiting<E> {
    slots: Vec<Option<Entry<E>>>,
    places: HashMap<TxId, usize>,
}

impl<E> Model for Waiting<E> {
    ghost use Rattle.std.specs.Prelude.{List};
    ghost use Rattle.std.specs.HashMap.{get};
    ghost use Rattle.prepared_table.specs.declared.entry.Entry.{Entry};
    ghost use Rattle.log_recovery.specs.Lists.{still_there, ArePlaced};

    ghost Value = { List (Entry E) };

    ghost view = { λ w. still_there w.slots.items };

    ghost invariant = { λ w. ArePlaced (get ⟦<TxId as PartialEq>⟧.eq w.places) w.slots.items };
}

impl<E> Waiting<E> {
    /// Nothing is waiting. Takes no memory.
    pub(crate) fn new(alloc: Global) -> Waiting<E>
        ensures { result ≡ [] }
    {
        Waiting {
            slots: Vec::new(alloc),
            places: HashMap::new(alloc),
        }
    }
}

impl<E: Drop> Waiting<E> {
    /// Adds a transaction that isn't waiting yet.
    ///
    /// # Errors
    ///
    /// `AllocError` where memory runs out. What is waiting is as before then.
    pub(crate) fn add(&mut self, entry: Entry<E>) -> Result<(), AllocError>
        requires fresh { has_entry self.old entry.tx ≡ false }
        ensures ok { OnOk result (self.new ≡ self.old ++ entry ∷ []) }
        ensures err { OnErr result (self.new ≡ self.old) }
    {
        add(&mut self.slots, &mut self.places, entry)
    }

    /// Takes out a transaction that is waiting. Takes no memory.
    pub(crate) fn take(&mut self, tx: TxId) -> Entry<E>
        requires waits { has_entry self.old tx ≡ true }
        ensures taken { IsTakenOut result self.old self.new }
        ensures tx { result.tx ≡ tx }
    {
        take(&mut self.slots, &mut self.places, tx)
    }

    /// The list of what is waiting.
    ///
    /// # Errors
    ///
    /// `AllocError` where memory runs out.
    pub(crate) fn into_list(self, alloc: Global) -> Result<ListOf<Entry<E>>, AllocError>
        ensures { IfOk result (λ l. l ≡ self) }
    {
        list(alloc, self.slots)
    }
}

/// Puts an entry into a new slot, whose place is noted.
fn add<E: Drop>(
    slots: &mut Vec<Option<Entry<E>>>,
    places: &mut HashMap<TxId, usize>,
    entry: Entry<E>,
) -> Result<(), AllocError>
    requires placed { ArePlaced (get ⟦<TxId as PartialEq>⟧.eq places.old) slots.old.items }
    requires fresh { has_entry (still_there slots.old.items) entry.tx ≡ false }
    ensures placed { ArePlaced (get ⟦<TxId as PartialEq>⟧.eq places.new) slots.new.items }
    ensures ok { OnOk result (still_there slots.new.items ≡ still_there slots.old.items ++ entry ∷ []) }
    ensures err { OnErr result (still_there slots.new.items ≡ still_there slots.old.items) }
{
    let at = slots.len();
    let tx = entry.tx;
    places.reserve(1)?;
    slots.push(Some(entry))?;
    let _room_was_reserved = places.insert(tx, at);
    Ok(())
}

/// Empties the slot of a transaction.
fn take<E: Drop>(
    slots: &mut Vec<Option<Entry<E>>>,
    places: &mut HashMap<TxId, usize>,
    tx: TxId,
) -> Entry<E>
    requires placed { ArePlaced (get ⟦<TxId as PartialEq>⟧.eq places.old) slots.old.items }
    requires waits { has_entry (still_there slots.old.items) tx ≡ true }
    ensures placed { ArePlaced (get ⟦<TxId as PartialEq>⟧.eq places.new) slots.new.items }
    ensures taken { IsTakenOut result (still_there slots.old.items) (still_there slots.new.items) }
    ensures tx { result.tx ≡ tx }
{
    match places.remove(&tx) {
        Some(at) => {
            let entry = empty(slots, at);
            trim(slots);
            entry
        }
        None => unreachable!(),
    }
}

/// Drops the empty slots at the end: where transactions end soon, few slots stay.
fn trim<E: Drop>(slots: &mut Vec<Option<Entry<E>>>)
    ensures still_there { still_there slots.new.items ≡ still_there slots.old.items }
    ensures placed { (places : TxId → Option ℕ) → ArePlaced places slots.old.items → ArePlaced places slots.new.items }
{
    while ends_empty(slots.as_slice()) {
        slots.truncate(slots.len() - 1);
    }
}

/// Whether the last slot is empty.
fn ends_empty<E>(slots: &[Option<Entry<E>>]) -> bool
    ensures some { result ≡ true → 1 ≤ length slots.now }
    ensures empty { result ≡ true → slice_get slots.now (length slots.now - 1) ≡ Some None }
{
    slots.len() > 0 && slots[slots.len() - 1].is_none()
}

/// Empties a slot.
fn empty<E: Drop>(slots: &mut Vec<Option<Entry<E>>>, at: usize) -> Entry<E>
    requires full { (x : Entry E) × (slice_get slots.old.items at ≡ Some (Some x)) }
    ensures there { slice_get slots.old.items at ≡ Some (Some result) }
    ensures emptied { slots.new.items ≡ slice_set slots.old.items at None }
{
    match slots[at].take() {
        Some(entry) => entry,
        None => unreachable!(),
    }
}

/// The entries that are still there.
fn list<E: Drop>(
    alloc: Global,
    slots: Vec<Option<Entry<E>>>,
) -> Result<ListOf<Entry<E>>, AllocError>
    ensures { IfOk result (λ l. l ≡ still_there slots.items) }
{
    let mut all = ListOf::new(alloc);
    for slot in slots {
        if let Some(entry) = slot {
            all.push(entry)?;
        }
    }
    Ok(all)
}
