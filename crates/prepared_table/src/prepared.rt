ghost use Rattle.std.specs.Prelude.{◌≡◌, ◌≤◌, ◌<◌, ◌+◌, [], false, MatchOption, Some, OnOk, length, slice_get, vec_len};
ghost use Rattle.std.specs.Prelude.{vec_capacity};
ghost use Rattle.std.specs.Option.{option_copied};
ghost use Rattle.crdt_core.specs.Orders.{Ascends, insert_by};
ghost use Rattle.prepared_table.specs.Entries.{entry_cmp, has_entry, found, first_time, first_on, IsTakenOut};
ghost use Rattle.prepared_table.specs.Digest.{digest_of};
ghost use Rattle.prepared_table.specs.Table.{IsTable};

use crate::digest::digest_of;
use crate::entry::Entry;
use crate::finding::{find, first_on};
use crate::placing::{place, put_at, take_at};
use crdt_core::ObjectId;
use site_vector::TxId;
use std::alloc::{AllocError, Global};
use std::marker::Model;

/// The transactions that a partition has prepared and not ended, in the order of prepare time and then of transaction.
/// Contracts see their list, and for how many more there is memory.
#[derive(Drop)]
pub struct Prepared<E> {
    entries: Vec<Entry<E>>,
    digests: Vec<u128>,
    room: usize,
}

impl<E> Model for Prepared<E> {
    ghost use Rattle.std.specs.Prelude.{length, vec_capacity};
    ghost use Rattle.prepared_table.specs.Entries.{Pending};
    ghost use Rattle.prepared_table.specs.Table.{IsTable, HasRoom};

    ghost Value = { Pending E };

    ghost view = { λ p. record { entries = p.entries.items; room = p.room } };

    ghost invariant = { λ p. IsTable p.entries.items p.digests.items
        × HasRoom (length p.entries.items) (length p.digests.items) p.room (vec_capacity p.entries) (vec_capacity p.digests) };
}

impl<E> Prepared<E> {
    /// Nothing prepared, and room for nothing. Takes no memory.
    pub fn new(alloc: Global) -> Prepared<E>
        ensures value { result ≡ record { entries = []; room = 0 } }
        ensures ascends { Ascends entry_cmp result.entries }
    {
        Prepared {
            entries: Vec::new(alloc),
            digests: Vec::new(alloc),
            room: 0,
        }
    }

    /// The entry of a transaction, if there is one.
    pub fn get(&self, tx: TxId) -> Option<&Entry<E>>
        ensures value { option_copied result ≡ found tx self.now.entries }
        ensures ascends { Ascends entry_cmp self.now.entries }
    {
        match find(self.entries.as_slice(), tx) {
            Some(at) => Some(&self.entries[at]),
            None => None,
        }
    }

    /// The least prepare time, if anything is prepared.
    pub fn least(&self) -> Option<u64>
        ensures least { result ≡ first_time self.now.entries }
        ensures ascends { Ascends entry_cmp self.now.entries }
    {
        if self.entries.len() == 0 {
            return None;
        }
        Some(self.entries[0].time)
    }

    /// The transaction and the time of the first entry, in order, that changes the object and has a time of at most
    /// `upto`.
    pub fn on(&self, object: &ObjectId, upto: u64) -> Option<(TxId, u64)>
        ensures first { result ≡ first_on object.now upto self.now.entries }
        ensures ascends { Ascends entry_cmp self.now.entries }
    {
        first_on(
            self.entries.as_slice(),
            self.digests.as_slice(),
            object,
            upto,
        )
    }

    /// All entries, in order.
    pub fn entries(&self) -> &[Entry<E>]
        ensures value { result.now ≡ self.now.entries }
        ensures ascends { Ascends entry_cmp self.now.entries }
    {
        self.entries.as_slice()
    }
}

impl<E: Drop> Prepared<E> {
    /// Makes room for `n` entries in all beyond those that are there.
    ///
    /// # Errors
    ///
    /// `AllocError` where memory runs out. The entries stay, and there is no less room than before.
    pub fn reserve(&mut self, n: usize) -> Result<(), AllocError>
        ensures entries { self.new.entries ≡ self.old.entries }
        ensures room_stays { self.old.room ≤ self.new.room }
        ensures ok { OnOk result (n ≤ self.new.room) }
        ensures ascends { Ascends entry_cmp self.new.entries }
    {
        if n <= self.room {
            return Ok(());
        }
        self.entries.reserve(n)?;
        self.digests.reserve(n)?;
        self.room = n;
        Ok(())
    }

    /// Puts an entry in its place. There is room, and no entry of its transaction. Takes no memory.
    pub fn add(&mut self, entry: Entry<E>)
        requires room { 1 ≤ self.old.room }
        requires fresh { has_entry self.old.entries entry.tx ≡ false }
        ensures entries { self.new.entries ≡ insert_by entry_cmp entry self.old.entries }
        ensures room { self.new.room + 1 ≡ self.old.room }
        ensures ascends { Ascends entry_cmp self.new.entries }
    {
        put(&mut self.entries, &mut self.digests, entry);
        self.room -= 1;
    }

    /// Takes out the entry of a transaction, if there is one. Its room stays.
    pub fn remove(&mut self, tx: TxId) -> Option<Entry<E>>
        ensures value { result ≡ found tx self.old.entries }
        ensures rest { MatchOption result (self.new.entries ≡ self.old.entries)
            (λ x. IsTakenOut x self.old.entries self.new.entries) }
        ensures room { MatchOption result (self.new.room ≡ self.old.room) (λ _. self.new.room ≡ self.old.room + 1) }
        ensures ascends { Ascends entry_cmp self.new.entries }
    {
        let at = match find(self.entries.as_slice(), tx) {
            Some(at) => at,
            None => return None,
        };
        let entry = take(&mut self.entries, &mut self.digests, at);
        self.room += 1;
        Some(entry)
    }
}

/// Puts an entry in its place, and its digest beside it. There is room.
fn put<E: Drop>(entries: &mut Vec<Entry<E>>, digests: &mut Vec<u128>, entry: Entry<E>)
    requires table { IsTable entries.old.items digests.old.items }
    requires fresh { has_entry entries.old.items entry.tx ≡ false }
    requires room { vec_len entries.old < vec_capacity entries.old }
    requires digest_room { vec_len digests.old < vec_capacity digests.old }
    ensures put { entries.new.items ≡ insert_by entry_cmp entry entries.old.items }
    ensures table { IsTable entries.new.items digests.new.items }
    ensures len { vec_len entries.new ≡ vec_len entries.old + 1 }
    ensures digest_len { vec_len digests.new ≡ vec_len digests.old + 1 }
    ensures capacity { vec_capacity entries.old ≤ vec_capacity entries.new }
    ensures digest_capacity { vec_capacity digests.old ≤ vec_capacity digests.new }
{
    let at = place(entries.as_slice(), &entry);
    let digest = digest_of(entry.updates.as_slice());
    put_at(entries, at, entry);
    put_at(digests, at, digest);
}

/// Takes out the entry at a place, and its digest.
fn take<E>(entries: &mut Vec<Entry<E>>, digests: &mut Vec<u128>, at: usize) -> Entry<E>
    requires table { IsTable entries.old.items digests.old.items }
    requires at { at < length entries.old.items }
    ensures value { slice_get entries.old.items at ≡ Some result }
    ensures taken { IsTakenOut result entries.old.items entries.new.items }
    ensures table { IsTable entries.new.items digests.new.items }
    ensures len { vec_len entries.new + 1 ≡ vec_len entries.old }
    ensures digest_len { vec_len digests.new + 1 ≡ vec_len digests.old }
    ensures capacity { vec_capacity entries.new ≡ vec_capacity entries.old }
    ensures digest_capacity { vec_capacity digests.new ≡ vec_capacity digests.old }
{
    let entry = take_at(entries, at);
    let _digest = take_at(digests, at);
    entry
}
