ghost use Rattle.std.specs.Prelude.{◌≡◌, ◌+◌, ◌≤◌, ℕ, [], length, false, Some, None, IfOk, IfSome, OnOk, if◌then◌else◌, vec_len, vec_capacity, option_copied};
ghost use Rattle.std.specs.List.{filter};
ghost use Rattle.std.specs.HashMap.{get, spare};
ghost use Rattle.site_vector.specs.declared.ids.TxId.{TxId};
ghost use Rattle.crdt_core.specs.Orders.{insert_by, sorted_by, fold_cmp, stream_cmp};
ghost use Rattle.crdt_core.specs.Parts.{lists, vector_in, seen_parts, parts_between};
ghost use Rattle.crdt_core.specs.History.{folded};
ghost use Rattle.crdt_core.specs.Folds.{effects_of};
ghost use Rattle.effect_store.specs.Wanted.{is_outside};
ghost use Rattle.effect_store.specs.Stores.{PartRoom};
ghost use Rattle.effect_store.specs.Updates.{updates_of, updates_outside};

use crate::commits;
use crate::commits::{Commits, Parts, list_part, stretch};
use crate::hooks::head;
use crate::links::{Links, NONE, link_part};
use crate::newest::{Newest, advance, forget};
use crate::reads::{read_state, standing_state};
use crate::tags::tag_of;
use crate::updates::Updates;
use crdt_core::{Crdt, ObjectId, Part, Value};
use site_vector::{TxId, VTime};
use std::alloc::{AllocError, Global};
use std::collections::HashMap;
use std::marker::Model;

/// The committed updates that a partition holds, part by part.
#[derive(Drop)]
pub struct Store<C: Crdt> {
    sites: u8,
    parts: Vec<Part<C::Effect>>,
    ids: HashMap<TxId, u32>,
    links: Links,
    lists: [Commits; 8],
    newest: HashMap<u64, Newest<C::State>>,
    older: HashMap<u64, Newest<C::State>>,
    room: usize,
    update_room: usize,
}

impl<C: Crdt> Model for Store<C> {
    ghost use Rattle.std.specs.Prelude.{vec_len, vec_capacity, nat_eq, ◌≤◌};
    ghost use Rattle.std.specs.HashMap.{get, spare};
    ghost use Rattle.effect_store.specs.Arranged.{arranged};
    ghost use Rattle.effect_store.specs.Spots.{earlier, spots};
    ghost use Rattle.effect_store.specs.Newest.{AreNewest};
    ghost use Rattle.effect_store.specs.Links.{Roomy};
    ghost use Rattle.effect_store.specs.Listed.{AreLists, ListRoom};
    ghost use Rattle.effect_store.specs.Wanted.{LinksFit};
    ghost use Rattle.effect_store.specs.Stored.{Stored};
    ghost use Rattle.effect_store.specs.Stores.{IsStore, PartRoom};

    ghost Value = { Stored C.Effect };

    ghost view = { λ s. record { sites = s.sites; parts = arranged earlier s.parts.items; room = s.room; update_room = s.update_room } };

    ghost invariant = { λ s. IsStore s.sites s.parts.items (get ⟦<TxId as PartialEq>⟧.eq s.ids) × LinksFit s.parts.items s.links × PartRoom s.room (vec_len s.parts) (vec_capacity s.parts) (spare s.ids) × Roomy s.links s.update_room × AreLists s.sites s.parts.items s.lists × ListRoom s.sites s.room s.lists × AreNewest C.initial C.applied s.sites (spots s.parts.items) (get nat_eq s.newest) × AreNewest C.initial C.applied s.sites (spots s.parts.items) (get nat_eq s.older) × (1 ≤ s.sites) × (s.sites ≤ 8) };
}

impl<C: Crdt> Store<C> {
    /// A store of nothing, with no room, for commit vectors with an entry for each of 1 to 8 sites. Takes no memory.
    pub fn new(alloc: Global, sites: u8) -> Self
        requires least { 1 ≤ sites }
        requires most { sites ≤ 8 }
        ensures sites { result.sites ≡ sites }
        ensures empty { result.parts ≡ [] }
        ensures room { result.room ≡ 0 }
        ensures update_room { result.update_room ≡ 0 }
    {
        Store {
            sites,
            parts: Vec::new(alloc),
            ids: HashMap::new(alloc),
            links: Links::new(alloc),
            lists: [
                Commits::new(alloc),
                Commits::new(alloc),
                Commits::new(alloc),
                Commits::new(alloc),
                Commits::new(alloc),
                Commits::new(alloc),
                Commits::new(alloc),
                Commits::new(alloc),
            ],
            newest: HashMap::new(alloc),
            older: HashMap::new(alloc),
            room: 0,
            update_room: 0,
        }
    }

    /// The number of entries of the commit vectors. Takes no memory, as the calls below up to `insert`.
    pub fn sites(&self) -> u8
        ensures sites { result ≡ self.now.sites }
        ensures least { 1 ≤ self.now.sites }
        ensures most { self.now.sites ≤ 8 }
    {
        self.sites
    }

    /// How many more parts are taken in without memory.
    pub fn room(&self) -> usize
        ensures { result ≡ self.now.room }
    {
        self.room
    }

    /// How many more updates are taken in without memory.
    pub fn update_room(&self) -> usize
        ensures { result ≡ self.now.update_room }
    {
        self.update_room
    }

    /// Whether a part of the transaction is held. One look-up in a hash table.
    pub fn holds(&self, tx: TxId) -> bool
        ensures { result ≡ lists self.now.parts tx }
    {
        self.has(tx).is_some()
    }

    /// The commit vector of a transaction, if a part of it is held. One look-up in a hash table.
    pub fn has(&self, tx: TxId) -> Option<VTime>
        ensures { result ≡ (if lists self.now.parts tx then Some (vector_in self.now.parts tx) else None) }
    {
        match self.ids.get(&tx) {
            Some(at) => Some(self.parts[*at as usize].c),
            None => None,
        }
    }

    /// The updates of an object in fold order, each with its part.
    pub fn of_object<'a>(&'a self, object: &'a ObjectId) -> Updates<'a, C>
        ensures { result ≡ updates_of object.now self.now.parts }
    {
        self.updates(object, None)
    }

    /// The updates of an object in parts that a snapshot doesn't show, in fold order, each with its part.
    pub fn outside<'a>(&'a self, object: &'a ObjectId, snapshot: &VTime) -> Updates<'a, C>
        requires { length snapshot.now ≡ self.now.sites }
        ensures { result ≡ updates_outside object.now snapshot.now self.now.parts }
    {
        self.updates(object, Some(*snapshot))
    }

    fn updates<'a>(&'a self, object: &'a ObjectId, outside: Option<VTime>) -> Updates<'a, C>
        requires { IfSome outside (λ v. length v ≡ self.now.sites) }
        ensures { result ≡ updates_of object.now (filter (is_outside outside) self.now.parts) }
    {
        Updates {
            parts: self.parts.as_slice(),
            links: &self.links,
            at: head(&self.links.first, tag_of(object)),
            object,
            outside,
        }
    }

    /// The parts of a site with a commit time above `lo` and at most `hi`, in the order of the site's stream: by commit time, and
    /// then by transaction. Sites are numbered from 1.
    pub fn between(&self, site: u8, lo: u64, hi: u64) -> Parts<'_, C>
        requires least { 1 ≤ site }
        requires most { site ≤ self.now.sites }
        ensures { result ≡ sorted_by (stream_cmp site) (parts_between site lo hi self.now.parts) }
    {
        let list = &self.lists[site as usize - 1];
        stretch::<C>(self.parts.as_slice(), list.places.as_slice(), site, lo, hi)
    }

    /// Takes one more part in. Takes no memory.
    pub fn insert(&mut self, part: Part<C::Effect>)
        requires room { 1 ≤ self.old.room }
        requires update_room { length part.updates ≤ self.old.update_room }
        requires fresh { lists self.old.parts part.tx ≡ false }
        requires width { length part.c ≡ self.old.sites }
        ensures sites { self.new.sites ≡ self.old.sites }
        ensures parts { self.new.parts ≡ insert_by fold_cmp part self.old.parts }
        ensures room { self.new.room + 1 ≡ self.old.room }
        ensures update_room { self.new.update_room + length part.updates ≡ self.old.update_room }
    {
        let place = self.parts.len() as u32;
        let updates = part.updates.as_slice().len();
        let _room_was_reserved = self.ids.insert(part.tx, place);
        forget(
            self.parts.as_slice(),
            &self.links,
            &mut self.newest,
            &mut self.older,
            &part,
        );
        list_part(
            self.parts.as_slice(),
            &mut self.lists,
            self.sites,
            &part,
            place,
        );
        self.parts.push_reserved(part);
        link_part(self.parts.as_slice(), &mut self.links, place);
        self.room -= 1;
        self.update_room -= updates;
    }

    /// Makes room, so that this many parts with this many updates in all are taken in without memory.
    ///
    /// # Errors
    ///
    /// `AllocError` where memory runs out, or where places would not fit 32 bits. The parts are as before then, and no room is lost.
    pub fn reserve(&mut self, parts: usize, updates: usize) -> Result<(), AllocError>
        ensures sites { self.new.sites ≡ self.old.sites }
        ensures parts { self.new.parts ≡ self.old.parts }
        ensures room { self.old.room ≤ self.new.room }
        ensures update_room { self.old.update_room ≤ self.new.update_room }
        ensures room_reached { OnOk result (parts ≤ self.new.room) }
        ensures update_room_reached { OnOk result (updates ≤ self.new.update_room) }
    {
        make_room(&mut self.parts, &mut self.ids, parts)?;
        commits::make_room(&mut self.lists, self.sites, parts)?;
        self.room = self.room.max(parts);
        self.links.make_room(updates)?;
        self.update_room = self.update_room.max(updates);
        Ok(())
    }

    /// Brings the newest state of the object forward over what the snapshot shows, for the reads that follow. What the store
    /// answers doesn't change. Two states of each object are kept: the newest has what the last snapshot shows before the first
    /// update that it doesn't show, and an older one stays behind for parts that come late.
    ///
    /// # Errors
    ///
    /// `AllocError` where memory runs out.
    pub fn bring_forward(
        &mut self,
        alloc: Global,
        object: &ObjectId,
        snapshot: &VTime,
    ) -> Result<(), AllocError>
        requires width { length snapshot.now ≡ self.old.sites }
        ensures { self.new ≡ self.old }
    {
        advance::<C>(
            alloc,
            self.parts.as_slice(),
            &self.links,
            &mut self.newest,
            &mut self.older,
            object,
            tag_of(object),
            snapshot,
        )
    }

    /// The state of an object at a snapshot as it is kept, where a kept one has all that the snapshot shows.
    pub fn standing(&self, object: &ObjectId, snapshot: &VTime) -> Option<&C::State>
        requires width { length snapshot.now ≡ self.now.sites }
        ensures { IfSome (option_copied result) (λ s. s ≡ folded (C.initial object.now.kind) C.applied (effects_of object.now [] (seen_parts object.now snapshot.now self.now.parts))) }
    {
        standing_state::<C>(
            self.parts.as_slice(),
            &self.links,
            &self.newest,
            object,
            tag_of(object),
            snapshot,
        )
    }

    /// The state of an object at a snapshot. The newest that is kept and that the snapshot shows is brought forward and copied, and
    /// what else the snapshot shows is applied to the copy.
    ///
    /// # Errors
    ///
    /// `AllocError` where memory runs out.
    pub fn state(
        &mut self,
        alloc: Global,
        object: &ObjectId,
        snapshot: &VTime,
    ) -> Result<C::State, AllocError>
        requires width { length snapshot.now ≡ self.old.sites }
        ensures state { IfOk result (λ s. s ≡ folded (C.initial object.now.kind) C.applied (effects_of object.now [] (seen_parts object.now snapshot.now self.old.parts))) }
        ensures same { self.new ≡ self.old }
    {
        self.bring_forward(alloc, object, snapshot)?;
        self.copied(alloc, object, snapshot)
    }

    /// What an object shows at a snapshot. It costs what `state` costs, but where the newest state has all that the snapshot shows it
    /// isn't copied.
    ///
    /// # Errors
    ///
    /// `AllocError` where memory runs out.
    pub fn value(
        &mut self,
        alloc: Global,
        object: &ObjectId,
        snapshot: &VTime,
    ) -> Result<Value, AllocError>
        requires width { length snapshot.now ≡ self.old.sites }
        ensures value { IfOk result (λ v. v ≡ C.value_of (folded (C.initial object.now.kind) C.applied (effects_of object.now [] (seen_parts object.now snapshot.now self.old.parts)))) }
        ensures same { self.new ≡ self.old }
    {
        self.bring_forward(alloc, object, snapshot)?;
        if let Some(state) = self.standing(object, snapshot) {
            return C::value(alloc, state);
        }
        let state = self.copied(alloc, object, snapshot)?;
        C::value(alloc, &state)
    }

    /// The state of an object at a snapshot, made from a copy of a kept one where that serves.
    fn copied(
        &self,
        alloc: Global,
        object: &ObjectId,
        snapshot: &VTime,
    ) -> Result<C::State, AllocError>
        requires width { length snapshot.now ≡ self.now.sites }
        ensures { IfOk result (λ s. s ≡ folded (C.initial object.now.kind) C.applied (effects_of object.now [] (seen_parts object.now snapshot.now self.now.parts))) }
    {
        read_state::<C>(
            alloc,
            self.parts.as_slice(),
            &self.links,
            &self.newest,
            object,
            tag_of(object),
            snapshot,
        )
    }
}

/// Makes room for this many more parts.
fn make_room<E>(
    parts: &mut Vec<Part<E>>,
    ids: &mut HashMap<TxId, u32>,
    n: usize,
) -> Result<(), AllocError>
    ensures parts { parts.new.items ≡ parts.old.items }
    ensures ids { (t : TxId) → get ⟦<TxId as PartialEq>⟧.eq ids.new t ≡ get ⟦<TxId as PartialEq>⟧.eq ids.old t }
    ensures roomy { (m : ℕ) → PartRoom m (vec_len parts.old) (vec_capacity parts.old) (spare ids.old) → PartRoom m (vec_len parts.new) (vec_capacity parts.new) (spare ids.new) }
    ensures ok { OnOk result (PartRoom n (vec_len parts.new) (vec_capacity parts.new) (spare ids.new)) }
{
    if parts.len() > NONE as usize || n > NONE as usize - parts.len() {
        return Err(AllocError);
    }
    parts.reserve(n)?;
    ids.reserve(n)?;
    Ok(())
}
