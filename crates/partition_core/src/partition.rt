ghost use Rattle.std.specs.Prelude.{◌≡◌, ◌≤◌};
ghost use Rattle.site_vector.specs.Vector.{entry};
ghost use Rattle.crdt_core.specs.Log.{end_of_time};
ghost use Rattle.prepared_table.specs.Entries.{first_on, has_entry};
ghost use Rattle.world_model.specs.rules.Partition.{new_part};
ghost use Rattle.world_model.specs.lines.Places.{IsPlace};
ghost use Rattle.partition_core.specs.Stands.{Stands};
ghost use Rattle.partition_core.specs.Tables.{knows};

use crdt_core::{Crdt, ObjectId};
use effect_store::Store;
use prepared_table::{Entry, Leased, Prepared};
use site_vector::{PartId, TxId, VTime};
use stable_gossip::Matrix;
use std::alloc::Global;
use std::marker::Model;

/// What a partition keeps in memory, of the site and with the number of its place. Sites and partitions are numbered
/// from 1, and times are in logical ticks.
///
/// Contracts see its tables (`Tables`), and say of each call that whatever state of a partition the tables stood for
/// (`Stands`) took a step of the world's step relation, which the answer shows, and that they stand for the state after
/// it (`Steps`).
#[derive(Drop)]
pub(crate) struct Partition<C: Crdt> {
    pub(crate) id: PartId,
    pub(crate) sites: u8,
    pub(crate) parts: u8,
    pub(crate) clock: Leased,
    pub(crate) prepared: Prepared<C::Effect>,
    /// How many updates are pending. The store has room for them.
    pub(crate) promised: usize,
    pub(crate) store: Store<C>,
    pub(crate) bounds: VTime,
    pub(crate) gossip: Matrix,
    pub(crate) sent: VTime,
}

impl<C: Crdt> Model for Partition<C> {
    ghost use Rattle.partition_core.specs.Tables.{Tables};
    ghost use Rattle.partition_core.specs.Sound.{IsSound};

    ghost Value = { Tables C.Effect };

    ghost view = { λ p. record { id = p.id; sites = p.sites; parts = p.parts; clock = p.clock.clock; ceiling = p.clock.ceiling; pending = p.prepared.entries; held = p.store.parts; bounds = p.bounds; heard = p.gossip.heard; sent = p.sent } };

    ghost invariant = { λ p. IsSound p.id p.sites p.parts p.bounds p.sent p.prepared.entries p.promised p.store p.gossip.sites p.gossip.parts };
}

impl<C: Crdt> Partition<C> {
    /// A new partition, which holds nothing. Takes no memory.
    pub fn make(alloc: Global, id: PartId, sites: u8, parts: u8) -> Partition<C>
        requires least_site { 1 ≤ id.site }
        requires most_site { id.site ≤ sites }
        requires most_sites { sites ≤ 8 }
        requires least_part { 1 ≤ id.part }
        requires most_part { id.part ≤ parts }
        requires most_parts { parts ≤ 16 }
        ensures place { (result.id ≡ id) × (result.sites ≡ sites) × (result.parts ≡ parts) }
        ensures stands { Stands result (new_part sites parts) }
    {
        Partition {
            id,
            sites,
            parts,
            clock: Leased::new(0, 0),
            prepared: Prepared::new(alloc),
            promised: 0,
            store: Store::new(alloc, sites),
            bounds: VTime::zero(sites),
            gossip: Matrix::new(sites, parts),
            sent: VTime::zero(sites),
        }
    }

    /// The time that its clock shows.
    pub fn now(&self) -> u64
        ensures clock { result ≡ self.now.clock }
        ensures most { result ≤ end_of_time }
    {
        self.clock.now()
    }

    /// The pending transactions, in the order of prepare time and then of transaction.
    pub fn pending(&self) -> &[Entry<C::Effect>]
        ensures { result.now ≡ self.now.pending }
    {
        self.prepared.entries()
    }

    /// The first pending transaction, in order, that changes the object and is prepared by `upto`: its id and its
    /// prepare time.
    pub fn pending_on(&self, object: &ObjectId, upto: u64) -> Option<(TxId, u64)>
        ensures { result ≡ first_on object.now upto self.now.pending }
    {
        self.prepared.on(object, upto)
    }

    /// Whether a transaction is pending here.
    pub fn is_pending(&self, tx: TxId) -> bool
        ensures { result ≡ has_entry self.now.pending tx }
    {
        match self.prepared.get(tx) {
            Some(_entry) => true,
            None => false,
        }
    }

    /// Whether a transaction is pending or held here.
    pub fn knows(&self, tx: TxId) -> bool
        ensures { result ≡ knows self.now tx }
    {
        if let Some(_entry) = self.prepared.get(tx) {
            return true;
        }
        match self.store.has(tx) {
            Some(_c) => true,
            None => false,
        }
    }

    /// Up to where the messages of a site were taken.
    pub fn bound(&self, site: u8) -> u64
        requires least { 1 ≤ site }
        requires most { site ≤ self.now.sites }
        ensures { result ≡ entry self.now.bounds site }
    {
        self.bounds.get(site)
    }

    /// The partition's place, the number of sites, and the number of partitions of each.
    pub(crate) fn place(&self) -> (PartId, u8, u8)
        ensures is { (result.0 ≡ self.now.id) × (result.1 ≡ self.now.sites) × (result.2 ≡ self.now.parts) }
        ensures lies { IsPlace result.1 result.2 result.0 × (result.1 ≤ 8) × (result.2 ≤ 16) }
    {
        (self.id, self.sites, self.parts)
    }
}
