use crate::entry::Entry;
use crate::naming::Naming;
use crate::told::Told;
use crdt_core::Crdt;
use disk_core::Disk;
use partition_core::DurablePartition;
use seat_rule::Seat;
use site_vector::PartId;
use std::alloc::Global;
use std::marker::{Model, PhantomData};

/// A partition under its lock, with the entries of its steps and the seat of its trace's writer.
#[derive(Drop)]
pub struct Desk<C: Crdt, D: Disk + Drop, J: Naming> {
    pub(crate) alloc: Global,
    pub(crate) id: PartId,
    /// Its word in the table.
    pub(crate) word: usize,
    /// The greatest stamp that it has seen.
    pub(crate) stamp: u128,
    pub(crate) entries: Vec<Entry>,
    pub(crate) partition: DurablePartition<C, D>,
    pub(crate) seat: Seat<Told<C::Effect>>,
    pub(crate) of: PhantomData<J>,
}

impl<C: Crdt, D: Disk + Drop, J: Naming> Model for Desk<C, D, J> {
    ghost use Rattle.std.specs.Prelude.{◌≡◌, ◌<◌, ◌*◌};
    ghost use Rattle.site_vector.specs.declared.ids.PartId.{PartId as Place};
    ghost use Rattle.site_partitions.specs.Reaches.{types_of};
    ghost use Rattle.seat_rule.specs.world.Traces.{word_of};
    ghost use Rattle.partition_lock.specs.Desks.{IsWriter, StandsFor};

    ghost Value = { Place };

    ghost view = { λ d. d.id };

    ghost invariant = { λ d. (d.seat.table_id ≡ J.table) × (d.word ≡ word_of J.parts d.id) × (d.word < J.sites * J.parts)
        × IsWriter J.sites J.parts d.id d.stamp d.entries.items d.seat.me
        × StandsFor (types_of C.laws C.spells D.state) J.sites J.parts d.id d.partition d.seat.me.0.past };
}
