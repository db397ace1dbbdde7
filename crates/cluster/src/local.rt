use crdt_core::Crdt;
use disk_core::Disk;
use site_partitions::Sites;
use std::alloc::Global;
use std::marker::Model;

/// The partitions of a cluster, which one thread alone calls.
#[derive(Drop)]
pub(crate) struct Local<C: Crdt, D: Disk + Drop> {
    pub(crate) alloc: Global,
    pub(crate) all: Sites<C, D>,
}

impl<C: Crdt, D: Disk + Drop> Model for Local<C, D> {
    ghost use Rattle.site_partitions.specs.Held.{Held};

    ghost Value = { Held C.Effect D };

    ghost view = { λ s. s.all };
}
