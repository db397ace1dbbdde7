ghost use Rattle.std.specs.Prelude.{⊤};
ghost use Rattle.crdt_core.specs.KindsOf.{kinds_of};
ghost use Rattle.seat_rule.specs.world.Traces.{IsLawful};
ghost use Rattle.site_partitions.specs.Reaches.{types_of, PutsEvent};
ghost use Rattle.partition_lock.specs.Events.{event_of};

use crate::told::Told;
use crdt_core::Crdt;
use disk_core::Disk;
use seat_rule::{Law, Notes};
use std::marker::{Brand, PhantomData};

/// Traces are those of a world with these kinds, and what they show can be put into a log.
pub struct WorldLaw<C, D> {
    of: PhantomData<(C, D)>,
}

impl<C: Crdt, D: Disk + Drop> Law<Told<C::Effect>> for WorldLaw<C, D> {
    ghost law = { λ k. IsLawful event_of k.sites k.parts (kinds_of C.laws) (PutsEvent (types_of C.laws C.spells D.state)) };
}

/// Each call picks what its step is like.
impl<E> Notes<Told<E>> for Brand {
    ghost like = { λ n. ⊤ };
}
