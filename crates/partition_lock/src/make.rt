ghost use Rattle.std.specs.Prelude.{◌≡◌, ◌≤◌, ◌<◌, ◌+◌, ◌*◌, [], ◌∷◌};
ghost use Rattle.world_model.specs.lines.Places.{IsPlace};
ghost use Rattle.world_model.specs.rules.Partition.{new_part};
ghost use Rattle.seat_rule.specs.Sizes.{places, size};
ghost use Rattle.seat_rule.specs.world.Traces.{word_of};
ghost use Rattle.site_partitions.specs.Reaches.{types_of, StandsAt};
ghost use Rattle.partition_lock.specs.Openings.{unused, place_at};

use crate::counter::Counter;
use crate::desk::Desk;
use crate::law::WorldLaw;
use crate::naming::Naming;
use crate::pass::Pass;
use crate::told::Told;
use crdt_core::Crdt;
use disk_core::Disk;
use partition_core::DurablePartition;
use seat_rule::{Seat, Traces, draw, hand};
use site_vector::PartId;
use std::alloc::Global;
use std::marker::PhantomData;

impl<C: Crdt, D: Disk + Drop, J: Naming> Desk<C, D, J> {
    /// A partition of which nothing was asked, with the seat that writes its trace.
    pub(crate) fn new(
        alloc: Global,
        id: PartId,
        word: usize,
        partition: DurablePartition<C, D>,
        seat: Seat<Told<C::Effect>>,
    ) -> Desk<C, D, J>
        requires table { seat.table_id ≡ J.table }
        requires few { (J.sites ≤ 8) × (J.parts ≤ 16) }
        requires place { IsPlace J.sites J.parts id }
        requires word { (word ≡ word_of J.parts id) × (word < J.sites * J.parts) }
        requires writer { seat.me ≡ unused (word ∷ []) }
        requires new { StandsAt (types_of C.laws C.spells D.state) J.sites J.parts id partition (new_part J.sites J.parts) }
        ensures { result ≡ id }
    {
        Desk {
            alloc,
            id,
            word,
            stamp: 0,
            entries: Vec::new(alloc),
            partition,
            seat,
            of: PhantomData,
        }
    }
}

impl<C: Crdt, J: Naming> Counter<C, J> {
    /// Draws the first number, for a pass that has seen nothing.
    pub(crate) fn new<D: Disk + Drop>(
        traces: &Traces<Told<C::Effect>, WorldLaw<C, D>>,
        word: usize,
        seat: Seat<Told<C::Effect>>,
    ) -> (Counter<C, J>, Pass<C, J>)
        requires here { (traces.now.table_id ≡ J.table) × (traces.now.table_id.words ≡ places traces.now.key + 1) × (traces.now.key ≡ size J.sites J.parts) }
        requires table { seat.table_id ≡ J.table }
        requires word { word ≡ J.sites * J.parts }
        requires writer { seat.me ≡ unused (word ∷ []) }
        ensures lists { result.1.lists ≡ [] }
        ensures numbers { result.1.numbers ≡ 0 ∷ [] }
    {
        let mut seat = seat;
        let number = draw(traces, &mut seat, word);
        let first = hand(traces, &mut seat);
        let counter = Counter {
            word,
            drawn: 1,
            stamp: 0,
            seat,
            of: PhantomData,
        };
        let pass = Pass {
            seat: first,
            stamp: 0,
            least: number,
            of: PhantomData,
        };
        (counter, pass)
    }
}

/// The partition with this word in the table.
pub(crate) fn place_of(word: usize, sites: u8, parts: u8) -> PartId
    requires few { (sites ≤ 8) × (1 ≤ parts) × (parts ≤ 16) }
    requires word { word < sites * parts }
    ensures same { result ≡ place_at parts word }
    ensures place { IsPlace sites parts result }
    ensures at_word { word_of parts result ≡ word }
{
    let parts = usize::from(parts);
    PartId {
        site: (word / parts) as u8 + 1,
        part: (word % parts) as u8 + 1,
    }
}
