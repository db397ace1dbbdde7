ghost use Rattle.std.specs.Prelude.{◌≡◌, ◌≤◌, ◌<◌, ◌+◌, ◌*◌, vec_len, vec_capacity};
ghost use Rattle.world_model.specs.rules.Partition.{new_part};
ghost use Rattle.seat_rule.specs.Sizes.{places, size};
ghost use Rattle.site_partitions.specs.Reaches.{types_of, AreNew, StandsAt};
ghost use Rattle.partition_lock.specs.Openings.{place_at, unused, words_below};

use crate::desk::Desk;
use crate::law::WorldLaw;
use crate::make::place_of;
use crate::naming::Naming;
use crate::told::Told;
use crdt_core::Crdt;
use disk_core::Disk;
use partition_core::DurablePartition;
use seat_rule::{Seat, Traces, split_writer};
use std::alloc::Global;
use std::sync::Mutex;

/// The partition with this word under a lock, with the seat that writes its trace, the first of those that this seat writes.
fn next_desk<C: Crdt, D: Disk + Drop, J: Naming>(
    alloc: Global,
    traces: &Traces<Told<C::Effect>, WorldLaw<C, D>>,
    sites: u8,
    parts: u8,
    word: usize,
    seat: &mut Seat<Told<C::Effect>>,
    partition: DurablePartition<C, D>,
) -> Desk<C, D, J>
    requires here { (traces.now.table_id ≡ J.table) × (traces.now.table_id.words ≡ places traces.now.key + 1) × (traces.now.key ≡ size J.sites J.parts) }
    requires table { seat.old.table_id ≡ J.table }
    requires named { (J.sites ≡ sites) × (J.parts ≡ parts) }
    requires few { (sites ≤ 8) × (1 ≤ parts) × (parts ≤ 16) }
    requires word { word < sites * parts }
    requires writer { seat.old.me ≡ unused (words_below (word + 1)) }
    requires new { StandsAt (types_of C.laws C.spells D.state) sites parts (place_at parts word) partition (new_part sites parts) }
    ensures same { seat.new.table_id ≡ seat.old.table_id }
    ensures writer { seat.new.me ≡ unused (words_below word) }
{
    let id = place_of(word, sites, parts);
    let own = split_writer(traces, seat);
    Desk::new(alloc, id, word, partition, own)
}

/// Puts the partitions under locks, the last first, each with the seat that writes its trace.
pub(crate) fn seat_all<C: Crdt, D: Disk + Drop, J: Naming>(
    alloc: Global,
    traces: &Traces<Told<C::Effect>, WorldLaw<C, D>>,
    sites: u8,
    parts: u8,
    seat: Seat<Told<C::Effect>>,
    partitions: Vec<DurablePartition<C, D>>,
    desks: &mut Vec<Mutex<Desk<C, D, J>>>,
)
    requires here { (traces.now.table_id ≡ J.table) × (traces.now.table_id.words ≡ places traces.now.key + 1) × (traces.now.key ≡ size J.sites J.parts) }
    requires table { seat.table_id ≡ J.table }
    requires named { (J.sites ≡ sites) × (J.parts ≡ parts) }
    requires few { (sites ≤ 8) × (1 ≤ parts) × (parts ≤ 16) }
    requires writer { seat.me ≡ unused (words_below (sites * parts)) }
    requires new { AreNew (types_of C.laws C.spells D.state) sites parts (sites * parts) partitions.items }
    requires room { vec_len desks.old + sites * parts ≤ vec_capacity desks.old }
    ensures { vec_len desks.new ≡ vec_len desks.old + sites * parts }
{
    let mut seat = seat;
    let mut partitions = partitions;
    while let Some(partition) = partitions.pop() {
        let word = partitions.len();
        let desk = next_desk(alloc, traces, sites, parts, word, &mut seat, partition);
        let _ = desks.push(Mutex::new(desk));
    }
    desks.reverse();
}
