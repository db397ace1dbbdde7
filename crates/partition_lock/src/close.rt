ghost use Rattle.std.specs.Prelude.{◌≡◌, ◌≤◌, ◌<◌, ◌+◌, IfSome, vec_len, vec_capacity};
ghost use Rattle.seat_rule.specs.declared.view.Past.{Past};
ghost use Rattle.seat_rule.specs.Sizes.{places, size};
ghost use Rattle.seat_rule.specs.world.Traces.{word_of};
ghost use Rattle.site_partitions.specs.Reaches.{types_of};
ghost use Rattle.partition_lock.specs.declared.told.Told.{Told as Step};
ghost use Rattle.partition_lock.specs.Closings.{IsWhole, Gathered, kept_by, left_by};

use crate::desk::Desk;
use crate::entry::Entry;
use crate::hear::look;
use crate::law::WorldLaw;
use crate::naming::Naming;
use crate::pass::Pass;
use crate::shared::Shared;
use crate::told::Told;
use crdt_core::Crdt;
use disk_core::Disk;
use partition_core::DurablePartition;
use seat_rule::{Seat, Traces, join};
use std::sync::Wait;

/// A partition that no thread calls any more, and what it kept of its steps, the oldest first.
#[derive(Drop)]
pub struct Ended<C: Crdt, D: Disk + Drop> {
    pub partition: DurablePartition<C, D>,
    pub entries: Vec<Entry>,
}

impl<R: Wait + Drop, C: Crdt, D: Disk + Drop, J: Naming> Shared<R, C, D, J> {
    /// Ends all calls. What the partitions did, site by site, merges into one run of the world, in which stands all that the
    /// pass had seen; each of them stands for what it did.
    ///
    /// `None` only where a lock holds another partition than that of its place, which never comes about: no type says which
    /// value a lock holds.
    pub fn close(self, pass: Pass<C, J>) -> Option<Vec<Ended<C, D>>>
        ensures { IfSome result (λ v. IsWhole (types_of C.laws C.spells D.state) J.sites J.parts kept_by left_by pass v.items) }
    {
        let Shared {
            rt: _,
            parts: _,
            table,
            desks,
            woken: _,
            counter: _,
            ended,
        } = self;
        let mut ended = ended;
        let mut desks = desks;
        let mut seat = pass.seat;
        look::<C, D, J>(&table.shared, &mut seat);
        desks.reverse();
        while let Some(lock) = desks.pop() {
            let desk = lock.into_inner();
            if desk.word != ended.len() {
                return None;
            }
            gather(&table.shared, &mut seat, desk, &mut ended);
        }
        Some(ended)
    }
}

/// Joins the seat of the next partition, which is put behind the others.
fn gather<C: Crdt, D: Disk + Drop, J: Naming>(
    traces: &Traces<Told<C::Effect>, WorldLaw<C, D>>,
    seat: &mut Seat<Told<C::Effect>>,
    desk: Desk<C, D, J>,
    ended: &mut Vec<Ended<C, D>>,
)
    requires here { (traces.now.table_id ≡ J.table) × (traces.now.table_id.words ≡ places traces.now.key + 1) × (traces.now.key ≡ size J.sites J.parts) }
    requires table { seat.old.table_id ≡ J.table }
    requires room { vec_len ended.old < vec_capacity ended.old }
    requires next { word_of J.parts desk ≡ vec_len ended.old }
    ensures same { seat.new.table_id ≡ seat.old.table_id }
    ensures len { vec_len ended.new ≡ vec_len ended.old + 1 }
    ensures capacity { vec_capacity ended.old ≤ vec_capacity ended.new }
    ensures gathers { (p : Past (Step C.Effect)) → Gathered (types_of C.laws C.spells D.state) J.sites J.parts kept_by left_by p ended.old.items seat.old.me.0
        → Gathered (types_of C.laws C.spells D.state) J.sites J.parts kept_by left_by p ended.new.items seat.new.me.0 }
{
    let Desk {
        alloc: _,
        id: _,
        word: _,
        stamp: _,
        entries,
        partition,
        seat: other,
        of: _,
    } = desk;
    join(traces, seat, other);
    look::<C, D, J>(traces, seat);
    let _ = ended.push(Ended { partition, entries });
}
