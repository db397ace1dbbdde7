ghost use Rattle.std.specs.Prelude.{◌≡◌, ◌≤◌, ◌+◌, ◌*◌, IfOk, IfErr, vec_len, vec_capacity};
ghost use Rattle.crdt_core.specs.KindsOf.{kinds_of};
ghost use Rattle.txn_session.specs.Passes.{Begins};
ghost use Rattle.seat_rule.specs.Sizes.{places, size};
ghost use Rattle.site_partitions.specs.Reaches.{types_of, AreNew};
ghost use Rattle.partition_lock.specs.Calling.{seen_by, holds};
ghost use Rattle.partition_lock.specs.Openings.{IsOpen};

use crate::close::Ended;
use crate::counter::Counter;
use crate::desk::Desk;
use crate::law::WorldLaw;
use crate::naming::Naming;
use crate::pass::Pass;
use crate::seats::seat_all;
use crate::told::Told;
use atomic_table::Table;
use crdt_core::Crdt;
use disk_core::Disk;
use partition_core::DurablePartition;
use seat_rule::{Seat, Size, Traced, View, split_writer};
use std::alloc::{AllocError, Global};
use std::sync::{Condvar, Mutex, Wait};

/// Partitions under locks, which many threads call, and the runtime that their calls wait with.
pub struct Shared<R: Wait + Drop, C: Crdt, D: Disk + Drop, J: Naming> {
    pub(crate) rt: R,
    /// The partitions of each site.
    pub(crate) parts: u8,
    pub(crate) table: Table<u8, View<Told<C::Effect>>, Size, Traced<WorldLaw<C, D>>, Global>,
    /// Site by site.
    pub(crate) desks: Vec<Mutex<Desk<C, D, J>>>,
    /// For each partition, who waits for its clock or for a transaction.
    pub(crate) woken: Vec<Condvar>,
    pub(crate) counter: Mutex<Counter<C, J>>,
    /// Room for the partitions once they are ended.
    pub(crate) ended: Vec<Ended<C, D>>,
    ghost here: { (table.shared.table_id ≡ J.table) × (table.shared.table_id.words ≡ places table.shared.key + 1) × (table.shared.key ≡ size J.sites J.parts) },
    ghost all: { vec_len desks ≡ J.sites * J.parts },
    ghost room: { (vec_len ended ≡ 0) × (J.sites * J.parts ≤ vec_capacity ended) },
}

impl<R: Wait + Drop, C: Crdt, D: Disk + Drop, J: Naming> Shared<R, C, D, J> {
    /// The partitions of a cluster of which nothing was asked, site by site, over an open table, which `J` names; and a pass
    /// that has seen nothing.
    ///
    /// # Errors
    ///
    /// The partitions, where memory runs out.
    pub fn new(
        rt: R,
        alloc: Global,
        sites: u8,
        parts: u8,
        table: Table<u8, View<Told<C::Effect>>, Size, Traced<WorldLaw<C, D>>, Global>,
        seat: Seat<Told<C::Effect>>,
        partitions: Vec<DurablePartition<C, D>>,
    ) -> Result<(Shared<R, C, D, J>, Pass<C, J>), Vec<DurablePartition<C, D>>>
        requires few { (sites ≤ 8) × (1 ≤ parts) × (parts ≤ 16) }
        requires named { (J.sites ≡ sites) × (J.parts ≡ parts) × (J.table ≡ table.shared.table_id) }
        requires open { IsOpen sites parts table.shared.table_id table.shared.key seat.table_id seat.me }
        requires new { AreNew (types_of C.laws C.spells D.state) sites parts (sites * parts) partitions.items }
        ensures begins { IfOk result (λ r. Begins (seen_by (kinds_of C.laws) J.sites J.parts) holds r.0 r.1) }
        ensures err { IfErr result (λ ps. ps.items ≡ partitions.items) }
    {
        let count = usize::from(sites) * usize::from(parts);
        let Ok((mut desks, woken, ended)) = room(alloc, count) else {
            return Err(partitions);
        };
        let mut seat = seat;
        let own = split_writer(&table.shared, &mut seat);
        let (counter, pass) = Counter::new(&table.shared, count, own);
        seat_all(
            alloc,
            &table.shared,
            sites,
            parts,
            seat,
            partitions,
            &mut desks,
        );
        let shared = Shared {
            rt,
            parts,
            table,
            desks,
            woken,
            counter: Mutex::new(counter),
            ended,
        };
        Ok((shared, pass))
    }
}

/// Room for so many partitions, what those who wait for them are woken by, and room for them once they are ended.
fn room<C: Crdt, D: Disk + Drop, J: Naming>(
    alloc: Global,
    count: usize,
) -> Result<(Vec<Mutex<Desk<C, D, J>>>, Vec<Condvar>, Vec<Ended<C, D>>), AllocError>
    ensures { IfOk result (λ r. (vec_len r.0 ≡ 0) × (count ≤ vec_capacity r.0) × (vec_len r.1 ≡ count) × (vec_len r.2 ≡ 0) × (count ≤ vec_capacity r.2)) }
{
    let mut desks = Vec::new(alloc);
    desks.reserve(count)?;
    let mut ended = Vec::new(alloc);
    ended.reserve(count)?;
    let mut woken = Vec::new(alloc);
    for _ in 0..count {
        woken.push(Condvar::new())?;
    }
    Ok((desks, woken, ended))
}
