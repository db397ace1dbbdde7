// A partition as the log of its disk tells it, when that is read again.
ghost use Rattle.std.specs.Prelude.{◌≡◌, ◌≤◌, List, IfOk};
ghost use Rattle.crdt_core.specs.declared.record.Record.{Record};
ghost use Rattle.log_recovery.specs.Lists.{AreSingle};
ghost use Rattle.log_recovery.specs.Rising.{Rises};
ghost use Rattle.log_recovery.specs.Told.{IsToldBy};
ghost use Rattle.partition_core.specs.Recovered.{IsTableOf, resumed};
ghost use Rattle.partition_core.specs.Stands.{Stands};

use crate::Partition;
use crate::stream::{make_room, put_all};
use crdt_core::Crdt;
use effect_store::Store;
use field_codec::ListOf;
use log_recovery::Rebuilt;
use prepared_table::{Entry, Leased, Prepared};
use site_vector::{PartId, VTime};
use stable_gossip::Matrix;
use std::alloc::{AllocError, Global};

impl<C: Crdt> Partition<C> {
    /// The partition that a log tells of. Its clock shows the ceiling, and it has heard nothing and sent nothing.
    ///
    /// # Errors
    ///
    /// `AllocError` where memory runs out.
    pub(crate) fn recovered(
        alloc: Global,
        id: PartId,
        sites: u8,
        parts: u8,
        told: Rebuilt<C::Effect>,
    ) -> Result<Partition<C>, AllocError>
        requires least_site { 1 ≤ id.site }
        requires most_site { id.site ≤ sites }
        requires most_sites { sites ≤ 8 }
        requires least_part { 1 ≤ id.part }
        requires most_part { id.part ≤ parts }
        requires most_parts { parts ≤ 16 }
        requires told { (log : List (Record C.Effect)) × IsToldBy sites parts id log told }
        ensures place { IfOk result (λ p. (p.id ≡ id) × (p.sites ≡ sites) × (p.parts ≡ parts)) }
        ensures stands { IfOk result (λ p. (log : List (Record C.Effect)) → IsToldBy sites parts id log told → Rises log → Stands p (resumed sites parts told.bounds log)) }
    {
        let (prepared, promised) = await_all(alloc, told.pending)?;
        let mut store = Store::new(alloc, sites);
        let committed = told.committed.into_vec();
        let pending = prepared.entries().len();
        make_room(&mut store, pending, promised, committed.as_slice())?;
        put_all(&mut store, committed);
        Ok(Partition {
            id,
            sites,
            parts,
            clock: Leased::new(told.ceiling, told.ceiling),
            prepared,
            promised,
            store,
            bounds: told.bounds,
            gossip: Matrix::new(sites, parts),
            sent: VTime::zero(sites),
        })
    }
}

/// A table of these entries, and how many updates they have.
///
/// # Errors
///
/// `AllocError` where memory runs out.
fn await_all<E: Drop>(
    alloc: Global,
    entries: ListOf<Entry<E>>,
) -> Result<(Prepared<E>, usize), AllocError>
    requires { AreSingle entries }
    ensures { IfOk result (λ x. IsTableOf entries x.0.entries x.1) }
{
    let mut prepared = Prepared::new(alloc);
    let mut promised = 0usize;
    prepared.reserve(entries.as_slice().len())?;
    for entry in entries.into_vec() {
        let Some(all) = promised.checked_add(entry.updates.as_slice().len()) else {
            return Err(AllocError);
        };
        prepared.add(entry);
        promised = all;
    }
    Ok((prepared, promised))
}
