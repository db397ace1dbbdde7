ghost use Rattle.std.specs.Prelude.{◌≡◌, ◌≤◌, reverse, IfOk};
ghost use Rattle.crdt_core.specs.Fitting.{unfit};
ghost use Rattle.crdt_core.specs.Log.{ceiling};

use crate::seen::Seen;
use crdt_core::Record;
use site_vector::PartId;
use std::alloc::{AllocError, Global};

/// The number of the first record of a log, from 0, the oldest, that doesn't fit a partition, in a cluster of 1 to 8
/// sites with so many partitions each: none where all fit.
///
/// # Errors
///
/// `AllocError` where memory runs out.
pub fn unfit<E>(
    alloc: Global,
    records: &[Record<E>],
    id: PartId,
    sites: u8,
    parts: u8,
) -> Result<Option<usize>, AllocError>
    requires least { 1 ≤ sites }
    requires most { sites ≤ 8 }
    requires first { 1 ≤ id.site }
    requires last { id.site ≤ sites }
    requires some { 1 ≤ parts }
    ensures { IfOk result (λ first. first ≡ unfit sites parts id (reverse records.now)) }
{
    let top = ceiling_of(records);
    let mut seen = Seen::new(alloc, id, sites, parts, top);
    for (number, record) in records.iter().enumerate() {
        if !seen.see(record)? {
            return Ok(Some(number));
        }
    }
    Ok(None)
}

/// The ceiling of the last lease among the records of a log, oldest first, in logical ticks: 0 where there is none.
pub fn ceiling_of<E>(records: &[Record<E>]) -> u64
    ensures { result ≡ ceiling (reverse records.now) }
{
    let mut top = 0;
    for record in records {
        if let Record::Lease { ceil } = record {
            top = *ceil;
        }
    }
    top
}
