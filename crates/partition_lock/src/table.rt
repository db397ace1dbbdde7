ghost use Rattle.std.specs.Prelude.{◌≡◌, ◌≤◌, IfOk, replicate};
ghost use Rattle.partition_lock.specs.Openings.{IsOpen};

use crate::law::WorldLaw;
use crate::told::Told;
use atomic_table::Table;
use crdt_core::Crdt;
use disk_core::Disk;
use seat_rule::{Seat, Size, Traced, View};
use std::alloc::{AllocError, Global};

/// A table of empty traces, one for each partition of these sites, and the seat that writes all of them. Who calls names the
/// table then, for all that has to agree on it.
///
/// # Errors
///
/// `AllocError` where memory runs out.
pub fn open_table<C: Crdt, D: Disk + Drop>(
    alloc: Global,
    sites: u8,
    parts: u8,
) -> Result<
    (
        Table<u8, View<Told<C::Effect>>, Size, Traced<WorldLaw<C, D>>, Global>,
        Seat<Told<C::Effect>>,
    ),
    AllocError,
>
    requires least_site { 1 ≤ sites }
    requires least_part { 1 ≤ parts }
    ensures { IfOk result (λ r. IsOpen sites parts r.0.shared.table_id r.0.shared.key r.1.table_id r.1.me) }
{
    let size = Size {
        sites: u64::from(sites),
        parts: u64::from(parts),
    };
    let words = zeros(alloc, usize::from(sites) * usize::from(parts) + 1)?;
    seat_rule::open::<Told<C::Effect>, WorldLaw<C, D>>(alloc, words.as_slice(), size)
}

/// So many zeros.
fn zeros(alloc: Global, count: usize) -> Result<Vec<u64>, AllocError>
    ensures { IfOk result (λ v. v.items ≡ replicate count 0) }
{
    vec![in alloc; 0; count]
}
