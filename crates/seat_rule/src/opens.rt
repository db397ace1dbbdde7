ghost use Rattle.std.specs.Prelude.{◌≡◌, ◌≤◌, ◌+◌, [], IfOk, replicate};
ghost use Rattle.seat_rule.specs.Sizes.{places};
ghost use Rattle.seat_rule.specs.Views.{opened};

use crate::rule::{Law, Seat, Size, Traced};
use crate::view::View;
use atomic_table::Table;
use std::alloc::{AllocError, Global};

/// A table of empty traces of so many partitions, at least one, and a seat that writes each trace and draws the
/// numbers.
///
/// `words` are as many zeros, and one more. `AllocError` where the table finds no memory.
pub fn open<T, F: Law<T>>(
    alloc: Global,
    words: &[u64],
    size: Size,
) -> Result<(Table<u8, View<T>, Size, Traced<F>, Global>, Seat<T>), AllocError>
    requires none { F.law size (λ p. []) }
    requires some { 1 ≤ places size }
    requires words { words.now ≡ replicate (places size + 1) 0 }
    ensures { IfOk result (λ r. (r.1.table_id ≡ r.0.shared.table_id) × (r.0.shared.table_id.words ≡ places size + 1)
        × (r.0.shared.key ≡ size) × (r.1.me ≡ (opened (places size), []))) }
{
    Table::<u8, View<T>, Size, Traced<F>, Global>::of_words(alloc, words, &size)
}
