ghost use Rattle.std.specs.Prelude.{◌≡◌, ◌≤◌, ◌<◌, ◌+◌, length, insert, remove, slice_get, Some, vec_len, vec_capacity};
ghost use Rattle.crdt_core.specs.Orders.{Ascends, is_less, insert_by};
ghost use Rattle.prepared_table.specs.Entries.{entry_cmp, has_entry};
ghost use Rattle.prepared_table.specs.Digest.{digest_of};

use crate::entry::Entry;
use std::cmp::Ordering;

/// Whether an entry comes before another: by prepare time, and then by transaction.
fn comes_before<E>(x: &Entry<E>, y: &Entry<E>) -> bool
    ensures { result ≡ is_less (entry_cmp x.now y.now) }
{
    match x.time.cmp(&y.time).then(x.tx.cmp(&y.tx)) {
        Ordering::Less => true,
        Ordering::Equal => false,
        Ordering::Greater => false,
    }
}

/// Where an entry belongs. It is sought from the end, since prepare times ascend.
pub(crate) fn place<E>(entries: &[Entry<E>], entry: &Entry<E>) -> usize
    requires { Ascends entry_cmp entries.now }
    ensures bound { result ≤ length entries.now }
    ensures place { insert entries.now result entry.now ≡ insert_by entry_cmp entry.now entries.now }
{
    for passed in 0..entries.len() {
        let at = entries.len() - passed;
        if !comes_before(entry, &entries[at - 1]) {
            return at;
        }
    }
    0
}

/// Puts a value at a place. There is room.
pub(crate) fn put_at<T: Drop>(items: &mut Vec<T>, at: usize, item: T)
    requires at { at ≤ vec_len items.old }
    requires room { vec_len items.old < vec_capacity items.old }
    ensures put { items.new.items ≡ insert items.old.items at item }
    ensures len { vec_len items.new ≡ vec_len items.old + 1 }
    ensures capacity { vec_capacity items.old ≤ vec_capacity items.new }
{
    match items.insert(at, item) {
        Ok(()) => {}
        Err(_) => unreachable!(),
    }
}

/// Takes out the value at a place.
pub(crate) fn take_at<T>(items: &mut Vec<T>, at: usize) -> T
    requires { at < vec_len items.old }
    ensures value { slice_get items.old.items at ≡ Some result }
    ensures rest { items.new.items ≡ remove items.old.items at }
    ensures len { vec_len items.new + 1 ≡ vec_len items.old }
    ensures capacity { vec_capacity items.new ≡ vec_capacity items.old }
{
    items.remove(at)
}
