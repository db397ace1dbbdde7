ghost use Rattle.std.specs.Prelude.{◌≡◌, ◌<◌, ◌&&◌, Bool, None, MatchOption, length, slice_get, map, leb};
ghost use Rattle.site_vector.specs.Ids.{same_tx};
ghost use Rattle.crdt_core.specs.Parts.{touches};
ghost use Rattle.prepared_table.specs.Entries.{has_entry, found, first_on};
ghost use Rattle.prepared_table.specs.Digest.{digest_of, bit_of};

use crate::digest::{bit_of, touches};
use crate::entry::Entry;
use crdt_core::ObjectId;
use site_vector::TxId;

/// Whether two transactions are one.
fn same(t: TxId, u: TxId) -> bool
    ensures { result ≡ same_tx t u }
{
    t.time == u.time && t.part == u.part && t.site == u.site
}

/// Where the first entry of a transaction stands.
pub(crate) fn find<E>(entries: &[Entry<E>], tx: TxId) -> Option<usize>
    ensures { MatchOption result (found tx entries.now ≡ None)
        (λ i. (i < length entries.now) × (found tx entries.now ≡ slice_get entries.now i)) }
{
    for (i, entry) in entries.iter().enumerate() {
        if same(entry.tx, tx) {
            return Some(i);
        }
    }
    None
}

/// Whether an entry changes the object and has a time of at most `upto`.
fn is_on<E>(entry: &Entry<E>, digest: u128, object: &ObjectId, bit: u32, upto: u64) -> bool
    requires digest { digest ≡ digest_of entry.now }
    requires bit { bit ≡ bit_of object.now }
    requires most { bit < 128 }
    ensures { result ≡ (touches entry.now.updates object.now && leb entry.now.time upto) }
{
    entry.time <= upto && touches(entry.updates.as_slice(), digest, object, bit)
}

/// The first entry that changes the object and has a time of at most `upto`. A digest of its own stands for each.
pub(crate) fn first_on<E>(
    entries: &[Entry<E>],
    digests: &[u128],
    object: &ObjectId,
    upto: u64,
) -> Option<(TxId, u64)>
    requires { digests.now ≡ map digest_of entries.now }
    ensures { result ≡ first_on object.now upto entries.now }
{
    let bit = bit_of(object);
    for i in 0..entries.len() {
        let entry = &entries[i];
        if is_on(entry, digests[i], object, bit, upto) {
            return Some((entry.tx, entry.time));
        }
    }
    None
}
