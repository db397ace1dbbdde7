ghost use Rattle.std.specs.Prelude.{◌≡◌, ◌≤◌, ◌==◌, true};
ghost use Rattle.std.specs.List.{list_all};
ghost use Rattle.crdt_core.specs.Fitting.{are_placed_at, fits_part};
ghost use Rattle.log_recovery.specs.Fates.{is_for};

use crate::vectors::{END_OF_TIME, is_vector};
use crdt_core::{Message, Part, Upd, partition_of};
use site_vector::PartId;

/// Whether the objects of these updates stand at the partitions with this number, of so many.
pub(crate) fn are_placed_at<E>(updates: &[Upd<E>], parts: u8, number: u8) -> bool
    requires { 1 ≤ parts }
    ensures { result ≡ are_placed_at parts number updates.now }
{
    for update in updates {
        if partition_of(&update.object, parts) != number {
            return false;
        }
    }
    true
}

/// Whether a message is for a partition, and from another site.
pub(crate) fn is_for<E>(message: &Message<E>, id: PartId, sites: u8) -> bool
    ensures { result ≡ is_for sites id message.now }
{
    message.from != id.site
        && message.from >= 1
        && message.from <= sites
        && message.to == id.site
        && message.part == id.part
        && message.lo <= END_OF_TIME
        && message.hi <= END_OF_TIME
}

/// Whether a part is one of those that a message may have.
fn fits_part<E>(message: &Message<E>, part: &Part<E>, sites: u8, parts: u8) -> bool
    requires least { 1 ≤ message.now.from }
    requires most { message.now.from ≤ sites }
    requires some { 1 ≤ parts }
    ensures { result ≡ fits_part sites parts message.now part.now }
{
    part.tx.site == message.from
        && is_vector(&part.c, sites)
        && are_placed_at(part.updates.as_slice(), parts, message.part)
        && message.lo < part.c.get(message.from)
        && part.c.get(message.from) <= message.hi
}

/// Whether each part of a message is one that it may have.
pub(crate) fn fit_all<E>(message: &Message<E>, sites: u8, parts: u8) -> bool
    requires least { 1 ≤ message.now.from }
    requires most { message.now.from ≤ sites }
    requires some { 1 ≤ parts }
    ensures { result ≡ list_all (fits_part sites parts message.now) message.now.parts }
{
    for part in message.parts.as_slice() {
        if !fits_part(message, part, sites, parts) {
            return false;
        }
    }
    true
}
