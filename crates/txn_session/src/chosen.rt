ghost use Rattle.std.specs.Prelude.{◌≡◌, ◌≤◌, ◌+◌, length, take, [], true, IfOk, OnOk, Bool};
ghost use Rattle.crdt_core.specs.Objects.{same_object};
ghost use Rattle.crdt_core.specs.Placing.{place_of};
ghost use Rattle.world_model.specs.rules.Plan.{is_some_update};
ghost use Rattle.txn_session.specs.Session.{own_updates, updates_of, participants, first_or_zero};

use crate::draft::Draft;
use crdt_core::{Crdt, ObjectId, Upd, UpdateList, copy_update, partition_of};
use field_codec::ListOf;
use std::alloc::{AllocError, Global};

/// The most partitions of a site.
pub const MOST_PARTS: usize = 16;

/// Copies of the updates of an object.
pub fn own_of<C: Crdt>(
    alloc: Global,
    updates: &[Upd<C::Effect>],
    object: &ObjectId,
) -> Result<ListOf<Upd<C::Effect>>, AllocError>
    ensures { IfOk result (λ l. l ≡ own_updates updates.now object.now) }
{
    let mut own = ListOf::new(alloc);
    for update in updates {
        if is_of(update, object) {
            own.push(copy_update::<C>(alloc, update)?)?;
        }
    }
    Ok(own)
}

/// The updates at a partition: where all stand there the draft itself, which is shared then, and else copies.
///
/// # Errors
///
/// `AllocError` where memory runs out. The draft has the same updates.
pub fn part_of<C: Crdt>(
    alloc: Global,
    draft: &mut Draft<C>,
    parts: u8,
    part: u8,
) -> Result<UpdateList<C::Effect>, AllocError>
    requires least { 1 ≤ parts }
    ensures same { draft.new.items ≡ draft.old.items }
    ensures part { IfOk result (λ l. l ≡ updates_of parts draft.old.items part) }
{
    if are_at::<C>(draft.as_slice(), parts, part) {
        return draft.share(alloc);
    }
    let copies = copies_at::<C>(alloc, draft.as_slice(), parts, part)?;
    Ok(UpdateList::new(alloc, copies)?)
}

/// Whether all updates stand at the partition.
fn are_at<C: Crdt>(updates: &[Upd<C::Effect>], parts: u8, part: u8) -> bool
    requires { 1 ≤ parts }
    ensures { result ≡ true → updates_of parts updates.now part ≡ updates.now }
{
    for update in updates {
        if partition_of(&update.object, parts) != part {
            return false;
        }
    }
    true
}

/// Copies of the updates at a partition.
fn copies_at<C: Crdt>(
    alloc: Global,
    updates: &[Upd<C::Effect>],
    parts: u8,
    part: u8,
) -> Result<Vec<Upd<C::Effect>>, AllocError>
    requires least { 1 ≤ parts }
    ensures { IfOk result (λ l. l.items ≡ updates_of parts updates.now part) }
{
    let mut copies = Vec::new(alloc);
    for update in updates {
        if partition_of(&update.object, parts) == part {
            copies.push(copy_update::<C>(alloc, update)?)?;
        }
    }
    Ok(copies)
}

/// Copies of all updates.
pub fn copy_all<C: Crdt>(
    alloc: Global,
    updates: &[Upd<C::Effect>],
) -> Result<Vec<Upd<C::Effect>>, AllocError>
    ensures { IfOk result (λ l. l.items ≡ updates.now) }
{
    let mut copies = Vec::new(alloc);
    for update in updates {
        copies.push(copy_update::<C>(alloc, update)?)?;
    }
    Ok(copies)
}

/// The numbers of the participants of a transaction with these updates, in ascending order, and how many they are.
pub fn participants_of<C: Crdt>(updates: &[Upd<C::Effect>], parts: u8) -> ([u8; MOST_PARTS], usize)
    requires least { 1 ≤ parts }
    requires most { parts ≤ 16 }
    ensures count { result.1 ≤ 16 }
    ensures list { take result.1 result.0 ≡ participants parts updates.now }
{
    let mut list = [0; MOST_PARTS];
    let mut count = 0;
    for k in 0..parts {
        if has_at::<C>(updates, parts, k + 1) {
            list[count] = k + 1;
            count += 1;
        }
    }
    (list, count)
}

/// The first of the numbers, or 0.
pub fn first_of(numbers: &[u8]) -> u8
    ensures { result ≡ first_or_zero numbers.now }
{
    match numbers {
        [first, ..] => *first,
        [] => 0,
    }
}

/// Whether an update stands at the partition.
#[tactic(auto, using(crate::proofs::Counting::some_there))]
fn has_at<C: Crdt>(updates: &[Upd<C::Effect>], parts: u8, part: u8) -> bool
    requires { 1 ≤ parts }
    ensures { result ≡ is_some_update (updates_of parts updates.now part) }
{
    for update in updates {
        if partition_of(&update.object, parts) == part {
            return true;
        }
    }
    false
}

fn is_of<E>(update: &Upd<E>, object: &ObjectId) -> bool
    ensures { result ≡ same_object update.now.object object.now }
{
    update.object == *object
}
