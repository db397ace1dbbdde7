ghost use Rattle.std.specs.Prelude.{◌≡◌, ◌≤◌, ◌+◌, ◌++◌, length, vec_len, option_to_list, MatchOption, IfOk, IfSome, OnOk, OnErr};
ghost use Rattle.crdt_core.specs.KindsOf.{kinds_of};
ghost use Rattle.crdt_core.specs.Orders.{sorted_by, stream_cmp};
ghost use Rattle.crdt_core.specs.Parts.{parts_between};
ghost use Rattle.world_model.specs.rules.Event.{Sent};
ghost use Rattle.world_model.specs.lines.Places.{IsOther};
ghost use Rattle.partition_core.specs.Messages.{CanPut, inserted, start_of, updates_in};
ghost use Rattle.partition_core.specs.Steps.{Anything, Steps};

use crate::Partition;
use crate::report::own_bound;
use crdt_core::{Crdt, Message, Part, share_part};
use effect_store::Store;
use field_codec::ListOf;
use std::alloc::{AllocError, Global};

/// After how many parts memory is let go.
const PARTS_BETWEEN: usize = 4096;

impl<C: Crdt> Partition<C> {
    /// A message to another site, up to the own bound: all that was committed here above a time that is given, or else
    /// above the end of the last message to that site.
    ///
    /// # Errors
    ///
    /// `AllocError` where memory runs out. The partition is as before then.
    pub fn release(
        &mut self,
        alloc: Global,
        to: u8,
        from: Option<u64>,
    ) -> Result<Message<C::Effect>, AllocError>
        requires { IsOther self.old.sites self.old.id.site to }
        ensures sent { IfOk result (λ m. Steps (kinds_of C.laws) self.old Anything (λ e. e ≡ Sent from m) self.new) }
        ensures to { IfOk result (λ m. m.to ≡ to) }
        ensures same { OnErr result (self.new ≡ self.old) }
    {
        let id = self.id;
        let lo = start_of(from, self.sent.get(to));
        let hi = own_bound(&self.clock, &self.prepared);
        let parts = copy_between(alloc, &self.store, id.site, lo, hi)?;
        self.sent = self.sent.with(to, hi);
        Ok(Message {
            from: id.site,
            to,
            part: id.part,
            lo,
            hi,
            parts,
        })
    }
}

/// Where a message starts: at what is asked, or else at the end of the last one.
fn start_of(asked: Option<u64>, last: u64) -> u64
    ensures { result ≡ start_of asked last }
{
    match asked {
        Some(time) => time,
        None => last,
    }
}

/// The parts of a site with a commit time above `lo` and at most `hi`, in the order of the site's stream.
///
/// # Errors
///
/// `AllocError` where memory runs out.
fn copy_between<C: Crdt>(
    alloc: Global,
    store: &Store<C>,
    site: u8,
    lo: u64,
    hi: u64,
) -> Result<ListOf<Part<C::Effect>>, AllocError>
    requires least { 1 ≤ site }
    requires most { site ≤ store.now.sites }
    ensures { IfOk result (λ l. l ≡ sorted_by (stream_cmp site) (parts_between site lo hi store.now.parts)) }
{
    let mut all = ListOf::new(alloc);
    for part in store.between(site, lo, hi) {
        all.push(share_part(part)?)?;
    }
    Ok(all)
}

/// How many updates are in parts, unless they are too many to count.
fn count_updates<E>(parts: &[Part<E>]) -> Option<usize>
    ensures { IfSome result (λ n. n ≡ updates_in parts.now) }
{
    let mut all = 0usize;
    for part in parts {
        all = all.checked_add(part.updates.as_slice().len())?;
    }
    Some(all)
}

/// Takes memory for parts, beside that for what is pending with its updates.
///
/// # Errors
///
/// `AllocError` where memory runs out. What is held is as before, and there is no less room.
pub(crate) fn make_room<C: Crdt>(
    store: &mut Store<C>,
    pending: usize,
    promised: usize,
    parts: &[Part<C::Effect>],
) -> Result<(), AllocError>
    ensures sites { store.new.sites ≡ store.old.sites }
    ensures held { store.new.parts ≡ store.old.parts }
    ensures room { store.old.room ≤ store.new.room }
    ensures update_room { store.old.update_room ≤ store.new.update_room }
    ensures room_reached { OnOk result (pending + length parts.now ≤ store.new.room) }
    ensures update_room_reached { OnOk result (promised + updates_in parts.now ≤ store.new.update_room) }
{
    let Some(updates) = count_updates(parts) else {
        return Err(AllocError);
    };
    let (Some(places), Some(all)) = (
        pending.checked_add(parts.len()),
        promised.checked_add(updates),
    ) else {
        return Err(AllocError);
    };
    store.reserve(places, all)
}

/// Puts parts in their places. There is room. Takes no memory.
pub(crate) fn put_all<C: Crdt>(store: &mut Store<C>, parts: Vec<Part<C::Effect>>)
    requires { CanPut parts.items store.old }
    ensures sites { store.new.sites ≡ store.old.sites }
    ensures parts { store.new.parts ≡ inserted parts.items store.old.parts }
    ensures room { store.new.room + length parts.items ≡ store.old.room }
    ensures update_room { store.new.update_room + updates_in parts.items ≡ store.old.update_room }
{
    let mut left = parts;
    // A part that comes last is put in one step, and the parts of a message ascend.
    left.reverse();
    while let Some(part) = take_last(&mut left) {
        store.insert(part);
    }
}

/// Takes the last of some parts. From time to time the memory goes that held what was taken before, so that many parts
/// don't take it twice while they move.
fn take_last<E>(parts: &mut Vec<Part<E>>) -> Option<Part<E>>
    ensures items { parts.old.items ≡ parts.new.items ++ option_to_list result }
    ensures cases { MatchOption result ((vec_len parts.old ≡ 0) × (vec_len parts.new ≡ 0)) (λ _. vec_len parts.new + 1 ≡ vec_len parts.old) }
{
    if parts.len() % PARTS_BETWEEN == 0 {
        parts.shrink_to_fit();
    }
    parts.pop()
}
