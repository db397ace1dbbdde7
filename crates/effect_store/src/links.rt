ghost use Rattle.std.specs.Prelude.{◌≡◌, ◌++◌, [], ◌∷◌, ℕ, ◌+◌, ◌<◌, ◌≤◌, length, nat_eq, vec_len, vec_capacity, slice_index_or, Some, OnOk};
ghost use Rattle.std.specs.List.{filter, slice_get};
ghost use Rattle.std.specs.Ordering.{nat_cmp, ordering_then};
ghost use Rattle.std.specs.HashMap.{get, spare};
ghost use Rattle.site_vector.specs.Vector.{sum};
ghost use Rattle.crdt_core.specs.Orders.{is_less, fold_cmp};
ghost use Rattle.effect_store.specs.Arranged.{arranged};
ghost use Rattle.effect_store.specs.Chains.{none, Points, after, IsApart};
ghost use Rattle.effect_store.specs.Spots.{tag_of_object, tag_of, later, spots_to, spots, earlier};
ghost use Rattle.effect_store.specs.Links.{AreLinks, AreNone, AreSame, Roomy, capped, spot};

use crate::hooks::{behind, head, hook};
use crate::tags::tag_of;
use crdt_core::{Part, Upd};
use std::alloc::{AllocError, Global};
use std::cmp::Ordering;
use std::collections::HashMap;

/// No place.
pub(crate) const NONE: u32 = u32::MAX;

/// Where an update stands: the place of its part, and its own place in that part's list. Beside it the sum of the part's
/// commit vector as far as 64 bits go, by which a walk tells most updates apart without a look at their parts.
#[derive(Clone, Copy, Debug)]
pub(crate) struct Entry {
    pub(crate) part: u32,
    pub(crate) at: u32,
    pub(crate) total: u64,
}

/// The updates in the order in which they came, and of each the next of its tag in fold order and the one before.
#[derive(Drop)]
pub(crate) struct Links {
    pub(crate) entries: Vec<Entry>,
    pub(crate) next: Vec<u32>,
    pub(crate) back: Vec<u32>,
    pub(crate) first: HashMap<u64, u32>,
    pub(crate) last: HashMap<u64, u32>,
}

impl Links {
    /// No links, with no room. Takes no memory.
    pub(crate) fn new(alloc: Global) -> Links
        ensures empty { AreNone result }
        ensures room { Roomy result 0 }
    {
        Links {
            entries: Vec::new(alloc),
            next: Vec::new(alloc),
            back: Vec::new(alloc),
            first: HashMap::new(alloc),
            last: HashMap::new(alloc),
        }
    }

    /// Makes room for this many more updates.
    ///
    /// # Errors
    ///
    /// `AllocError` where memory runs out, or where places would not fit 32 bits. No room is lost then.
    pub(crate) fn make_room(&mut self, n: usize) -> Result<(), AllocError>
        ensures same { AreSame self.old self.new }
        ensures roomy { (m : ℕ) → Roomy self.old m → Roomy self.new m }
        ensures ok { OnOk result (Roomy self.new n) }
    {
        if self.entries.len() > NONE as usize || n > NONE as usize - self.entries.len() {
            return Err(AllocError);
        }
        self.entries.reserve(n)?;
        self.next.reserve(n)?;
        self.back.reserve(n)?;
        self.first.reserve(n)?;
        self.last.reserve(n)?;
        Ok(())
    }
}

/// A sum as far as 64 bits go.
fn capped(total: u128) -> u64
    ensures { result ≡ capped total }
{
    if total < u64::MAX as u128 {
        total as u64
    } else {
        u64::MAX
    }
}

/// The sum of a part's vector, as far as 64 bits go.
pub(crate) fn total_of<E>(part: &Part<E>) -> u64
    ensures { result ≡ capped (sum part.now.c) }
{
    capped(part.c.sum())
}

/// Fold order.
pub(crate) fn fold_order<E>(p: &Part<E>, q: &Part<E>) -> Ordering
    ensures { result ≡ fold_cmp p.now q.now }
{
    p.c.sum().cmp(&q.c.sum()).then(p.tx.cmp(&q.tx))
}

/// Whether the update at a place of a part comes before that at a place of another.
fn comes_before<E>(p: &Part<E>, i: u32, q: &Part<E>, j: u32) -> bool
    ensures { result ≡ is_less (ordering_then (fold_cmp p.now q.now) (nat_cmp i j)) }
{
    match fold_order(p, q).then(i.cmp(&j)) {
        Ordering::Less => true,
        _ => false,
    }
}

/// Whether the update that an entry names comes before that at a place of a part, the sum of whose vector is known: a
/// walk asks this again and again of one part.
#[tactic(auto, using(crate::proofs::Ordering::less_sum, crate::proofs::Ordering::greater_sum))]
pub(crate) fn entry_comes_before<E>(
    parts: &[Part<E>],
    entry: Entry,
    part: &Part<E>,
    total: u64,
    at: u32,
) -> bool
    requires there { entry.part < length parts.now }
    requires known { (q : Part E) → slice_get parts.now entry.part ≡ Some q → entry.total ≡ capped (sum q.c) }
    requires total { total ≡ capped (sum part.now.c) }
    ensures { (q : Part E) → slice_get parts.now entry.part ≡ Some q → result ≡ is_less (ordering_then (fold_cmp q part.now) (nat_cmp entry.at at)) }
{
    match entry.total.cmp(&total) {
        Ordering::Less => true,
        Ordering::Greater => false,
        Ordering::Equal => comes_before(&parts[entry.part as usize], entry.at, part, at),
    }
}

/// The place of the last update of the tag that comes before that at a place of a part, or `NONE`: a walk from the newest.
fn last_before<E>(
    parts: &[Part<E>],
    links: &Links,
    place: u32,
    part: &Part<E>,
    total: u64,
    at: u32,
    update: &Upd<E>,
    tag: u64,
) -> u32
    requires linked { AreLinks (spots_to parts.now place at) parts.now links.now }
    requires small { vec_len links.now.entries ≤ none }
    requires tagged { tag ≡ tag_of_object update.now.object }
    requires total { total ≡ capped (sum part.now.c) }
    ensures { Points (spots_to parts.now place at) result (filter (after tag_of later (spot part.now at update.now)) (arranged later (spots_to parts.now place at))) }
{
    let mut k = head(&links.last, tag);
    while (k as usize) < links.entries.len() {
        if entry_comes_before(parts, links.entries[k as usize], part, total, at) {
            return k;
        }
        k = links.back[k as usize];
    }
    k
}

/// Links the update at a place of the part at a place: those before it are linked.
fn link_update<E>(parts: &[Part<E>], links: &mut Links, place: u32, at: u32)
    requires linked { AreLinks (spots_to parts.now place at) parts.now links.old }
    requires apart { IsApart earlier parts.now }
    requires there { (p : Part E) × (slice_get parts.now place ≡ Some p) × (at < length p.updates) }
    requires room { Roomy links.old 1 }
    ensures linked { AreLinks (spots_to parts.now place (at + 1)) parts.now links.new }
    ensures room { (n : ℕ) → Roomy links.old (n + 1) → Roomy links.new n }
{
    let part = &parts[place as usize];
    let update = &part.updates.as_slice()[at as usize];
    let tag = tag_of(&update.object);
    let own = links.entries.len() as u32;
    let total = total_of(part);
    let prior = last_before(parts, links, place, part, total, at, update, tag);
    let then = behind(links.next.as_slice(), &links.first, prior, tag);
    hook(&mut links.next, &mut links.first, prior, tag, own, then);
    hook(&mut links.back, &mut links.last, then, tag, own, prior);
    links.entries.push_reserved(Entry {
        part: place,
        at,
        total,
    });
}

/// Links the updates of the part at a place: those of the parts before it are linked.
pub(crate) fn link_part<E>(parts: &[Part<E>], links: &mut Links, place: u32)
    requires last { place + 1 ≡ length parts.now }
    requires linked { AreLinks (spots_to parts.now place 0) parts.now links.old }
    requires apart { IsApart earlier parts.now }
    requires room { (p : Part E) → slice_get parts.now place ≡ Some p → Roomy links.old (length p.updates) }
    ensures linked { AreLinks (spots parts.now) parts.now links.new }
    ensures room { (n : ℕ) (p : Part E) → slice_get parts.now place ≡ Some p → Roomy links.old (n + length p.updates) → Roomy links.new n }
{
    let count = parts[place as usize].updates.as_slice().len() as u32;
    for at in 0..count {
        link_update(parts, links, place, at);
    }
}
