ghost use Rattle.std.specs.Prelude.{◌≡◌, ◌≢◌, ◌+◌, ◌≤◌, ◌<◌, ◌++◌, ◌∷◌, [], ◌==◌, ℕ, length, true, not, nat_le, leb, ltb, take, drop, vec_len, vec_capacity, Some, OnOk, ◌&&◌};
ghost use Rattle.std.specs.List.{slice_get, filter};
ghost use Rattle.std.specs.Iterator.{YieldsFirstRef, item_count};
ghost use Rattle.site_vector.specs.Vector.{entry};
ghost use Rattle.crdt_core.specs.Orders.{stream_cmp};
ghost use Rattle.effect_store.specs.Arranged.{Each, Rises};
ghost use Rattle.effect_store.specs.Commits.{sooner, is_of, at_places, AreWithin, IsList};
ghost use Rattle.effect_store.specs.Listed.{AreLists, ListRoom, SameLists};
ghost use Rattle.effect_store.specs.Applied.{AreWide};

use crdt_core::{Crdt, Part};
use std::alloc::{AllocError, Global};
use std::cmp::Ordering;
use std::marker::Model;

/// The order of a site's stream.
fn stream_order<E>(site: u8, p: &Part<E>, q: &Part<E>) -> Ordering
    requires least { 1 ≤ site }
    requires first { site ≤ length p.now.c }
    requires second { site ≤ length q.now.c }
    ensures { result ≡ stream_cmp site p.now q.now }
{
    p.c.get(site).cmp(&q.c.get(site)).then(p.tx.cmp(&q.tx))
}

/// Whether a part comes before another in a site's stream.
fn comes_sooner<E>(site: u8, p: &Part<E>, q: &Part<E>) -> bool
    requires least { 1 ≤ site }
    requires first { site ≤ length p.now.c }
    requires second { site ≤ length q.now.c }
    ensures { result ≡ sooner site p.now q.now }
{
    match stream_order(site, p, q) {
        Ordering::Less => true,
        _ => false,
    }
}

/// Where a part goes among the commits of its site: a walk from the newest.
fn place_of<E>(parts: &[Part<E>], list: &[u32], site: u8, part: &Part<E>) -> usize
    requires least { 1 ≤ site }
    requires width { site ≤ length part.now.c }
    requires wide { Each (λ p. nat_le site (length p.c)) parts.now }
    requires within { AreWithin parts.now list.now }
    requires rising { Rises (sooner site) (at_places parts.now list.now) }
    ensures most { result ≤ length list.now }
    ensures before { Each (λ q. not (sooner site part.now q)) (take result (at_places parts.now list.now)) }
    ensures after { Each (sooner site part.now) (drop result (at_places parts.now list.now)) }
{
    let mut at = list.len();
    while at > 0 {
        if !comes_sooner(site, part, &parts[list[at - 1] as usize]) {
            return at;
        }
        at -= 1;
    }
    at
}

/// How many of the listed parts have a commit time at their site of at most a bound: those in front. A search by halves.
pub(crate) fn count_up_to<E>(parts: &[Part<E>], list: &[u32], site: u8, bound: u64) -> usize
    requires least { 1 ≤ site }
    requires wide { Each (λ p. nat_le site (length p.c)) parts.now }
    requires within { AreWithin parts.now list.now }
    requires rising { Rises (sooner site) (at_places parts.now list.now) }
    ensures most { result ≤ length list.now }
    ensures before { Each (λ q. leb (entry q.c site) bound) (take result (at_places parts.now list.now)) }
    ensures after { Each (λ q. ltb bound (entry q.c site)) (drop result (at_places parts.now list.now)) }
{
    let mut low = 0;
    let mut high = list.len();
    while low < high {
        let middle = low + (high - low) / 2;
        if parts[list[middle] as usize].c.get(site) <= bound {
            low = middle + 1;
        } else {
            high = middle;
        }
    }
    low
}

/// The places of the parts of one site, in the order of commit times.
#[derive(Drop)]
pub(crate) struct Commits {
    pub(crate) places: Vec<u32>,
}

impl Commits {
    /// No places. Takes no memory.
    pub(crate) fn new(alloc: Global) -> Commits
        ensures { result.places.items ≡ [] }
    {
        Commits {
            places: Vec::new(alloc),
        }
    }

    fn make_room(&mut self, n: usize) -> Result<(), AllocError>
        ensures places { self.new.places.items ≡ self.old.places.items }
        ensures roomy { (m : ℕ) → vec_len self.old.places + m ≤ vec_capacity self.old.places → vec_len self.new.places + m ≤ vec_capacity self.new.places }
        ensures ok { OnOk result (vec_len self.new.places + n ≤ vec_capacity self.new.places) }
    {
        self.places.reserve(n)?;
        Ok(())
    }

    /// Lists a part at its place in the order.
    fn add<E>(&mut self, parts: &[Part<E>], site: u8, part: &Part<E>, place: u32)
        requires listed { IsList site parts.now self.old.places.items }
        requires least { 1 ≤ site }
        requires width { site ≤ length part.now.c }
        requires wide { Each (λ p. nat_le site (length p.c)) parts.now }
        requires mine { is_of site part.now ≡ true }
        requires fresh { (k : ℕ) (q : Part E) → slice_get parts.now k ≡ Some q → q.tx ≢ part.now.tx }
        requires last { place ≡ length parts.now }
        requires room { vec_len self.old.places < vec_capacity self.old.places }
        ensures listed { IsList site (parts.now ++ part.now ∷ []) self.new.places.items }
        ensures len { vec_len self.new.places ≡ vec_len self.old.places + 1 }
        ensures capacity { vec_capacity self.new.places ≡ vec_capacity self.old.places }
    {
        let at = place_of(parts, self.places.as_slice(), site, part);
        let _room_was_reserved = self.places.insert(at, place);
    }
}

/// Lists a part among the commits of its site.
pub(crate) fn list_part<E>(
    parts: &[Part<E>],
    lists: &mut [Commits; 8],
    sites: u8,
    part: &Part<E>,
    place: u32,
)
    requires all { AreLists sites parts.now lists.old }
    requires room { ListRoom sites 1 lists.old }
    requires sites { sites ≤ 8 }
    requires width { sites ≡ length part.now.c }
    requires wide { AreWide sites parts.now }
    requires fresh { (k : ℕ) (q : Part E) → slice_get parts.now k ≡ Some q → q.tx ≢ part.now.tx }
    requires last { place ≡ length parts.now }
    ensures all { AreLists sites (parts.now ++ part.now ∷ []) lists.new }
    ensures room { (n : ℕ) → ListRoom sites (n + 1) lists.old → ListRoom sites n lists.new }
{
    let site = part.tx.site;
    if 1 <= site && site <= sites {
        lists[site as usize - 1].add(parts, site, part, place);
    }
}

/// Makes room for this many more parts of each site.
///
/// # Errors
///
/// `AllocError` where memory runs out. No room is lost then.
pub(crate) fn make_room(lists: &mut [Commits; 8], sites: u8, n: usize) -> Result<(), AllocError>
    requires { sites ≤ 8 }
    ensures same { SameLists lists.old lists.new }
    ensures roomy { (m : ℕ) → ListRoom sites m lists.old → ListRoom sites m lists.new }
    ensures ok { OnOk result (ListRoom sites n lists.new) }
{
    for i in 0..sites {
        lists[i as usize].make_room(n)?;
    }
    Ok(())
}

/// The parts of one site's stretch of time, in the order of commit times.
#[derive(Drop)]
pub struct Parts<'a, C: Crdt> {
    parts: &'a [Part<C::Effect>],
    places: &'a [u32],
}

impl<'a, C: Crdt> Model for Parts<'a, C> {
    ghost use Rattle.std.specs.Prelude.{List};
    ghost use Rattle.crdt_core.specs.declared.record.Part.{Part};
    ghost use Rattle.effect_store.specs.Commits.{at_places, AreWithin};

    ghost Value = { List (Part C.Effect) };

    ghost view = { λ s. at_places s.parts.now s.places.now };

    ghost invariant = { λ s. AreWithin s.parts.now s.places.now };
}

impl<'a, C: Crdt> Iterator for Parts<'a, C> {
    type Item = &'a Part<C::Effect>;

    ghost next_gives = { YieldsFirstRef (λ s. s) };

    ghost remaining = { item_count (λ s. s) };

    fn next(&mut self) -> Option<&'a Part<C::Effect>> {
        let (first, others) = self.places.split_first()?;
        self.places = others;
        Some(&self.parts[*first as usize])
    }
}

/// The listed parts with a commit time at their site above `lo` and at most `hi`.
pub(crate) fn stretch<'a, C: Crdt>(
    parts: &'a [Part<C::Effect>],
    list: &'a [u32],
    site: u8,
    lo: u64,
    hi: u64,
) -> Parts<'a, C>
    requires least { 1 ≤ site }
    requires wide { Each (λ p. nat_le site (length p.c)) parts.now }
    requires within { AreWithin parts.now list.now }
    requires rising { Rises (sooner site) (at_places parts.now list.now) }
    ensures { result ≡ filter (λ p. ltb lo (entry p.c site) && leb (entry p.c site) hi) (at_places parts.now list.now) }
{
    let rest = &list[count_up_to(parts, list, site, lo)..];
    let places = &rest[..count_up_to(parts, rest, site, hi)];
    Parts { parts, places }
}
