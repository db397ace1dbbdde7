ghost use Rattle.std.specs.Prelude.{◌≡◌, ◌≤◌, ◌<◌, ◌||◌, ◌&&◌, not, true, false, ℕ, length, [], replicate, nat_eq, Some, None, IsSome, slice_index_or, ◌⊎◌, IfOk, IfSome, OnOk, MatchBool, if◌then◌else◌, Option};
ghost use Rattle.std.specs.List.{slice_get};
ghost use Rattle.std.specs.Option.{option_map, option_copied};
ghost use Rattle.std.specs.HashMap.{get};
ghost use Rattle.site_vector.specs.Vector.{le, join};
ghost use Rattle.crdt_core.specs.Objects.{same_object};
ghost use Rattle.effect_store.specs.declared.newest.Newest.{Newest};
ghost use Rattle.effect_store.specs.Arranged.{Each};
ghost use Rattle.effect_store.specs.Chains.{none, chain, has_tag, IsApart};
ghost use Rattle.effect_store.specs.Spots.{Spot, spots, spots_in, tag_of, tag_of_object, before, earlier};
ghost use Rattle.effect_store.specs.Links.{or_none, spot};
ghost use Rattle.effect_store.specs.Wanted.{LinksFit};
ghost use Rattle.effect_store.specs.Applied.{AreWide, shown};
ghost use Rattle.effect_store.specs.Newest.{own, AreNewest, IsApplying, IsFront};

use crate::fold::is_shown;
use crate::hooks::head;
use crate::links::{Links, NONE, entry_comes_before, total_of};
use crate::tags::tag_of;
use crate::updates::update_at;
use crdt_core::{Crdt, Kind, ObjectId, Part, Upd};
use site_vector::{Dot, VTime};
use std::alloc::{AllocError, Global};
use std::collections::HashMap;

/// How many updates an older state stays behind what is read: few parts come later than that.
const SHORT: u32 = 32;

/// The state of an object with a front of its updates applied.
#[derive(Drop)]
pub(crate) struct Newest<S> {
    /// The place of the last update that is applied.
    pub(crate) at: u32,
    /// The join of the commit vectors of what is applied.
    pub(crate) seen: VTime,
    pub(crate) state: S,
}

/// The place of the last update that the newest state at a tag has.
fn end_of<S>(newest: &HashMap<u64, Newest<S>>, tag: u64) -> Option<u32>
    ensures { result ≡ option_map (λ n. n.at) (get nat_eq newest.now tag) }
{
    match newest.get(&tag) {
        Some(kept) => Some(kept.at),
        None => None,
    }
}

/// Applies an update if it is one of the object.
fn apply_own<C: Crdt>(
    alloc: Global,
    part: &Part<C::Effect>,
    update: &Upd<C::Effect>,
    object: &ObjectId,
    at: u32,
    newest: &mut Newest<C::State>,
) -> Result<(), AllocError>
    requires { length newest.old.seen ≡ length part.now.c }
    ensures { OnOk result (newest.new ≡ (if same_object update.now.object object.now then record { at = at; seen = join newest.old.seen part.now.c; state = C.applied newest.old.state (record { tx = part.now.tx; index = update.now.index }) update.now.effect } else newest.old)) }
{
    if update.object != *object {
        return Ok(());
    }
    let dot = Dot {
        tx: part.tx,
        index: update.index,
    };
    C::apply(alloc, &mut newest.state, dot, &update.effect)?;
    newest.seen = newest.seen.join(&part.c);
    newest.at = at;
    Ok(())
}

/// Applies the updates of the object among so many from a place on.
fn bring_forward<C: Crdt>(
    alloc: Global,
    parts: &[Part<C::Effect>],
    links: &Links,
    object: &ObjectId,
    from: u32,
    steps: u32,
    newest: &mut Newest<C::State>,
) -> Result<(), AllocError>
    requires fitting { LinksFit parts.now links.now }
    requires wide { AreWide (length newest.old.seen) parts.now }
    requires applying { IsApplying C.initial C.applied object.now (length newest.old.seen) (spots parts.now) from newest.old }
    ensures { OnOk result (IsFront C.initial C.applied object.now (length newest.old.seen) (spots parts.now) newest.new) }
{
    let mut at = from;
    for _step in 0..steps {
        if at as usize >= links.entries.len() {
            return Ok(());
        }
        let (part, update) = update_at(parts, links, at);
        apply_own::<C>(alloc, part, update, object, at, newest)?;
        at = links.next[at as usize];
    }
    Ok(())
}

/// The newest state at a tag, if it is that of the object and the snapshot shows all that it has.
pub(crate) fn newest_for<'a, E, S>(
    parts: &[Part<E>],
    links: &Links,
    newest: &'a HashMap<u64, Newest<S>>,
    object: &ObjectId,
    tag: u64,
    snapshot: &VTime,
) -> Option<&'a Newest<S>>
    requires tagged { tag ≡ tag_of_object object.now }
    requires fitting { LinksFit parts.now links.now }
    requires within { (i : ℕ) (n : Newest S) → get nat_eq newest.now i ≡ Some n → (n.at < length links.now.entries.items) × (length n.seen ≡ length snapshot.now) }
    ensures { IfSome (option_copied result) (λ n. (get nat_eq newest.now (tag_of_object object.now) ≡ Some n) × ((q : Spot E) → slice_get (spots parts.now) n.at ≡ Some q → own object.now q ≡ true) × (le n.seen snapshot.now ≡ true)) }
{
    let kept = newest.get(&tag)?;
    let (_, update) = update_at(parts, links, kept.at);
    if update.object == *object && kept.seen.le(snapshot) {
        return Some(kept);
    }
    None
}

/// How many updates stand from a place on before the first of the object that the snapshot doesn't show.
fn shown_from<E>(
    parts: &[Part<E>],
    links: &Links,
    from: u32,
    object: &ObjectId,
    snapshot: &VTime,
) -> u32
    requires fitting { LinksFit parts.now links.now }
    requires wide { AreWide (length snapshot.now) parts.now }
{
    let mut count: u32 = 0;
    let mut at = from;
    while (at as usize) < links.entries.len() {
        let (part, update) = update_at(parts, links, at);
        if update.object == *object && !part.c.le(snapshot) {
            return count;
        }
        count = count.saturating_add(1);
        at = links.next[at as usize];
    }
    count
}

/// Whether the snapshot shows no update of the object from a place on.
pub(crate) fn is_none_shown<E>(
    parts: &[Part<E>],
    links: &Links,
    from: u32,
    object: &ObjectId,
    snapshot: &VTime,
) -> bool
    requires fitting { LinksFit parts.now links.now }
    requires wide { AreWide (length snapshot.now) parts.now }
    ensures { result ≡ true → shown object.now snapshot.now parts.now from ≡ [] }
{
    let mut at = from;
    while (at as usize) < links.entries.len() {
        let (part, update) = update_at(parts, links, at);
        if is_shown(part, update, object, snapshot) {
            return false;
        }
        at = links.next[at as usize];
    }
    true
}

/// A state to apply updates to: the kept one, taken out, where it serves, and otherwise that of no update.
fn start<C: Crdt>(
    alloc: Global,
    newest: &mut HashMap<u64, Newest<C::State>>,
    serves: bool,
    object: &ObjectId,
    tag: u64,
    sites: u8,
) -> Result<Newest<C::State>, AllocError>
    requires tagged { tag ≡ tag_of_object object.now }
    requires least { 1 ≤ sites }
    requires most { sites ≤ 8 }
    requires at_hand { serves ≡ true → IsSome (get nat_eq newest.old (tag_of_object object.now)) }
    ensures left { (i : ℕ) (n : Newest C.State) → get nat_eq newest.new i ≡ Some n → get nat_eq newest.old i ≡ Some n }
    ensures at_hand { serves ≡ true → IfOk result (λ n. get nat_eq newest.old (tag_of_object object.now) ≡ Some n) }
    ensures fresh { serves ≡ false → IfOk result (λ n. (n.at ≡ none) × (n.seen ≡ replicate sites 0) × (n.state ≡ C.initial object.now.kind)) }
{
    if serves {
        if let Some(kept) = newest.remove(&tag) {
            return Ok(kept);
        }
    }
    let state = C::empty(alloc, object.kind)?;
    Ok(Newest {
        at: NONE,
        seen: VTime::zero(sites),
        state,
    })
}

/// Where the rest of an object's updates begins: behind those that its kept state has, where that serves, and else at the first.
#[derive(Clone, Copy, Debug)]
struct Rest {
    serves: bool,
    from: u32,
}

fn rest_of<E, S>(
    parts: &[Part<E>],
    links: &Links,
    newest: &HashMap<u64, Newest<S>>,
    object: &ObjectId,
    tag: u64,
    snapshot: &VTime,
) -> Rest
    requires tagged { tag ≡ tag_of_object object.now }
    requires fitting { LinksFit parts.now links.now }
    requires within { (i : ℕ) (n : Newest S) → get nat_eq newest.now i ≡ Some n → (n.at < length links.now.entries.items) × (length n.seen ≡ length snapshot.now) }
    ensures at_hand { result.serves ≡ true → (n : Newest S) × (get nat_eq newest.now (tag_of_object object.now) ≡ Some n) × ((q : Spot E) → slice_get (spots parts.now) n.at ≡ Some q → own object.now q ≡ true) × (result.from ≡ slice_index_or links.now.next.items n.at result.from) }
    ensures fresh { result.serves ≡ false → result.from ≡ or_none (get nat_eq links.now.first (tag_of_object object.now)) }
{
    match newest_for(parts, links, newest, object, tag, snapshot) {
        Some(kept) => Rest {
            serves: true,
            from: links.next[kept.at as usize],
        },
        None => Rest {
            serves: false,
            from: head(&links.first, tag),
        },
    }
}

/// The state of the object with those of its updates applied that are among so many more. A kept state that serves is taken out.
fn front_state<C: Crdt>(
    alloc: Global,
    parts: &[Part<C::Effect>],
    links: &Links,
    newest: &mut HashMap<u64, Newest<C::State>>,
    object: &ObjectId,
    tag: u64,
    sites: u8,
    rest: Rest,
    steps: u32,
) -> Result<Newest<C::State>, AllocError>
    requires tagged { tag ≡ tag_of_object object.now }
    requires least { 1 ≤ sites }
    requires most { sites ≤ 8 }
    requires fitting { LinksFit parts.now links.now }
    requires wide { AreWide sites parts.now }
    requires hold { AreNewest C.initial C.applied sites (spots parts.now) (get nat_eq newest.old) }
    requires at_hand { rest.serves ≡ true → (n : Newest C.State) × (get nat_eq newest.old (tag_of_object object.now) ≡ Some n) × ((q : Spot C.Effect) → slice_get (spots parts.now) n.at ≡ Some q → own object.now q ≡ true) × (rest.from ≡ slice_index_or links.now.next.items n.at rest.from) }
    requires fresh { rest.serves ≡ false → rest.from ≡ or_none (get nat_eq links.now.first (tag_of_object object.now)) }
    ensures left { (i : ℕ) (n : Newest C.State) → get nat_eq newest.new i ≡ Some n → get nat_eq newest.old i ≡ Some n }
    ensures front { IfOk result (λ n. IsFront C.initial C.applied object.now sites (spots parts.now) n) }
{
    let mut front = start::<C>(alloc, newest, rest.serves, object, tag, sites)?;
    bring_forward::<C>(alloc, parts, links, object, rest.from, steps, &mut front)?;
    Ok(front)
}

/// Keeps a state at a tag, if memory allows it.
fn keep<S: Drop>(links: &Links, newest: &mut HashMap<u64, Newest<S>>, tag: u64, front: Newest<S>)
    ensures others { (i : ℕ) (n : Newest S) → get nat_eq newest.new i ≡ Some n → (get nat_eq newest.old i ≡ Some n) ⊎ ((i ≡ tag) × (n ≡ front) × (n.at < length links.now.entries.items)) }
{
    if (front.at as usize) < links.entries.len() {
        let _kept = newest.insert(tag, front);
    }
}

/// Brings the kept state of the object forward over what the snapshot shows, up to `short` updates before the end of that, or makes
/// it, where `rest` begins. It is left as it is where that would be over no more than `short` updates.
fn bring<C: Crdt>(
    alloc: Global,
    parts: &[Part<C::Effect>],
    links: &Links,
    newest: &mut HashMap<u64, Newest<C::State>>,
    object: &ObjectId,
    tag: u64,
    snapshot: &VTime,
    rest: Rest,
    short: u32,
) -> Result<(), AllocError>
    requires tagged { tag ≡ tag_of_object object.now }
    requires fitting { LinksFit parts.now links.now }
    requires wide { AreWide (length snapshot.now) parts.now }
    requires hold { AreNewest C.initial C.applied (length snapshot.now) (spots parts.now) (get nat_eq newest.old) }
    requires at_hand { rest.serves ≡ true → (n : Newest C.State) × (get nat_eq newest.old (tag_of_object object.now) ≡ Some n) × ((q : Spot C.Effect) → slice_get (spots parts.now) n.at ≡ Some q → own object.now q ≡ true) × (rest.from ≡ slice_index_or links.now.next.items n.at rest.from) }
    requires fresh { rest.serves ≡ false → rest.from ≡ or_none (get nat_eq links.now.first (tag_of_object object.now)) }
    ensures hold { AreNewest C.initial C.applied (length snapshot.now) (spots parts.now) (get nat_eq newest.new) }
{
    let many = shown_from(parts, links, rest.from, object, snapshot);
    let steps = many.saturating_sub(short);
    if steps <= short {
        return Ok(());
    }
    let sites = snapshot.width();
    let front = front_state::<C>(alloc, parts, links, newest, object, tag, sites, rest, steps)?;
    keep(links, newest, tag, front);
    Ok(())
}

/// Puts a copy of the older state of the object in the place of the newest, if it serves and memory allows it.
fn renew<C: Crdt>(
    alloc: Global,
    parts: &[Part<C::Effect>],
    links: &Links,
    newest: &mut HashMap<u64, Newest<C::State>>,
    older: &HashMap<u64, Newest<C::State>>,
    object: &ObjectId,
    tag: u64,
    snapshot: &VTime,
)
    requires tagged { tag ≡ tag_of_object object.now }
    requires fitting { LinksFit parts.now links.now }
    requires within { (i : ℕ) (n : Newest C.State) → get nat_eq older.now i ≡ Some n → (n.at < length links.now.entries.items) × (length n.seen ≡ length snapshot.now) }
    ensures { (i : ℕ) (n : Newest C.State) → get nat_eq newest.new i ≡ Some n → (get nat_eq newest.old i ≡ Some n) ⊎ (get nat_eq older.now i ≡ Some n) }
{
    let Some(kept) = newest_for(parts, links, older, object, tag, snapshot) else {
        return;
    };
    let Ok(state) = C::copy(alloc, &kept.state) else {
        return;
    };
    let copied = Newest {
        at: kept.at,
        seen: kept.seen,
        state,
    };
    let _kept = newest.insert(tag, copied);
}

/// Where no newest state serves, brings the older state of the object forward, and puts a copy of it in the newest one's place. If
/// memory runs out, there may be neither. Answers where the rest of the object's updates begins then.
fn fall_back<C: Crdt>(
    alloc: Global,
    parts: &[Part<C::Effect>],
    links: &Links,
    newest: &mut HashMap<u64, Newest<C::State>>,
    older: &mut HashMap<u64, Newest<C::State>>,
    object: &ObjectId,
    tag: u64,
    snapshot: &VTime,
) -> Rest
    requires tagged { tag ≡ tag_of_object object.now }
    requires fitting { LinksFit parts.now links.now }
    requires wide { AreWide (length snapshot.now) parts.now }
    requires hold { AreNewest C.initial C.applied (length snapshot.now) (spots parts.now) (get nat_eq newest.old) }
    requires hold_older { AreNewest C.initial C.applied (length snapshot.now) (spots parts.now) (get nat_eq older.old) }
    ensures hold { AreNewest C.initial C.applied (length snapshot.now) (spots parts.now) (get nat_eq newest.new) }
    ensures hold_older { AreNewest C.initial C.applied (length snapshot.now) (spots parts.now) (get nat_eq older.new) }
    ensures at_hand { result.serves ≡ true → (n : Newest C.State) × (get nat_eq newest.new (tag_of_object object.now) ≡ Some n) × ((q : Spot C.Effect) → slice_get (spots parts.now) n.at ≡ Some q → own object.now q ≡ true) × (result.from ≡ slice_index_or links.now.next.items n.at result.from) }
    ensures fresh { result.serves ≡ false → result.from ≡ or_none (get nat_eq links.now.first (tag_of_object object.now)) }
{
    let rest = rest_of(parts, links, newest, object, tag, snapshot);
    if rest.serves || rest.from == NONE {
        return rest;
    }
    let late = rest_of(parts, links, older, object, tag, snapshot);
    let _brought = bring::<C>(
        alloc, parts, links, older, object, tag, snapshot, late, SHORT,
    );
    renew::<C>(alloc, parts, links, newest, older, object, tag, snapshot);
    rest_of(parts, links, newest, object, tag, snapshot)
}

/// Brings the newest state of the object forward over what the snapshot shows, or makes it, from the older one on where that serves.
/// Nothing but what later reads cost depends on which states are kept.
pub(crate) fn advance<C: Crdt>(
    alloc: Global,
    parts: &[Part<C::Effect>],
    links: &Links,
    newest: &mut HashMap<u64, Newest<C::State>>,
    older: &mut HashMap<u64, Newest<C::State>>,
    object: &ObjectId,
    tag: u64,
    snapshot: &VTime,
) -> Result<(), AllocError>
    requires tagged { tag ≡ tag_of_object object.now }
    requires fitting { LinksFit parts.now links.now }
    requires wide { AreWide (length snapshot.now) parts.now }
    requires hold { AreNewest C.initial C.applied (length snapshot.now) (spots parts.now) (get nat_eq newest.old) }
    requires hold_older { AreNewest C.initial C.applied (length snapshot.now) (spots parts.now) (get nat_eq older.old) }
    ensures hold { AreNewest C.initial C.applied (length snapshot.now) (spots parts.now) (get nat_eq newest.new) }
    ensures hold_older { AreNewest C.initial C.applied (length snapshot.now) (spots parts.now) (get nat_eq older.new) }
{
    let rest = fall_back::<C>(alloc, parts, links, newest, older, object, tag, snapshot);
    bring::<C>(alloc, parts, links, newest, object, tag, snapshot, rest, 0)
}

/// Drops the newest state at the tag of an update, unless the update comes after all that the state has.
fn forget_update<E, S: Drop>(
    parts: &[Part<E>],
    links: &Links,
    newest: &mut HashMap<u64, Newest<S>>,
    part: &Part<E>,
    at: u32,
    tag: u64,
)
    requires fitting { LinksFit parts.now links.now }
    requires within { (i : ℕ) (n : Newest S) → get nat_eq newest.old i ≡ Some n → n.at < length links.now.entries.items }
    requires tagged { (u : Upd E) → slice_get part.now.updates at ≡ Some u → tag ≡ tag_of_object u.object }
    ensures left { (i : ℕ) (n : Newest S) → get nat_eq newest.new i ≡ Some n → get nat_eq newest.old i ≡ Some n }
    ensures clear { (i : ℕ) (n : Newest S) → get nat_eq newest.new i ≡ Some n → (q : Spot E) → slice_get (spots parts.now) n.at ≡ Some q → (u : Upd E) → slice_get part.now.updates at ≡ Some u → (not (has_tag tag_of i (spot part.now at u)) || before q (spot part.now at u)) ≡ true }
{
    let Some(end) = end_of(newest, tag) else {
        return;
    };
    if entry_comes_before(parts, links.entries[end as usize], part, total_of(part), at) {
        return;
    }
    let _old = newest.remove(&tag);
}

/// Drops the kept states, newest and older, that have an update which a new part's come before.
pub(crate) fn forget<E, S: Drop>(
    parts: &[Part<E>],
    links: &Links,
    newest: &mut HashMap<u64, Newest<S>>,
    older: &mut HashMap<u64, Newest<S>>,
    part: &Part<E>,
)
    requires fitting { LinksFit parts.now links.now }
    requires within { (i : ℕ) (n : Newest S) → get nat_eq newest.old i ≡ Some n → n.at < length links.now.entries.items }
    requires within_older { (i : ℕ) (n : Newest S) → get nat_eq older.old i ≡ Some n → n.at < length links.now.entries.items }
    requires small { length part.now.updates ≤ none }
    ensures left { (i : ℕ) (n : Newest S) → get nat_eq newest.new i ≡ Some n → get nat_eq newest.old i ≡ Some n }
    ensures left_older { (i : ℕ) (n : Newest S) → get nat_eq older.new i ≡ Some n → get nat_eq older.old i ≡ Some n }
    ensures clear { (i : ℕ) (n : Newest S) → get nat_eq newest.new i ≡ Some n → (q : Spot E) → slice_get (spots parts.now) n.at ≡ Some q → Each (λ x. not (has_tag tag_of i x) || before q x) (spots_in part.now) }
    ensures clear_older { (i : ℕ) (n : Newest S) → get nat_eq older.new i ≡ Some n → (q : Spot E) → slice_get (spots parts.now) n.at ≡ Some q → Each (λ x. not (has_tag tag_of i x) || before q x) (spots_in part.now) }
{
    // After a restart there is none yet.
    if newest.is_empty() && older.is_empty() {
        return;
    }
    let updates = part.updates.as_slice();
    let count = updates.len() as u32;
    for at in 0..count {
        let tag = tag_of(&updates[at as usize].object);
        forget_update(parts, links, newest, part, at, tag);
        forget_update(parts, links, older, part, at, tag);
    }
}
