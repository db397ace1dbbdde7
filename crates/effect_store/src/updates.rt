ghost use Rattle.std.specs.Prelude.{◌≡◌, ℕ, ◌<◌, ◌∷◌, [], length, Some, true};
ghost use Rattle.std.specs.List.{slice_get};
ghost use Rattle.std.specs.Iterator.{YieldsFirstBy, item_count};
ghost use Rattle.effect_store.specs.Spots.{Spot, spots};
ghost use Rattle.effect_store.specs.Wanted.{is_wanted, wants, wanted, IsAsWide, LinksFit};

use crate::links::Links;
use crdt_core::{Crdt, ObjectId, Part, Upd};
use site_vector::VTime;
use std::marker::Model;

/// The part and the update at a place.
pub(crate) fn update_at<'a, E>(
    parts: &'a [Part<E>],
    links: &Links,
    k: u32,
) -> (&'a Part<E>, &'a Upd<E>)
    requires fitting { LinksFit parts.now links.now }
    requires within { k < length links.now.entries.items }
    ensures part { (x : Spot E) → slice_get (spots parts.now) k ≡ Some x → result.0.now ≡ x.part }
    ensures update { (x : Spot E) → slice_get (spots parts.now) k ≡ Some x → result.1.now ≡ x.update }
{
    let entry = links.entries[k as usize];
    let part = &parts[entry.part as usize];
    (part, &part.updates.as_slice()[entry.at as usize])
}

/// Whether an update is one of the object, and its part isn't shown by the snapshot, if one is given.
fn is_wanted<E>(part: &Part<E>, update: &Upd<E>, object: &ObjectId, outside: &Option<VTime>) -> bool
    requires { IsAsWide outside.now (part.now ∷ []) }
    ensures { result ≡ is_wanted object.now outside.now part.now update.now }
{
    if update.object != *object {
        return false;
    }
    match outside {
        Some(v) => !part.c.le(v),
        None => true,
    }
}

/// The first place from one on whose update is wanted.
fn next_wanted<E>(
    parts: &[Part<E>],
    links: &Links,
    from: u32,
    object: &ObjectId,
    outside: &Option<VTime>,
) -> u32
    requires fitting { LinksFit parts.now links.now }
    requires wide { IsAsWide outside.now parts.now }
    ensures same { wanted object.now outside.now parts.now result ≡ wanted object.now outside.now parts.now from }
    ensures here { (x : Spot E) → slice_get (spots parts.now) result ≡ Some x → wants object.now outside.now x ≡ true }
{
    let mut at = from;
    while (at as usize) < links.entries.len() {
        let (part, update) = update_at(parts, links, at);
        if is_wanted(part, update, object, outside) {
            return at;
        }
        at = links.next[at as usize];
    }
    at
}

/// The updates of one object in fold order, each with its part.
#[derive(Drop)]
pub struct Updates<'a, C: Crdt> {
    pub(crate) parts: &'a [Part<C::Effect>],
    pub(crate) links: &'a Links,
    pub(crate) at: u32,
    pub(crate) object: &'a ObjectId,
    pub(crate) outside: Option<VTime>,
}

impl<'a, C: Crdt> Model for Updates<'a, C> {
    ghost use Rattle.std.specs.Prelude.{List};
    ghost use Rattle.crdt_core.specs.declared.record.Part.{Part};
    ghost use Rattle.crdt_core.specs.declared.record.Upd.{Upd};
    ghost use Rattle.effect_store.specs.Wanted.{wanted, IsAsWide, LinksFit};

    ghost Value = { List (Part C.Effect × Upd C.Effect) };

    ghost view = { λ u. wanted u.object.now u.outside u.parts.now u.at };

    ghost invariant = { λ u. LinksFit u.parts.now u.links.now × IsAsWide u.outside u.parts.now };
}

impl<'a, C: Crdt> Iterator for Updates<'a, C> {
    type Item = (&'a Part<C::Effect>, &'a Upd<C::Effect>);

    ghost next_gives = { YieldsFirstBy (λ x. (x.0.now, x.1.now)) (λ u. u) };

    ghost remaining = { item_count (λ u. u) };

    fn next(&mut self) -> Option<(&'a Part<C::Effect>, &'a Upd<C::Effect>)> {
        let at = next_wanted(self.parts, self.links, self.at, self.object, &self.outside);
        if (at as usize) >= self.links.entries.len() {
            self.at = at;
            return None;
        }
        self.at = self.links.next[at as usize];
        Some(update_at(self.parts, self.links, at))
    }
}
