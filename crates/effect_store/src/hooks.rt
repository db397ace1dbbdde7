ghost use Rattle.std.specs.Prelude.{◌≡◌, ℕ, ◌+◌, ◌<◌, ◌≤◌, length, nat_eq, vec_len, vec_capacity, slice_index_or};
ghost use Rattle.std.specs.HashMap.{get, spare};
ghost use Rattle.effect_store.specs.Chains.{none};
ghost use Rattle.effect_store.specs.Links.{or_none};
ghost use Rattle.effect_store.specs.Hooks.{Hooked};

use crate::links::NONE;
use std::collections::HashMap;

/// The place at a tag, or `NONE`.
pub(crate) fn head(heads: &HashMap<u64, u32>, tag: u64) -> u32
    ensures { result ≡ or_none (get nat_eq heads.now tag) }
{
    match heads.get(&tag) {
        Some(at) => *at,
        None => NONE,
    }
}

/// What stands behind `at`, or at the head where nothing stands before.
pub(crate) fn behind(links: &[u32], heads: &HashMap<u64, u32>, at: u32, tag: u64) -> u32
    ensures some { at < length links.now → result ≡ slice_index_or links.now at none }
    ensures none { length links.now ≤ at → result ≡ or_none (get nat_eq heads.now tag) }
{
    if (at as usize) < links.len() {
        links[at as usize]
    } else {
        head(heads, tag)
    }
}

/// Adds `then` for the new place, and lets what stands at `at`, or else the head, name that place.
pub(crate) fn hook(
    links: &mut Vec<u32>,
    heads: &mut HashMap<u64, u32>,
    at: u32,
    tag: u64,
    place: u32,
    then: u32,
)
    requires long { length links.old.items ≡ place }
    requires room { vec_len links.old < vec_capacity links.old }
    requires space { 0 < spare heads.old }
    ensures hooked { Hooked links.old.items links.new.items (get nat_eq heads.old) (get nat_eq heads.new) at tag place then }
    ensures len { length links.new.items ≡ length links.old.items + 1 }
    ensures capacity { vec_capacity links.new ≡ vec_capacity links.old }
    ensures left { spare heads.old ≤ spare heads.new + 1 }
{
    if at < place {
        links[at as usize] = place;
    } else {
        let _room_was_reserved = heads.insert(tag, place);
    }
    links.push_reserved(then);
}
