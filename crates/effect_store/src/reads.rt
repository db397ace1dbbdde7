ghost use Rattle.std.specs.Prelude.{◌≡◌, length, nat_eq, IfOk, IfSome, map, option_copied};
ghost use Rattle.std.specs.List.{filter};
ghost use Rattle.std.specs.HashMap.{get};
ghost use Rattle.effect_store.specs.Arranged.{arranged};
ghost use Rattle.effect_store.specs.Spots.{spots, before, tag_of_object};
ghost use Rattle.effect_store.specs.Wanted.{pair, LinksFit};
ghost use Rattle.effect_store.specs.Applied.{applied, mine, shows, AreWide};
ghost use Rattle.effect_store.specs.Newest.{AreNewest};

use crate::fold::apply_shown;
use crate::hooks::head;
use crate::links::Links;
use crate::newest::{Newest, is_none_shown, newest_for};
use crdt_core::{Crdt, ObjectId, Part};
use site_vector::VTime;
use std::alloc::{AllocError, Global};
use std::collections::HashMap;

/// The state of no update with what the snapshot shows of the object applied.
fn fresh_state<C: Crdt>(
    alloc: Global,
    parts: &[Part<C::Effect>],
    links: &Links,
    object: &ObjectId,
    tag: u64,
    snapshot: &VTime,
) -> Result<C::State, AllocError>
    requires tagged { tag ≡ tag_of_object object.now }
    requires fitting { LinksFit parts.now links.now }
    requires wide { AreWide (length snapshot.now) parts.now }
    ensures { IfOk result (λ s. s ≡ applied C.applied (C.initial object.now.kind) (map pair (filter (mine object.now (shows snapshot.now)) (arranged before (spots parts.now))))) }
{
    let mut state = C::empty(alloc, object.kind)?;
    let from = head(&links.first, tag);
    apply_shown::<C>(alloc, parts, links, from, object, snapshot, &mut state)?;
    Ok(state)
}

/// The state of the object at the snapshot, from its kept state on where that serves.
pub(crate) fn read_state<C: Crdt>(
    alloc: Global,
    parts: &[Part<C::Effect>],
    links: &Links,
    newest: &HashMap<u64, Newest<C::State>>,
    object: &ObjectId,
    tag: u64,
    snapshot: &VTime,
) -> Result<C::State, AllocError>
    requires tagged { tag ≡ tag_of_object object.now }
    requires fitting { LinksFit parts.now links.now }
    requires wide { AreWide (length snapshot.now) parts.now }
    requires hold { AreNewest C.initial C.applied (length snapshot.now) (spots parts.now) (get nat_eq newest.now) }
    ensures { IfOk result (λ s. s ≡ applied C.applied (C.initial object.now.kind) (map pair (filter (mine object.now (shows snapshot.now)) (arranged before (spots parts.now))))) }
{
    let Some(kept) = newest_for(parts, links, newest, object, tag, snapshot) else {
        return fresh_state::<C>(alloc, parts, links, object, tag, snapshot);
    };
    let from = links.next[kept.at as usize];
    let mut state = C::copy(alloc, &kept.state)?;
    apply_shown::<C>(alloc, parts, links, from, object, snapshot, &mut state)?;
    Ok(state)
}

/// The kept state of the object, where it has all that the snapshot shows.
pub(crate) fn standing_state<'a, C: Crdt>(
    parts: &[Part<C::Effect>],
    links: &Links,
    newest: &'a HashMap<u64, Newest<C::State>>,
    object: &ObjectId,
    tag: u64,
    snapshot: &VTime,
) -> Option<&'a C::State>
    requires tagged { tag ≡ tag_of_object object.now }
    requires fitting { LinksFit parts.now links.now }
    requires wide { AreWide (length snapshot.now) parts.now }
    requires hold { AreNewest C.initial C.applied (length snapshot.now) (spots parts.now) (get nat_eq newest.now) }
    ensures { IfSome (option_copied result) (λ s. s ≡ applied C.applied (C.initial object.now.kind) (map pair (filter (mine object.now (shows snapshot.now)) (arranged before (spots parts.now))))) }
{
    let Some(kept) = newest_for(parts, links, newest, object, tag, snapshot) else {
        return None;
    };
    let from = links.next[kept.at as usize];
    if is_none_shown(parts, links, from, object, snapshot) {
        return Some(&kept.state);
    }
    None
}
