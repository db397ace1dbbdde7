ghost use Rattle.std.specs.Prelude.{◌≡◌, ◌&&◌, length, OnOk, if◌then◌else◌};
ghost use Rattle.site_vector.specs.Vector.{le};
ghost use Rattle.crdt_core.specs.Objects.{same_object};
ghost use Rattle.effect_store.specs.Wanted.{LinksFit};
ghost use Rattle.effect_store.specs.Applied.{applied, shown, AreWide};

use crate::links::Links;
use crate::updates::update_at;
use crdt_core::{Crdt, ObjectId, Part, Upd};
use site_vector::{Dot, VTime};
use std::alloc::{AllocError, Global};

/// Whether an update is one of the object, and its part is shown by the snapshot.
pub(crate) fn is_shown<E>(
    part: &Part<E>,
    update: &Upd<E>,
    object: &ObjectId,
    snapshot: &VTime,
) -> bool
    requires { length part.now.c ≡ length snapshot.now }
    ensures { result ≡ (same_object update.now.object object.now && le part.now.c snapshot.now) }
{
    update.object == *object && part.c.le(snapshot)
}

/// Applies an update if it is one of the object, and its part is shown by the snapshot.
fn apply_if_shown<C: Crdt>(
    alloc: Global,
    part: &Part<C::Effect>,
    update: &Upd<C::Effect>,
    object: &ObjectId,
    snapshot: &VTime,
    state: &mut C::State,
) -> Result<(), AllocError>
    requires { length part.now.c ≡ length snapshot.now }
    ensures { OnOk result (state.new ≡ (if same_object update.now.object object.now && le part.now.c snapshot.now then C.applied state.old (record { tx = part.now.tx; index = update.now.index }) update.now.effect else state.old)) }
{
    if !is_shown(part, update, object, snapshot) {
        return Ok(());
    }
    let dot = Dot {
        tx: part.tx,
        index: update.index,
    };
    C::apply(alloc, state, dot, &update.effect)
}

/// Applies the updates of the object that the snapshot shows, from a place on in fold order.
pub(crate) fn apply_shown<C: Crdt>(
    alloc: Global,
    parts: &[Part<C::Effect>],
    links: &Links,
    from: u32,
    object: &ObjectId,
    snapshot: &VTime,
    state: &mut C::State,
) -> Result<(), AllocError>
    requires fitting { LinksFit parts.now links.now }
    requires wide { AreWide (length snapshot.now) parts.now }
    ensures { OnOk result (state.new ≡ applied C.applied state.old (shown object.now snapshot.now parts.now from)) }
{
    let mut at = from;
    while (at as usize) < links.entries.len() {
        let (part, update) = update_at(parts, links, at);
        apply_if_shown::<C>(alloc, part, update, object, snapshot, state)?;
        at = links.next[at as usize];
    }
    Ok(())
}
