ghost use Rattle.std.specs.Prelude.{◌≡◌, OnOk, IfOk};
ghost use Rattle.std.specs.FinMap as map;
ghost use Rattle.crdt_meanings.specs.Maps.{at, step_at, step_each, map_step};

use crate::{Fields, MapEffect};
use crdt_core::{Crdt, Field};
use site_vector::Dot;
use std::alloc::{AllocError, Global};

/// Applies an effect of the update with this dot to a map.
///
/// # Errors
///
/// `AllocError` where memory runs out. The map may only be dropped then.
pub fn apply_effect<I: Crdt>(
    alloc: Global,
    fields: &mut Fields<I::State>,
    dot: Dot,
    effect: &MapEffect<I::Effect>,
) -> Result<(), AllocError>
    ensures { OnOk result (fields.new ≡ map_step I.has I.initial I.applied fields.old dot effect.now) }
{
    match effect {
        MapEffect::At(field, inner) => apply_at::<I>(alloc, fields, dot, field, inner),
        MapEffect::Resets(resets) => apply_each::<I>(alloc, fields, dot, resets.as_slice()),
    }
}

fn apply_each<I: Crdt>(
    alloc: Global,
    fields: &mut Fields<I::State>,
    dot: Dot,
    resets: &[(Field, I::Effect)],
) -> Result<(), AllocError>
    ensures { OnOk result (fields.new ≡ step_each I.has I.initial I.applied fields.old dot resets.now) }
{
    for (field, effect) in resets {
        apply_at::<I>(alloc, fields, dot, field, effect)?;
    }
    Ok(())
}

#[tactic(auto, using(crate::proofs::FieldTrees::put_back))]
fn apply_at<I: Crdt>(
    alloc: Global,
    fields: &mut Fields<I::State>,
    dot: Dot,
    field: &Field,
    effect: &I::Effect,
) -> Result<(), AllocError>
    ensures { OnOk result (fields.new ≡ step_at I.has I.initial I.applied fields.old dot field.now effect.now) }
{
    if !I::has(field.kind) {
        return Ok(());
    }
    let name = field.copy(alloc)?;
    let mut state = taken::<I>(alloc, fields, field)?;
    I::apply(alloc, &mut state, dot, effect)?;
    fields.put(name, state)
}

/// The state of a field, which no longer has one.
fn taken<I: Crdt>(
    alloc: Global,
    fields: &mut Fields<I::State>,
    field: &Field,
) -> Result<I::State, AllocError>
    ensures state { IfOk result (λ s. s ≡ at I.initial fields.old field.now) }
    ensures gone { fields.new ≡ map.remove fields.old field.now }
{
    match fields.take(field) {
        Some(state) => Ok(state),
        None => I::empty(alloc, field.kind),
    }
}
