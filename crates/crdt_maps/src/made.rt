ghost use Rattle.std.specs.Prelude.{◌≡◌, ◌++◌, [], ◌∷◌, true, false, OnOk, IfOk, IsTrue};
ghost use Rattle.std.specs.FinMap as map;
ghost use Rattle.crdt_core.specs.declared.operation.Act.TheVariants.{Reset};
ghost use Rattle.std.specs.List.{list_all};
ghost use Rattle.crdt_core.specs.EffectForm.{HoldsSpelled, IsReady};
ghost use Rattle.crdt_core.specs.Fits.{fits};
ghost use Rattle.crdt_maps.specs.Ready.{is_ready_at, is_reset_ready, parts_ready};
ghost use Rattle.crdt_meanings.specs.Maps.{at, is_undone, resets_of, reset_by, map_made, map_too_deep, map_holds};

use crate::{Fields, MapEffect};
use crdt_core::{Act, Crdt, Field, Kind, nests_in};
use field_codec::ListOf;
use std::alloc::{AllocError, Global};

/// Whether the path leads through maps to a field whose kind the inner type lacks.
pub fn leads_too_deep<I: Crdt>(kind: Kind, path: &[Field]) -> bool
    ensures { result ≡ map_too_deep I.has I.too_deep kind path.now }
{
    match path.split_first() {
        Some((field, rest)) => !I::has(field.kind) || I::is_too_deep(field.kind, rest),
        None => false,
    }
}

/// The effect of an act at a path of a map, on the fields that were read.
///
/// # Errors
///
/// `AllocError` where memory runs out.
pub fn effect_of<I: Crdt>(
    alloc: Global,
    kind: Kind,
    path: &[Field],
    act: &Act,
    fields: &Fields<I::State>,
    now: u64,
) -> Result<MapEffect<I::Effect>, AllocError>
    requires fitting { fits kind path.now act.now ≡ true }
    requires shallow { map_too_deep I.has I.too_deep kind path.now ≡ false }
    ensures made { IfOk result (λ e. e ≡ map_made I.has I.initial I.generated I.is_blank kind fields.now path.now act.now now) }
    ensures ready { HoldsSpelled (map_holds I.holds) fields.now → IfOk result (λ e. parts_ready I.is_of I.can_put I.sets I.spelling e ≡ true) }
{
    match path.split_first() {
        Some((field, rest)) => {
            let inner = field_effect::<I>(alloc, fields, field, rest, act, now)?;
            Ok(MapEffect::At(field.copy(alloc)?, inner))
        }
        None => Ok(MapEffect::Resets(own_effect::<I>(alloc, act, fields, now)?)),
    }
}

/// What an act of the map itself undoes.
fn own_effect<I: Crdt>(
    alloc: Global,
    act: &Act,
    fields: &Fields<I::State>,
    now: u64,
) -> Result<ListOf<(Field, I::Effect)>, AllocError>
    ensures made { IfOk result (λ l. l ≡ resets_of I.has I.generated I.is_blank now (reset_by I.initial fields.now act.now)) }
    ensures ready { HoldsSpelled (map_holds I.holds) fields.now → IfOk result (λ l. list_all (is_reset_ready I.is_of I.can_put I.sets I.spelling) l ≡ true) }
{
    match act {
        Act::Reset => reset_all::<I>(alloc, fields, now),
        Act::DropField(field) => reset_one::<I>(alloc, fields, field, now),
        _ => Ok(ListOf::new(alloc)),
    }
}

fn reset_all<I: Crdt>(
    alloc: Global,
    fields: &Fields<I::State>,
    now: u64,
) -> Result<ListOf<(Field, I::Effect)>, AllocError>
    ensures made { IfOk result (λ l. l ≡ resets_of I.has I.generated I.is_blank now (map.entries fields.now)) }
    ensures ready { HoldsSpelled (map_holds I.holds) fields.now → IfOk result (λ l. list_all (is_reset_ready I.is_of I.can_put I.sets I.spelling) l ≡ true) }
{
    let mut resets = ListOf::new(alloc);
    for (field, state) in fields.iter() {
        push_reset::<I>(alloc, &mut resets, field, state, now)?;
    }
    Ok(resets)
}

fn reset_one<I: Crdt>(
    alloc: Global,
    fields: &Fields<I::State>,
    field: &Field,
    now: u64,
) -> Result<ListOf<(Field, I::Effect)>, AllocError>
    ensures made { IfOk result (λ l. l ≡ resets_of I.has I.generated I.is_blank now ((field.now, at I.initial fields.now field.now) ∷ [])) }
    ensures ready { HoldsSpelled (map_holds I.holds) fields.now → IfOk result (λ l. list_all (is_reset_ready I.is_of I.can_put I.sets I.spelling) l ≡ true) }
{
    let mut resets = ListOf::new(alloc);
    let Some(state) = fields.get(field) else {
        return Ok(resets);
    };
    push_reset::<I>(alloc, &mut resets, field, state, now)?;
    Ok(resets)
}

/// Lists the reset of a field, where it undoes something.
fn push_reset<I: Crdt>(
    alloc: Global,
    resets: &mut ListOf<(Field, I::Effect)>,
    field: &Field,
    state: &I::State,
    now: u64,
) -> Result<(), AllocError>
    ensures made { OnOk result (resets.new ≡ resets.old ++ resets_of I.has I.generated I.is_blank now ((field.now, state.now) ∷ [])) }
    ensures ready { HoldsSpelled I.holds state.now → list_all (is_reset_ready I.is_of I.can_put I.sets I.spelling) resets.old ≡ true → OnOk result (list_all (is_reset_ready I.is_of I.can_put I.sets I.spelling) resets.new ≡ true) }
{
    if !is_undone::<I>(field, state) {
        return Ok(());
    }
    let name = field.copy(alloc)?;
    let effect = I::effect(alloc, field.kind, &[], &Act::Reset, state, now)?;
    resets.push((name, effect))?;
    Ok(())
}

/// Whether a reset of the field undoes something.
fn is_undone<I: Crdt>(field: &Field, state: &I::State) -> bool
    ensures { result ≡ is_undone I.has I.is_blank (field.now, state.now) }
{
    I::has(field.kind) && nests_in(Kind::MapRr, field.kind) && !I::is_blank(state)
}

/// The effect at a field.
fn field_effect<I: Crdt>(
    alloc: Global,
    fields: &Fields<I::State>,
    field: &Field,
    path: &[Field],
    act: &Act,
    now: u64,
) -> Result<I::Effect, AllocError>
    requires known { IsTrue (I.has field.now.kind) }
    requires fitting { fits field.now.kind path.now act.now ≡ true }
    requires shallow { I.too_deep field.now.kind path.now ≡ false }
    ensures made { IfOk result (λ e. e ≡ I.generated field.now.kind (at I.initial fields.now field.now) path.now act.now now) }
    ensures ready { HoldsSpelled (map_holds I.holds) fields.now → IfOk result (λ e. is_ready_at I.is_of I.can_put I.sets field.now.kind e ≡ true) }
{
    match fields.get(field) {
        Some(state) => I::effect(alloc, field.kind, path, act, state, now),
        None => {
            let state = I::empty(alloc, field.kind)?;
            I::effect(alloc, field.kind, path, act, &state, now)
        }
    }
}
