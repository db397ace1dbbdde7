ghost use Rattle.std.specs.Prelude.{◌≡◌, IfOk};

use crate::{Fields, MapEffect};
use crdt_core::{Crdt, Field};
use field_codec::ListOf;
use std::alloc::{AllocError, Global};

/// Equal fields with equal states.
///
/// # Errors
///
/// `AllocError` where memory runs out.
pub fn copy_fields<I: Crdt>(
    alloc: Global,
    fields: &Fields<I::State>,
) -> Result<Fields<I::State>, AllocError>
    ensures { IfOk result (λ f. f ≡ fields.now) }
{
    let mut copied = Vec::with_capacity(alloc, fields.len())?;
    for (field, state) in fields.iter() {
        let name = field.copy(alloc)?;
        copied.push((name, I::copy(alloc, state)?))?;
    }
    Fields::of_list(alloc, copied)
}

/// An equal effect.
///
/// # Errors
///
/// `AllocError` where memory runs out.
pub fn copy_effect<I: Crdt>(
    alloc: Global,
    effect: &MapEffect<I::Effect>,
) -> Result<MapEffect<I::Effect>, AllocError>
    ensures { IfOk result (λ e. e ≡ effect.now) }
{
    match effect {
        MapEffect::At(field, inner) => {
            let name = field.copy(alloc)?;
            Ok(MapEffect::At(name, I::copy_effect(alloc, inner)?))
        }
        MapEffect::Resets(resets) => {
            Ok(MapEffect::Resets(copy_resets::<I>(alloc, resets.as_slice())?))
        }
    }
}

fn copy_resets<I: Crdt>(
    alloc: Global,
    resets: &[(Field, I::Effect)],
) -> Result<ListOf<(Field, I::Effect)>, AllocError>
    ensures { IfOk result (λ l. l ≡ resets.now) }
{
    let mut copied = ListOf::new(alloc);
    for (field, effect) in resets {
        let name = field.copy(alloc)?;
        copied.push((name, I::copy_effect(alloc, effect)?))?;
    }
    Ok(copied)
}
