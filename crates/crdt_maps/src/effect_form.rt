ghost use Rattle.std.specs.Prelude.{◌≡◌, ◌≤◌, ◌++◌, true, length, OnOk, OnErr, IfOk};
ghost use Rattle.field_codec.specs.Spelling.{number, list, are_members, is_list, Keeps};
ghost use Rattle.field_codec.specs.Reading.{Gives, list_at};
ghost use Rattle.crdt_core.specs.declared.kind.Kind.TheVariants.{MapRr};
ghost use Rattle.crdt_maps.specs.EffectForm.{may_nest, entry, entry_below, can_put_reset, is_reset_spelled, reset_at, map_can_put, map_keeps, map_is_spelled, map_spelling, map_at, map_form};

use crate::MapEffect;
use crate::entry_form::{ResetForm, put_entry, take_entry};
use crate::values::kind_of;
use crdt_core::{Crdt, Field, take_small};
use field_codec::{Form, ListOf, TakeError, put_list, put_u8, take_list};
use std::alloc::{AllocError, Global};
use std::marker::PhantomData;

/// The mark of an effect at a field.
const AT: u8 = 0;

/// The mark of a reset or a drop.
const RESETS: u8 = 1;

/// The form of the effects of a map, by whether its fields can be dropped.
#[derive(Drop)]
pub(crate) struct MapForm<I: Crdt> {
    pub(crate) drops: bool,
    pub(crate) inner: PhantomData<I>,
}

impl<I: Crdt> Form for MapForm<I> {
    type Value = MapEffect<I::Effect>;

    ghost fits = { λ f e. map_can_put f.drops I.has I.is_of I.can_put I.spelling e };

    ghost keeps = { λ _ e. map_keeps I.keeps e };

    ghost is_spelled = { λ f e. map_is_spelled f.drops I.has I.is_of I.is_spelled I.spelling e };

    ghost spelling = { λ f e. map_spelling f.drops I.spelling e };

    ghost reading = { λ f bytes at. map_at f.drops I.has I.reading bytes at };

    ghost follows = { λ _ before e. true };

    fn put(&self, out: &mut Vec<u8>, value: &MapEffect<I::Effect>) -> Result<(), AllocError> {
        match value {
            MapEffect::At(field, effect) => {
                put_u8(out, AT)?;
                put_entry::<I>(out, field, effect)
            }
            MapEffect::Resets(resets) => put_resets::<I>(out, resets.as_slice()),
        }
    }

    fn take(
        &self,
        alloc: Global,
        bytes: &[u8],
        at: usize,
    ) -> Result<(MapEffect<I::Effect>, usize), TakeError> {
        take_map::<I>(alloc, self.drops, bytes, at)
    }

    fn may_follow(&self, before: &MapEffect<I::Effect>, value: &MapEffect<I::Effect>) -> bool {
        true
    }

    ghost laws = { λ f. map_form I.spells f.drops };
}

fn put_resets<I: Crdt>(out: &mut Vec<u8>, resets: &[(Field, I::Effect)]) -> Result<(), AllocError>
    requires { are_members entry_below (can_put_reset (may_nest MapRr I.has) I.is_of I.can_put I.spelling) resets.now ≡ true }
    ensures spelled { OnOk result (is_list entry_below (is_reset_spelled (may_nest MapRr I.has) I.is_of I.is_spelled I.spelling) resets.now ≡ true) }
    ensures ok { OnOk result (out.new.items ≡ out.old.items ++ (number 1 1 ++ list (entry I.spelling) resets.now)) }
    ensures err { OnErr result (Keeps out.old.items out.new.items) }
{
    put_u8(out, RESETS)?;
    let form: ResetForm<I> = ResetForm { inner: PhantomData };
    put_list(&form, out, resets)
}

fn take_resets<I: Crdt>(
    alloc: Global,
    bytes: &[u8],
    at: usize,
) -> Result<(ListOf<(Field, I::Effect)>, usize), TakeError>
    ensures answer { Gives result (list_at entry_below (reset_at (may_nest MapRr I.has) I.reading) bytes.now at) }
    ensures within { IfOk result (λ x. x.1 ≤ length bytes.now) }
{
    let form: ResetForm<I> = ResetForm { inner: PhantomData };
    take_list(&form, alloc, bytes, at)
}

#[tactic(auto, unfolding(crate::specs::EffectForm::map_at, crate::specs::EffectForm::map_rest_at))]
fn take_map<I: Crdt>(
    alloc: Global,
    drops: bool,
    bytes: &[u8],
    at: usize,
) -> Result<(MapEffect<I::Effect>, usize), TakeError>
    ensures answer { Gives result (map_at drops I.has I.reading bytes.now at) }
    ensures within { IfOk result (λ x. x.1 ≤ length bytes.now) }
{
    let (mark, rest_at) = take_small(bytes, at, AT, if drops { RESETS } else { AT })?;
    if mark == AT {
        let (entry, end) = take_entry::<I>(alloc, kind_of(drops), bytes, rest_at)?;
        let (field, effect) = entry;
        return Ok((MapEffect::At(field, effect), end));
    }
    let (resets, end) = take_resets::<I>(alloc, bytes, rest_at)?;
    Ok((MapEffect::Resets(resets), end))
}
