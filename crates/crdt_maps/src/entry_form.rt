ghost use Rattle.std.specs.Prelude.{◌≡◌, ◌≤◌, ◌++◌, ◌&&◌, true, length, OnOk, OnErr, IfOk, IsTrue};
ghost use Rattle.field_codec.specs.Spelling.{Keeps, is_text};
ghost use Rattle.field_codec.specs.Reading.{Gives};
ghost use Rattle.crdt_core.specs.declared.kind.Kind.TheVariants.{MapRr};
ghost use Rattle.crdt_core.specs.EffectForm.{reset_tag};
ghost use Rattle.crdt_maps.specs.EffectForm.{may_nest, field_at, opened_at, entry, entry_at, can_put_reset, keeps_entry, is_reset_spelled, reset_at, entry_below, reset_form};

use crdt_core::{Crdt, Field, Kind, nests_in, put_kind, take_kind};
use field_codec::{Form, TakeError, put_text, take_text, take_u8};
use std::alloc::{AllocError, Global};
use std::marker::PhantomData;

/// Appends a field and an effect of its kind.
///
/// # Errors
///
/// `AllocError` where memory runs out, or where a list has 2^32 members or more.
pub(crate) fn put_entry<I: Crdt>(
    out: &mut Vec<u8>,
    field: &Field,
    effect: &I::Effect,
) -> Result<(), AllocError>
    requires { I.can_put effect.now ≡ true }
    ensures text { OnOk result (is_text field.now.name ≡ true) }
    ensures spelled { OnOk result (I.is_spelled effect.now ≡ true) }
    ensures ok { OnOk result (out.new.items ≡ out.old.items ++ entry I.spelling (field.now, effect.now)) }
    ensures err { OnErr result (Keeps out.old.items out.new.items) }
{
    put_text(out, &field.name)?;
    put_kind(out, field.kind)?;
    I::put_effect(out, effect)
}

/// The field at a place, of a kind that may stand in the outer one and that the inner type has, and the place after it.
///
/// # Errors
///
/// The first field of the form that fails: `Short` where it is cut off, `Bad` where it is whole.
#[tactic(auto, unfolding(crate::specs::EffectForm::field_at))]
fn take_field<I: Crdt>(
    alloc: Global,
    outer: Kind,
    bytes: &[u8],
    at: usize,
) -> Result<(Field, usize), TakeError>
    ensures answer { Gives result (field_at (may_nest outer I.has) bytes.now at) }
    ensures within { IfOk result (λ x. x.1 ≤ length bytes.now) }
    ensures known { IfOk result (λ x. I.has x.0.kind ≡ true) }
{
    let (name, kind_at) = take_text(alloc, bytes, at)?;
    let (kind, end) = take_kind(bytes, kind_at)?;
    if !nests_in(outer, kind) {
        return Err(TakeError::Bad { at: kind_at });
    }
    if !I::has(kind) {
        return Err(TakeError::Bad { at: kind_at });
    }
    Ok((Field { name, kind }, end))
}

/// The field at a place with an effect of its kind, and the place after them.
///
/// # Errors
///
/// The first field of the form that fails: `Short` where it is cut off, `Bad` where it is whole.
#[tactic(auto, unfolding(crate::specs::EffectForm::entry_at))]
pub(crate) fn take_entry<I: Crdt>(
    alloc: Global,
    outer: Kind,
    bytes: &[u8],
    at: usize,
) -> Result<((Field, I::Effect), usize), TakeError>
    ensures answer { Gives result (entry_at (may_nest outer I.has) I.reading bytes.now at) }
    ensures within { IfOk result (λ x. x.1 ≤ length bytes.now) }
{
    let (field, effect_at) = take_field::<I>(alloc, outer, bytes, at)?;
    let (effect, end) = I::take_effect(alloc, field.kind, bytes, effect_at)?;
    Ok(((field, effect), end))
}

/// The first byte of the resets of a kind.
fn reset_tag(kind: Kind) -> u8
    ensures { result ≡ reset_tag kind }
{
    match kind {
        Kind::CounterFat | Kind::MapRr => 1,
        _ => 2,
    }
}

/// The effect at a place that begins as a reset of the kind does, and the place after it.
///
/// # Errors
///
/// The first field of the form that fails: `Short` where it is cut off, `Bad` where it is whole.
fn take_opened<I: Crdt>(
    alloc: Global,
    kind: Kind,
    bytes: &[u8],
    at: usize,
) -> Result<(I::Effect, usize), TakeError>
    requires known { IsTrue (I.has kind) }
    ensures answer { Gives result (opened_at (reset_tag kind) (I.reading kind) bytes.now at) }
    ensures within { IfOk result (λ x. x.1 ≤ length bytes.now) }
{
    let (tag, _) = take_u8(bytes, at)?;
    if tag != reset_tag(kind) {
        return Err(TakeError::Bad { at });
    }
    I::take_effect(alloc, kind, bytes, at)
}

#[tactic(auto, unfolding(crate::specs::EffectForm::reset_at))]
fn take_reset<I: Crdt>(
    alloc: Global,
    bytes: &[u8],
    at: usize,
) -> Result<((Field, I::Effect), usize), TakeError>
    ensures answer { Gives result (reset_at (may_nest MapRr I.has) I.reading bytes.now at) }
    ensures within { IfOk result (λ x. x.1 ≤ length bytes.now) }
{
    let (field, effect_at) = take_field::<I>(alloc, Kind::MapRr, bytes, at)?;
    let (effect, end) = take_opened::<I>(alloc, field.kind, bytes, effect_at)?;
    Ok(((field, effect), end))
}

/// The form of what a reset of a map undoes of a field. Lists of them ascend by the fields.
#[derive(Drop)]
pub(crate) struct ResetForm<I: Crdt> {
    pub(crate) inner: PhantomData<I>,
}

impl<I: Crdt> Form for ResetForm<I> {
    type Value = (Field, I::Effect);

    ghost fits = { λ _ x. can_put_reset (may_nest MapRr I.has) I.is_of I.can_put I.spelling x };

    ghost keeps = { λ _ x. keeps_entry I.keeps x };

    ghost is_spelled = { λ _ x. is_reset_spelled (may_nest MapRr I.has) I.is_of I.is_spelled I.spelling x };

    ghost spelling = { λ _ x. entry I.spelling x };

    ghost reading = { λ _ bytes at. reset_at (may_nest MapRr I.has) I.reading bytes at };

    ghost follows = { λ _ before x. entry_below before x };

    fn put(&self, out: &mut Vec<u8>, value: &(Field, I::Effect)) -> Result<(), AllocError> {
        put_entry::<I>(out, &value.0, &value.1)
    }

    fn take(
        &self,
        alloc: Global,
        bytes: &[u8],
        at: usize,
    ) -> Result<((Field, I::Effect), usize), TakeError> {
        take_reset::<I>(alloc, bytes, at)
    }

    fn may_follow(&self, before: &(Field, I::Effect), value: &(Field, I::Effect)) -> bool {
        before.0 < value.0
    }

    ghost laws = { λ _. reset_form I.spells MapRr };
}
