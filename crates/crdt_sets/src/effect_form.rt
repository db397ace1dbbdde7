ghost use Rattle.std.specs.Prelude.{◌≡◌, ◌≤◌, ◌++◌, true, length, OnOk, OnErr, IfOk, ◌&&◌};
ghost use Rattle.field_codec.specs.Spelling.{number, Keeps};
ghost use Rattle.field_codec.specs.Reading.{Gives, checked_at};
ghost use Rattle.crdt_sets.specs.EffectForm.{has_some, can_put_list, is_list_spelled, list_spelling, named_list_at, can_put_set, keeps_set, is_set_spelled, set_spelling, set_at, set_form};

use crate::named_form::NamedForm;
use crate::{Named, SetEffect};
use crdt_core::take_small;
use field_codec::{Form, ListOf, TakeError, put_list, put_u8, take_list};
use std::alloc::{AllocError, Global};

/// The form of the effects of a set from which elements can be removed.
#[derive(Clone, Copy, Debug)]
pub(crate) struct SetForm;

impl Form for SetForm {
    type Value = SetEffect;

    ghost fits = { λ _ e. can_put_set e };

    ghost keeps = { λ _ e. keeps_set e };

    ghost is_spelled = { λ _ e. is_set_spelled e };

    ghost spelling = { λ _ e. set_spelling e };

    ghost reading = { λ _ bytes at. set_at bytes at };

    ghost follows = { λ _ before e. true };

    fn put(&self, out: &mut Vec<u8>, value: &SetEffect) -> Result<(), AllocError> {
        match value {
            SetEffect::Add(named) => put_marked(out, 0, named.as_slice()),
            SetEffect::Remove(named) => put_marked(out, 1, named.as_slice()),
            SetEffect::Reset(named) => put_marked(out, 2, named.as_slice()),
        }
    }

    fn take(
        &self,
        alloc: Global,
        bytes: &[u8],
        at: usize,
    ) -> Result<(SetEffect, usize), TakeError> {
        take_set(alloc, bytes, at)
    }

    fn may_follow(&self, before: &SetEffect, value: &SetEffect) -> bool {
        true
    }

    ghost laws = { λ _. set_form };
}

fn put_marked(out: &mut Vec<u8>, mark: u8, named: &[Named]) -> Result<(), AllocError>
    requires { can_put_list named.now ≡ true }
    ensures spelled { OnOk result (is_list_spelled named.now ≡ true) }
    ensures ok { OnOk result (out.new.items ≡ out.old.items ++ (number 1 mark ++ list_spelling named.now)) }
    ensures err { OnErr result (Keeps out.old.items out.new.items) }
{
    put_u8(out, mark)?;
    put_list(&NamedForm, out, named)
}

#[tactic(auto, unfolding(crate::specs::EffectForm::set_at, crate::specs::EffectForm::set_rest_at))]
fn take_set(alloc: Global, bytes: &[u8], at: usize) -> Result<(SetEffect, usize), TakeError>
    ensures answer { Gives result (set_at bytes.now at) }
    ensures within { IfOk result (λ x. x.1 ≤ length bytes.now) }
{
    let (mark, list_at) = take_small(bytes, at, 0, 2)?;
    if mark == 0 {
        let (named, end) = take_some_named(alloc, bytes, list_at)?;
        return Ok((SetEffect::Add(named), end));
    }
    if mark == 1 {
        let (named, end) = take_some_named(alloc, bytes, list_at)?;
        return Ok((SetEffect::Remove(named), end));
    }
    let (named, end) = take_named(alloc, bytes, list_at)?;
    Ok((SetEffect::Reset(named), end))
}

fn take_named(alloc: Global, bytes: &[u8], at: usize) -> Result<(ListOf<Named>, usize), TakeError>
    ensures answer { Gives result (named_list_at bytes.now at) }
    ensures within { IfOk result (λ x. x.1 ≤ length bytes.now) }
{
    take_list(&NamedForm, alloc, bytes, at)
}

/// A list that isn't empty.
fn take_some_named(
    alloc: Global,
    bytes: &[u8],
    at: usize,
) -> Result<(ListOf<Named>, usize), TakeError>
    ensures answer { Gives result (checked_at has_some named_list_at bytes.now at) }
    ensures within { IfOk result (λ x. x.1 ≤ length bytes.now) }
{
    let (named, end) = take_named(alloc, bytes, at)?;
    if named.as_slice().is_empty() {
        return Err(TakeError::Bad { at });
    }
    Ok((named, end))
}
