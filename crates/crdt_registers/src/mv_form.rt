ghost use Rattle.std.specs.Prelude.{◌≡◌, ◌≤◌, ◌++◌, ◌&&◌, true, length, OnOk, OnErr, IfOk};
ghost use Rattle.field_codec.specs.Spelling.{number, text as text_spelling, is_text, Keeps};
ghost use Rattle.field_codec.specs.Reading.{Gives};
ghost use Rattle.crdt_core.specs.Spelled.{are_dots, is_dots, dots as dots_spelling};
ghost use Rattle.crdt_registers.specs.MvForm.{can_put_mv, keeps_mv, is_mv_spelled, mv_spelling, mv_rest_at, mv_at, mv_form};

use crate::MvEffect;
use crdt_core::{Dots, put_dots, take_dots};
use field_codec::{Form, TakeError, Text, put_text, put_u8, take_text, take_u8};
use std::alloc::{AllocError, Global};

/// The first byte of an assign.
const ASSIGN: u8 = 0;

/// The first byte of a reset.
const RESET: u8 = 2;

/// The form of the effects of the register that keeps the texts of concurrent assigns.
#[derive(Clone, Copy, Debug)]
pub(crate) struct MvForm;

impl Form for MvForm {
    type Value = MvEffect;

    ghost fits = { λ _ e. can_put_mv e };

    ghost keeps = { λ _ e. keeps_mv e };

    ghost is_spelled = { λ _ e. is_mv_spelled e };

    ghost spelling = { λ _ e. mv_spelling e };

    ghost reading = { λ _ bytes at. mv_at bytes at };

    ghost follows = { λ _ before e. true };

    fn put(&self, out: &mut Vec<u8>, value: &MvEffect) -> Result<(), AllocError> {
        match value {
            MvEffect::Assign { text, dots } => put_assign(out, text, dots),
            MvEffect::Reset(dots) => put_reset(out, dots),
        }
    }

    fn take(&self, alloc: Global, bytes: &[u8], at: usize) -> Result<(MvEffect, usize), TakeError> {
        take_effect(alloc, bytes, at)
    }

    fn may_follow(&self, before: &MvEffect, value: &MvEffect) -> bool {
        true
    }

    ghost laws = { λ _. mv_form };
}

fn put_assign(out: &mut Vec<u8>, text: &Text, dots: &Dots) -> Result<(), AllocError>
    requires { are_dots dots.now ≡ true }
    ensures text { OnOk result (is_text text.now ≡ true) }
    ensures dots { OnOk result (is_dots dots.now ≡ true) }
    ensures ok { OnOk result (out.new.items ≡ out.old.items ++ (number 1 0 ++ (text_spelling text.now ++ dots_spelling dots.now))) }
    ensures err { OnErr result (Keeps out.old.items out.new.items) }
{
    put_u8(out, ASSIGN)?;
    put_text(out, text)?;
    put_dots(out, dots)
}

fn put_reset(out: &mut Vec<u8>, dots: &Dots) -> Result<(), AllocError>
    requires { are_dots dots.now ≡ true }
    ensures spelled { OnOk result (is_dots dots.now ≡ true) }
    ensures ok { OnOk result (out.new.items ≡ out.old.items ++ (number 1 2 ++ dots_spelling dots.now)) }
    ensures err { OnErr result (Keeps out.old.items out.new.items) }
{
    put_u8(out, RESET)?;
    put_dots(out, dots)
}

#[tactic(auto, unfolding(crate::specs::MvForm::mv_at))]
fn take_effect(alloc: Global, bytes: &[u8], at: usize) -> Result<(MvEffect, usize), TakeError>
    ensures answer { Gives result (mv_at bytes.now at) }
    ensures within { IfOk result (λ x. x.1 ≤ length bytes.now) }
{
    let (mark, rest_at) = take_u8(bytes, at)?;
    if mark != ASSIGN && mark != RESET {
        return Err(TakeError::Bad { at });
    }
    take_rest(alloc, mark, bytes, rest_at)
}

/// What stands behind the first byte.
fn take_rest(
    alloc: Global,
    mark: u8,
    bytes: &[u8],
    at: usize,
) -> Result<(MvEffect, usize), TakeError>
    ensures answer { Gives result (mv_rest_at mark bytes.now at) }
    ensures within { IfOk result (λ x. x.1 ≤ length bytes.now) }
{
    if mark == ASSIGN {
        return take_assign(alloc, bytes, at);
    }
    let (dots, end) = take_dots(alloc, bytes, at)?;
    Ok((MvEffect::Reset(dots), end))
}

fn take_assign(alloc: Global, bytes: &[u8], at: usize) -> Result<(MvEffect, usize), TakeError>
    ensures answer { Gives result (mv_rest_at 0 bytes.now at) }
    ensures within { IfOk result (λ x. x.1 ≤ length bytes.now) }
{
    let (text, dots_at) = take_text(alloc, bytes, at)?;
    let (dots, end) = take_dots(alloc, bytes, dots_at)?;
    Ok((MvEffect::Assign { text, dots }, end))
}
