ghost use Rattle.std.specs.Prelude.{◌≡◌, ◌≤◌, ◌++◌, true, length, OnOk, OnErr, IfOk};
ghost use Rattle.field_codec.specs.Spelling.{number, Keeps};
ghost use Rattle.field_codec.specs.Reading.{Gives};
ghost use Rattle.crdt_core.specs.Spelled.{are_dots, is_dots, dots as dots_spelling};
ghost use Rattle.crdt_counters.specs.EffectForm.{can_put_fat, keeps_fat, is_fat_spelled, fat_spelling, fat_at, fat_form, amount_spelling};

use crate::FatEffect;
use crate::amount_form::{put_amount, take_amount};
use crdt_core::{Dots, put_dots, take_dots, take_small};
use field_codec::{Form, TakeError, put_u8};
use std::alloc::{AllocError, Global};

/// The form of the effects of a counter that can be reset.
#[derive(Clone, Copy, Debug)]
pub(crate) struct FatForm;

impl Form for FatForm {
    type Value = FatEffect;

    ghost fits = { λ _ e. can_put_fat e };

    ghost keeps = { λ _ e. keeps_fat e };

    ghost is_spelled = { λ _ e. is_fat_spelled e };

    ghost spelling = { λ _ e. fat_spelling e };

    ghost reading = { λ _ bytes at. fat_at bytes at };

    ghost follows = { λ _ before e. true };

    fn put(&self, out: &mut Vec<u8>, value: &FatEffect) -> Result<(), AllocError> {
        match value {
            FatEffect::Amount(amount) => put_marked_amount(out, *amount),
            FatEffect::Reset(dots) => put_marked_dots(out, dots),
        }
    }

    fn take(
        &self,
        alloc: Global,
        bytes: &[u8],
        at: usize,
    ) -> Result<(FatEffect, usize), TakeError> {
        take_fat(alloc, bytes, at)
    }

    fn may_follow(&self, before: &FatEffect, value: &FatEffect) -> bool {
        true
    }

    ghost laws = { λ _. fat_form };
}

fn put_marked_amount(out: &mut Vec<u8>, amount: i64) -> Result<(), AllocError>
    ensures ok { OnOk result (out.new.items ≡ out.old.items ++ (number 1 0 ++ amount_spelling amount)) }
    ensures err { OnErr result (Keeps out.old.items out.new.items) }
{
    put_u8(out, 0)?;
    put_amount(out, amount)
}

fn put_marked_dots(out: &mut Vec<u8>, dots: &Dots) -> Result<(), AllocError>
    requires { are_dots dots.now ≡ true }
    ensures spelled { OnOk result (is_dots dots.now ≡ true) }
    ensures ok { OnOk result (out.new.items ≡ out.old.items ++ (number 1 1 ++ dots_spelling dots.now)) }
    ensures err { OnErr result (Keeps out.old.items out.new.items) }
{
    put_u8(out, 1)?;
    put_dots(out, dots)
}

#[tactic(auto, unfolding(crate::specs::EffectForm::fat_at, crate::specs::EffectForm::fat_rest_at))]
fn take_fat(alloc: Global, bytes: &[u8], at: usize) -> Result<(FatEffect, usize), TakeError>
    ensures answer { Gives result (fat_at bytes.now at) }
    ensures within { IfOk result (λ x. x.1 ≤ length bytes.now) }
{
    let (mark, rest_at) = take_small(bytes, at, 0, 1)?;
    if mark == 0 {
        let (amount, end) = take_amount(bytes, rest_at)?;
        return Ok((FatEffect::Amount(amount), end));
    }
    let (dots, end) = take_dots(alloc, bytes, rest_at)?;
    Ok((FatEffect::Reset(dots), end))
}
