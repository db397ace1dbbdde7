ghost use Rattle.std.specs.Prelude.{◌≡◌, ◌≤◌, ◌++◌, true, length, OnOk, OnErr, IfOk};
ghost use Rattle.field_codec.specs.Spelling.{number, Keeps};
ghost use Rattle.field_codec.specs.Reading.{Gives};
ghost use Rattle.crdt_core.specs.Spelled.{are_dots, is_dots, dots as dots_spelling};
ghost use Rattle.crdt_flags.specs.EffectForm.{flag_mark, marked_flag, can_put_flag, keeps_flag, is_flag_spelled, flag_spelling, flag_at, flag_form};

use crate::FlagEffect;
use crdt_core::{Dots, put_dots, take_dots, take_small};
use field_codec::{Form, TakeError, put_u8};
use std::alloc::{AllocError, Global};

/// The form of a flag's effects.
#[derive(Clone, Copy, Debug)]
pub(crate) struct FlagForm;

impl Form for FlagForm {
    type Value = FlagEffect;

    ghost fits = { λ _ e. can_put_flag e };

    ghost keeps = { λ _ e. keeps_flag e };

    ghost is_spelled = { λ _ e. is_flag_spelled e };

    ghost spelling = { λ _ e. flag_spelling e };

    ghost reading = { λ _ bytes at. flag_at bytes at };

    ghost follows = { λ _ before e. true };

    fn put(&self, out: &mut Vec<u8>, value: &FlagEffect) -> Result<(), AllocError> {
        match value {
            FlagEffect::Enable(dots) => put_marked(out, 0, dots),
            FlagEffect::Disable(dots) => put_marked(out, 1, dots),
            FlagEffect::Reset(dots) => put_marked(out, 2, dots),
        }
    }

    fn take(
        &self,
        alloc: Global,
        bytes: &[u8],
        at: usize,
    ) -> Result<(FlagEffect, usize), TakeError> {
        take_flag(alloc, bytes, at)
    }

    fn may_follow(&self, before: &FlagEffect, value: &FlagEffect) -> bool {
        true
    }

    ghost laws = { λ _. flag_form };
}

fn put_marked(out: &mut Vec<u8>, mark: u8, dots: &Dots) -> Result<(), AllocError>
    requires { are_dots dots.now ≡ true }
    ensures spelled { OnOk result (is_dots dots.now ≡ true) }
    ensures ok { OnOk result (out.new.items ≡ out.old.items ++ (number 1 mark ++ dots_spelling dots.now)) }
    ensures err { OnErr result (Keeps out.old.items out.new.items) }
{
    put_u8(out, mark)?;
    put_dots(out, dots)
}

#[tactic(auto, unfolding(crate::specs::EffectForm::flag_at))]
fn take_flag(alloc: Global, bytes: &[u8], at: usize) -> Result<(FlagEffect, usize), TakeError>
    ensures answer { Gives result (flag_at bytes.now at) }
    ensures within { IfOk result (λ x. x.1 ≤ length bytes.now) }
{
    let (mark, dots_at) = take_small(bytes, at, 0, 2)?;
    let (dots, end) = take_dots(alloc, bytes, dots_at)?;
    Ok((effect_marked(mark, dots), end))
}

fn effect_marked(mark: u8, dots: Dots) -> FlagEffect
    ensures { result ≡ marked_flag (mark, dots) }
{
    match mark {
        0 => FlagEffect::Enable(dots),
        1 => FlagEffect::Disable(dots),
        _ => FlagEffect::Reset(dots),
    }
}
