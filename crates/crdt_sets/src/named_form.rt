ghost use Rattle.std.specs.Prelude.{◌≡◌, ◌≤◌, ◌++◌, true, length, OnOk, OnErr, IfOk};
ghost use Rattle.field_codec.specs.Spelling.{Keeps, is_below};
ghost use Rattle.field_codec.specs.Reading.{Gives};
ghost use Rattle.crdt_core.specs.Spelled.{are_dots};
ghost use Rattle.crdt_sets.specs.EffectForm.{named_cmp, keeps_named, is_named, named as named_spelling, named_at, named_form};

use crate::Named;
use crdt_core::{put_dots, take_dots};
use field_codec::{Form, TakeError, put_text, take_text};
use std::alloc::{AllocError, Global};

/// The form of an element with its dots. Lists of them ascend by the elements.
#[derive(Clone, Copy, Debug)]
pub(crate) struct NamedForm;

impl Form for NamedForm {
    type Value = Named;

    ghost fits = { λ _ n. are_dots n.dots };

    ghost keeps = { λ _ n. keeps_named n };

    ghost is_spelled = { λ _ n. is_named n };

    ghost spelling = { λ _ n. named_spelling n };

    ghost reading = { λ _ bytes at. named_at bytes at };

    ghost follows = { λ _ before n. is_below named_cmp before n };

    fn put(&self, out: &mut Vec<u8>, value: &Named) -> Result<(), AllocError> {
        put_text(out, &value.text)?;
        put_dots(out, &value.dots)
    }

    #[tactic(auto, unfolding(crate::specs::EffectForm::named_at))]
    fn take(&self, alloc: Global, bytes: &[u8], at: usize) -> Result<(Named, usize), TakeError> {
        let (text, dots_at) = take_text(alloc, bytes, at)?;
        let (dots, end) = take_dots(alloc, bytes, dots_at)?;
        Ok((Named { text, dots }, end))
    }

    fn may_follow(&self, before: &Named, value: &Named) -> bool {
        before.text < value.text
    }

    ghost laws = { λ _. named_form };
}
