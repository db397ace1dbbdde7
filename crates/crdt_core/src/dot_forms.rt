ghost use Rattle.std.specs.Prelude.{◌≡◌, ◌≤◌, ◌++◌, true, length, OnOk, OnErr, IfOk};
ghost use Rattle.std.specs.List.{list_all};
ghost use Rattle.field_codec.specs.Spelling.{is_below};
ghost use Rattle.field_codec.specs.Reading.{Gives};
ghost use Rattle.site_vector.specs.Order.{dot_cmp};
ghost use Rattle.crdt_core.specs.DotSet.{IsAscending};
ghost use Rattle.crdt_core.specs.Spelled.{is_dot, dot, dot_at, is_dots, dots, dots_at};
ghost use Rattle.crdt_core.specs.SpelledLaws.{dot_form};

use crate::{Dots, put_dot, take_dot};
use field_codec::{Form, ListOf, TakeError, put_list, take_list};
use site_vector::Dot;
use std::alloc::{AllocError, Global};

/// The form of updates. Lists of them ascend.
#[derive(Clone, Copy, Debug)]
pub struct DotForm;

impl Form for DotForm {
    type Value = Dot;

    ghost fits = { λ _ d. is_dot d };

    ghost is_spelled = { λ _ d. is_dot d };

    ghost spelling = { λ _ d. dot d };

    ghost reading = { λ _ bytes at. dot_at bytes at };

    ghost follows = { λ _ before d. is_below dot_cmp before d };

    fn put(&self, out: &mut Vec<u8>, value: &Dot) -> Result<(), AllocError> {
        put_dot(out, *value)
    }

    #[tactic(auto, using(crate::proofs::FormSteps::gives_same))]
    fn take(&self, alloc: Global, bytes: &[u8], at: usize) -> Result<(Dot, usize), TakeError> {
        take_dot(bytes, at)
    }

    fn may_follow(&self, before: &Dot, value: &Dot) -> bool {
        before < value
    }

    ghost laws = { λ _. dot_form };
}

/// Appends the updates as an ascending list.
///
/// # Errors
///
/// `AllocError` where memory runs out, or where there are 2^32 updates or more. `out` is as before then.
pub fn put_dots(out: &mut Vec<u8>, d: &Dots) -> Result<(), AllocError>
    requires { list_all is_dot d.now ≡ true }
    ensures spelled { OnOk result (is_dots d.now ≡ true) }
    ensures ok { OnOk result (out.new.items ≡ out.old.items ++ dots d.now) }
    ensures err { OnErr result (out.new.items ≡ out.old.items) }
{
    put_ascending(out, d.as_slice())
}

#[tactic(auto, using(crate::proofs::FormSteps::dots_fit))]
fn put_ascending(out: &mut Vec<u8>, d: &[Dot]) -> Result<(), AllocError>
    requires spelled { list_all is_dot d.now ≡ true }
    requires ascending { IsAscending d.now }
    ensures spelled { OnOk result (is_dots d.now ≡ true) }
    ensures ok { OnOk result (out.new.items ≡ out.old.items ++ dots d.now) }
    ensures err { OnErr result (out.new.items ≡ out.old.items) }
{
    put_list(&DotForm, out, d)
}

/// The updates at a place, and the place after them. Takes memory for what is read, whatever the count
/// says.
///
/// # Errors
///
/// The first field that fails: `Short` where it is cut off, `Bad` where it is whole. An update that isn't
/// above the one before it is `Bad` at its own first byte, once it is read.
pub fn take_dots(alloc: Global, bytes: &[u8], at: usize) -> Result<(Dots, usize), TakeError>
    ensures answer { Gives result (dots_at bytes.now at) }
    ensures within { IfOk result (λ x. x.1 ≤ length bytes.now) }
{
    let (list, end) = take_ascending(alloc, bytes, at)?;
    Ok((Dots::of_ascending(list.into_vec()), end))
}

fn take_ascending(alloc: Global, bytes: &[u8], at: usize) -> Result<(ListOf<Dot>, usize), TakeError>
    ensures answer { Gives result (dots_at bytes.now at) }
    ensures ascending { IfOk result (λ x. IsAscending x.0) }
    ensures within { IfOk result (λ x. x.1 ≤ length bytes.now) }
{
    take_list(&DotForm, alloc, bytes, at)
}
