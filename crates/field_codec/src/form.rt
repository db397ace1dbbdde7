ghost use Rattle.std.specs.Prelude.{◌≡◌, ◌≤◌, ◌++◌, ℕ, List, Bool, true, length, OnOk, OnErr, IfOk};
ghost use Rattle.field_codec.specs.Spelling.{Keeps};
ghost use Rattle.field_codec.specs.Reading.{Read, Gives};
ghost use Rattle.field_codec.specs.Lawful.{IsForm, IsPrefixFree};

use crate::TakeError;
use std::alloc::{AllocError, Global};

/// How the values of a type are spelled as bytes, each in one way. A value of a form holds what its
/// reader must be told besides the bytes.
pub trait Form {
    type Value: Drop;

    /// What `put` takes.
    ghost fits: { Self → Self.Value → Bool };

    /// What the types of its parts hold of each value besides.
    ghost keeps: { Self → Self.Value → Bool } = { λ _ _. true };

    /// What has a spelling: of what fits, that in which no list is too long to be counted.
    ghost is_spelled: { Self → Self.Value → Bool };

    ghost spelling: { Self → Self.Value → List ℕ };

    /// What reading at a place answers.
    ghost reading: { Self → List ℕ → ℕ → Read Self.Value };

    /// Whether in a list the second value may come next after the first.
    ghost follows: { Self → Self.Value → Self.Value → Bool };

    /// Appends the spelling.
    ///
    /// # Errors
    ///
    /// `AllocError` where memory runs out, or where a list has 2^32 members or more. What `out` held
    /// is at its front then, and what follows is not told.
    fn put(&self, out: &mut Vec<u8>, value: &Self::Value) -> Result<(), AllocError>
        requires { fits self.now value.now ≡ true }
        ensures spelled { OnOk result (is_spelled self.now value.now ≡ true) }
        ensures ok { OnOk result (out.new.items ≡ out.old.items ++ spelling self.now value.now) }
        ensures err { OnErr result (Keeps out.old.items out.new.items) };

    /// The value at a place, and the place after it.
    ///
    /// # Errors
    ///
    /// The first field that fails: `Short` where it is cut off, `Bad` where it is whole. At a place beyond the end it is
    /// cut off.
    fn take(
        &self,
        alloc: Global,
        bytes: &[u8],
        at: usize,
    ) -> Result<(Self::Value, usize), TakeError>
        ensures answer { Gives result (reading self.now bytes.now at) }
        ensures within { IfOk result (λ x. x.1 ≤ length bytes.now) };

    /// Whether in a list `value` may come next after `before`.
    fn may_follow(&self, before: &Self::Value, value: &Self::Value) -> bool
        ensures { result ≡ follows self.now before.now value.now };

    ghost laws: { (f : Self) → IsForm (fits f) (keeps f) (is_spelled f) (spelling f) (reading f) };
}

/// Appends the spelling.
///
/// # Errors
///
/// `AllocError` where memory runs out, or where a list has 2^32 members or more. `out` is as before then.
pub fn put_whole<F: Form>(form: &F, out: &mut Vec<u8>, value: &F::Value) -> Result<(), AllocError>
    requires { F.fits form.now value.now ≡ true }
    ensures spelled { OnOk result (F.is_spelled form.now value.now ≡ true) }
    ensures ok { OnOk result (out.new.items ≡ out.old.items ++ F.spelling form.now value.now) }
    ensures err { OnErr result (out.new.items ≡ out.old.items) }
{
    let start = out.len();
    let put = form.put(out, value);
    if put.is_err() {
        out.truncate(start);
    }
    put
}

/// No spelling of a value begins that of another, in any form.
pub fn law_prefix_free<F: Form>(form: &F)
    ensures { IsPrefixFree (F.is_spelled form.now) (F.spelling form.now) }
{}
