ghost use Rattle.std.specs.Prelude.{◌≡◌, ◌≤◌, ◌++◌, true, length, OnOk, OnErr, IfOk};
ghost use Rattle.field_codec.specs.Reading.{Gives};
ghost use Rattle.crdt_counters.specs.EffectForm.{is_amount_number, amount_spelling, amount_at, amount_form};

use field_codec::{Form, TakeError, put_u64, take_u64};
use std::alloc::{AllocError, Global};

/// The form of amounts.
#[derive(Clone, Copy, Debug)]
pub(crate) struct AmountForm;

impl Form for AmountForm {
    type Value = i64;

    ghost fits = { λ _ n. is_amount_number n };

    ghost is_spelled = { λ _ n. is_amount_number n };

    ghost spelling = { λ _ n. amount_spelling n };

    ghost reading = { λ _ bytes at. amount_at bytes at };

    ghost follows = { λ _ before n. true };

    fn put(&self, out: &mut Vec<u8>, value: &i64) -> Result<(), AllocError> {
        put_amount(out, *value)
    }

    fn take(&self, alloc: Global, bytes: &[u8], at: usize) -> Result<(i64, usize), TakeError> {
        take_amount(bytes, at)
    }

    fn may_follow(&self, before: &i64, value: &i64) -> bool {
        true
    }

    ghost laws = { λ _. amount_form };
}

/// The least amount.
const LEAST_AMOUNT: i64 = -2_147_483_648;

/// The greatest amount.
const MOST_AMOUNT: i64 = 2_147_483_648;

/// Appends the amount in two's complement.
pub(crate) fn put_amount(out: &mut Vec<u8>, amount: i64) -> Result<(), AllocError>
    ensures ok { OnOk result (out.new.items ≡ out.old.items ++ amount_spelling amount) }
    ensures err { OnErr result (out.new.items ≡ out.old.items) }
{
    put_u64(out, amount.cast_unsigned())
}

/// The amount at a place, and the place after it.
#[tactic(auto, unfolding(crate::specs::EffectForm::amount_at))]
pub(crate) fn take_amount(bytes: &[u8], at: usize) -> Result<(i64, usize), TakeError>
    ensures answer { result ≡ amount_at bytes.now at }
    ensures within { IfOk result (λ x. x.1 ≤ length bytes.now) }
{
    let (bits, end) = take_u64(bytes, at)?;
    let amount = bits.cast_signed();
    if amount < LEAST_AMOUNT || amount > MOST_AMOUNT {
        return Err(TakeError::Bad { at });
    }
    Ok((amount, end))
}
