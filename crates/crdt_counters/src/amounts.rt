ghost use Rattle.std.specs.Prelude.{◌≡◌, ◌+ℤ◌, ◌-ℤ◌, true};
ghost use Rattle.std.specs.Int.{int_wrap, w128};
ghost use Rattle.crdt_meanings.specs.CounterMeaning.{amount};
ghost use Rattle.crdt_counters.specs.EffectForm.{is_amount_number};

use crdt_core::Act;

/// The amount of an act, 0 where it has none.
pub fn amount_of(act: &Act) -> i64
    ensures amount { result ≡ amount act.now }
    ensures within { is_amount_number result ≡ true }
{
    match act {
        Act::Increment(amount) => *amount as i64,
        Act::Decrement(amount) => -(*amount as i64),
        _ => 0,
    }
}

/// A total and an amount, in 128 bits that wrap.
pub fn sum(total: i128, amount: i64) -> i128
    ensures { result ≡ int_wrap w128 (total +ℤ amount) }
{
    total.wrapping_add(amount as i128)
}

/// A total with an amount taken off, in 128 bits that wrap.
pub(crate) fn less(total: i128, amount: i64) -> i128
    ensures { result ≡ int_wrap w128 (total -ℤ amount) }
{
    total.wrapping_sub(amount as i128)
}
