ghost use Rattle.std.specs.Prelude.{◌≡◌, ◌+◌, ℕ, [], true, false};
ghost use Rattle.seat_rule.specs.Lists.{has, front_of, behind};
ghost use Rattle.seat_rule.specs.Views.{reader, without, first_writer, other_writer};
ghost use Rattle.seat_rule.specs.Sizes.{places};

use crate::rule::{Law, Seat, Traces};
use crate::view::View;
use atomic_table::Split;

/// The new seat has seen as much, and holds nothing.
struct Copies;

impl<T> Split<View<T>> for Copies {
    ghost left = { λ v. v };

    ghost right = { λ v. reader v.past.lists [] };
}

/// The new seat takes the numbers.
struct Hands;

impl<T> Split<View<T>> for Hands {
    ghost left = { λ v. without v };

    ghost right = { λ v. reader v.past.lists v.past.numbers };
}

/// The new seat takes the first of the traces that the seat writes.
struct Shares;

impl<T> Split<View<T>> for Shares {
    ghost left = { λ v. other_writer v };

    ghost right = { λ v. first_writer v };
}

/// A second seat, which has seen what this one has, and holds nothing.
pub fn split<T, F: Law<T>>(traces: &Traces<T, F>, seat: &mut Seat<T>) -> Seat<T>
    requires here { (seat.old.table_id ≡ traces.now.table_id) × (traces.now.table_id.words ≡ places traces.now.key + 1) }
    ensures same { (seat.new.table_id ≡ seat.old.table_id) × (seat.new.id ≡ seat.old.id) × (seat.new.me ≡ seat.old.me) }
    ensures second { (result.table_id ≡ seat.old.table_id) × (result.me ≡ (reader seat.old.me.0.past.lists [], [])) }
{
    traces.split_seat::<Copies>(seat)
}

/// A second seat, which has seen what this one has, and takes all its numbers.
pub fn hand<T, F: Law<T>>(traces: &Traces<T, F>, seat: &mut Seat<T>) -> Seat<T>
    requires here { (seat.old.table_id ≡ traces.now.table_id) × (traces.now.table_id.words ≡ places traces.now.key + 1) }
    ensures same { (seat.new.table_id ≡ seat.old.table_id) × (seat.new.id ≡ seat.old.id)
        × (seat.new.me ≡ (without seat.old.me.0, seat.old.me.1)) }
    ensures second { (result.table_id ≡ seat.old.table_id)
        × (result.me ≡ (reader seat.old.me.0.past.lists seat.old.me.0.past.numbers, [])) }
{
    traces.split_seat::<Hands>(seat)
}

/// A second seat, which takes the first of the traces that this one writes.
pub fn split_writer<T, F: Law<T>>(traces: &Traces<T, F>, seat: &mut Seat<T>) -> Seat<T>
    requires here { (seat.old.table_id ≡ traces.now.table_id) × (traces.now.table_id.words ≡ places traces.now.key + 1) }
    requires once { (q : ℕ) → has (front_of seat.old.me.0.past.writes) q ≡ true
        → has (behind seat.old.me.0.past.writes) q ≡ false }
    ensures same { (seat.new.table_id ≡ seat.old.table_id) × (seat.new.id ≡ seat.old.id)
        × (seat.new.me ≡ (other_writer seat.old.me.0, seat.old.me.1)) }
    ensures second { (result.table_id ≡ seat.old.table_id) × (result.me ≡ (first_writer seat.old.me.0, [])) }
{
    traces.split_seat::<Shares>(seat)
}
