ghost use Rattle.std.specs.Prelude.{◌≡◌, ◌+◌, []};
ghost use Rattle.seat_rule.specs.Views.{both, spent};
ghost use Rattle.seat_rule.specs.Sizes.{places};

use crate::rule::{Law, Seat, Traces};
use crate::view::View;
use atomic_table::Join;

/// Of two seats one.
struct Joins;

impl<T> Join<View<T>> for Joins {
    ghost both = { both };

    ghost spent = { spent };
}

/// The seat has seen what both had, and holds what both did; its view keeps the two pasts. The other seat is spent.
pub fn join<T, F: Law<T>>(traces: &Traces<T, F>, seat: &mut Seat<T>, other: Seat<T>)
    requires here { (seat.old.table_id ≡ traces.now.table_id) × (other.table_id ≡ traces.now.table_id)
        × (traces.now.table_id.words ≡ places traces.now.key + 1) }
    requires free { other.me.1 ≡ [] }
    ensures same { (seat.new.table_id ≡ seat.old.table_id) × (seat.new.id ≡ seat.old.id) }
    ensures both { seat.new.me ≡ (both seat.old.me.0 other.me.0, seat.old.me.1) }
{
    traces.join_seat::<Joins>(seat, other)
}
