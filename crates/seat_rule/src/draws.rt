ghost use Rattle.std.specs.Prelude.{◌≡◌, ◌<◌, ◌+◌, ◌^◌, true};
ghost use Rattle.seat_rule.specs.Lists.{has};
ghost use Rattle.seat_rule.specs.Views.{taken};
ghost use Rattle.seat_rule.specs.Sizes.{places};

use crate::rule::{Law, Seat, Traces};
use crate::view::View;
use atomic_table::Play;

/// The seat holds one number more, which nobody held.
struct Draws;

impl<T> Play<u8, View<T>> for Draws {
    ghost then = { λ s v n w. (n ≡ v.0.drawn) × (w ≡ (taken v.0, v.1)) };
}

/// Draws a caller's number that was never drawn. The last word is the number of partitions; one seat writes it.
pub fn draw<T, F: Law<T>>(traces: &Traces<T, F>, seat: &mut Seat<T>, word: usize) -> u64
    requires here { (seat.old.table_id ≡ traces.now.table_id) × (traces.now.table_id.words ≡ places traces.now.key + 1) }
    requires word { word ≡ places traces.now.key }
    requires writer { has seat.old.me.0.past.writes word ≡ true }
    requires room { seat.old.me.0.drawn + 1 < 2 ^ 64 }
    ensures same { (seat.new.table_id ≡ seat.old.table_id) × (seat.new.id ≡ seat.old.id) }
    ensures number { result ≡ seat.old.me.0.drawn }
    ensures taken { seat.new.me ≡ (taken seat.old.me.0, seat.old.me.1) }
{
    traces.fetch_add::<Draws>(seat, word, 1)
}
