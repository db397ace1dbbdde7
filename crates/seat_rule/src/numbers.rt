ghost use Rattle.std.specs.Prelude.{◌≡◌, ◌+◌, true};
ghost use Rattle.seat_rule.specs.Lists.{has};
ghost use Rattle.seat_rule.specs.Notes.{AreDrawn};
ghost use Rattle.seat_rule.specs.Sizes.{places};

use crate::rule::{Law, Seat, Traces};
use crate::view::View;
use atomic_table::Play;

/// What the rule says of numbers, to the seat that draws them.
struct Counts;

impl<T> Play<u8, View<T>> for Counts {
    ghost then = { λ s v n w. AreDrawn v.0 × (w ≡ v) };
}

/// Tells the seat that draws the numbers that each which it holds, and each which a step bears that it has seen, was drawn.
/// It changes nothing.
pub fn look_at_numbers<T, F: Law<T>>(traces: &Traces<T, F>, seat: &mut Seat<T>, word: usize)
    requires here { (seat.old.table_id ≡ traces.now.table_id) × (traces.now.table_id.words ≡ places traces.now.key + 1) }
    requires word { word ≡ places traces.now.key }
    requires writer { has seat.old.me.0.past.writes word ≡ true }
    ensures same { (seat.new.table_id ≡ seat.old.table_id) × (seat.new.id ≡ seat.old.id) × (seat.new.me ≡ seat.old.me) }
    ensures drawn { AreDrawn seat.old.me.0 }
{
    let _ = traces.load::<Counts>(seat, word);
}
