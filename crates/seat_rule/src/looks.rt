ghost use Rattle.std.specs.Prelude.{◌≡◌, ◌+◌};
ghost use Rattle.seat_rule.specs.Laws.{Heard, KeepsParts};
ghost use Rattle.seat_rule.specs.Sizes.{places};

use crate::rule::{Law, Seat, Traces};
use crate::view::View;
use atomic_table::Play;
use std::marker::{Brand, PhantomData};

/// The size of the table that is looked at. Each look picks it.
trait Sized {
    ghost use Rattle.seat_rule.specs.declared.rule.Size.{Size as Extent};

    ghost size: { Extent };
}

impl Sized for Brand {
    ghost size = { record { sites = 0; parts = 0 } };
}

/// What the rule says of a seat's view.
struct Looks<F, Z> {
    of: PhantomData<(F, Z)>,
}

impl<T, F: Law<T>, Z: Sized> Play<u8, View<T>> for Looks<F, Z> {
    ghost then = { λ s v n w. Heard (F.law Z.size) v.0 × (w ≡ v) };
}

/// Looks at a table of this size.
fn look_at<T, F: Law<T>, Z: Sized>(traces: &Traces<T, F>, seat: &mut Seat<T>)
    requires size { Z.size ≡ traces.now.key }
    requires here { (seat.old.table_id ≡ traces.now.table_id) × (traces.now.table_id.words ≡ places traces.now.key + 1) }
    requires parts { KeepsParts (F.law traces.now.key) }
    ensures same { (seat.new.table_id ≡ seat.old.table_id) × (seat.new.id ≡ seat.old.id) × (seat.new.me ≡ seat.old.me) }
    ensures heard { Heard (F.law traces.now.key) seat.old.me.0 }
{
    let _ = traces.load::<Looks<F, Z>>(seat, 0);
}

/// Tells what the rule says of the seat's view, and changes nothing.
pub fn look<T, F: Law<T>>(traces: &Traces<T, F>, seat: &mut Seat<T>)
    requires here { (seat.old.table_id ≡ traces.now.table_id) × (traces.now.table_id.words ≡ places traces.now.key + 1) }
    requires parts { KeepsParts (F.law traces.now.key) }
    ensures same { (seat.new.table_id ≡ seat.old.table_id) × (seat.new.id ≡ seat.old.id) × (seat.new.me ≡ seat.old.me) }
    ensures heard { Heard (F.law traces.now.key) seat.old.me.0 }
{
    look_at::<T, F, Brand>(traces, seat);
}
