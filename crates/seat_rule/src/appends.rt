ghost use Rattle.std.specs.Prelude.{◌≡◌, ◌<◌, ◌+◌, ◌^◌, length, true};
ghost use Rattle.seat_rule.specs.declared.view.Noted.{Noted as Note};
ghost use Rattle.seat_rule.specs.Lists.{has, at};
ghost use Rattle.seat_rule.specs.Laws.{MayNote};
ghost use Rattle.seat_rule.specs.Views.{IsNoted};
ghost use Rattle.seat_rule.specs.Sizes.{places};

use crate::rule::{Law, Seat, Traces};
use crate::view::View;
use atomic_table::Play;
use std::marker::PhantomData;

/// What the step that is noted is like, which each call picks.
pub trait Notes<T> {
    ghost like: { Note T → Type 0 };
}

/// Some such step of the partition with this word stands in the view of its writer.
struct Appends<E> {
    of: PhantomData<E>,
}

impl<T, E: Notes<T>> Play<u8, View<T>> for Appends<E> {
    ghost then = { λ s v n w. (n ≡ length (at v.0.past.lists s.word)) × IsNoted E.like s.word v w };
}

/// Adds a step like this to the trace of the partition with this word, in its writer's view, and answers its place, from 0.
///
/// There has to be such a step that bears a number which the writer holds, cites all that it has seen, has a stamp of at most
/// one more than the number of these steps, and keeps the law of all traces.
pub fn append<T, F: Law<T>, E: Notes<T>>(
    traces: &Traces<T, F>,
    seat: &mut Seat<T>,
    word: usize,
) -> u64
    requires here { (seat.old.table_id ≡ traces.now.table_id) × (traces.now.table_id.words ≡ places traces.now.key + 1) }
    requires word { word < places traces.now.key }
    requires writer { has seat.old.me.0.past.writes word ≡ true }
    requires may { MayNote (F.law traces.now.key) E.like seat.old.me.0.past word }
    requires room { length (at seat.old.me.0.past.lists word) + 1 < 2 ^ 64 }
    ensures same { (seat.new.table_id ≡ seat.old.table_id) × (seat.new.id ≡ seat.old.id) }
    ensures place { result ≡ length (at seat.old.me.0.past.lists word) }
    ensures noted { IsNoted E.like word seat.old.me seat.new.me }
{
    traces.fetch_add::<Appends<E>>(seat, word, 1)
}
