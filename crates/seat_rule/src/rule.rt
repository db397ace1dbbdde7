ghost use Rattle.std.specs.Prelude.{ℕ, List};
ghost use Rattle.seat_rule.specs.declared.view.Noted.{Noted as Note};
ghost use Rattle.seat_rule.specs.Views.{opened};
ghost use Rattle.seat_rule.specs.declared.rule.Size.{Size as Extent};
ghost use Rattle.seat_rule.specs.Sizes.{places};
ghost use Rattle.seat_rule.specs.Kept.{Kept};

use crate::view::View;
use atomic_table::{Shared, TableRule};
use std::marker::PhantomData;

/// How many sites there are, and partitions of each.
#[derive(Clone, Copy)]
pub struct Size {
    pub sites: u64,
    pub parts: u64,
}

/// What the traces of all partitions together have to be, the oldest step of each first.
pub trait Law<T> {
    ghost law: { Extent → (ℕ → List (Note T)) → Type 0 };
}

/// The rule of a table of traces that keep a law. Its key is the number of sites, and of partitions of each.
pub struct Traced<F> {
    of: PhantomData<F>,
}

impl<T, F: Law<T>> TableRule<u8, View<T>, Size> for Traced<F> {
    ghost holds = { λ k. Kept (F.law k) (places k) };

    ghost first = { λ k. opened (places k) };
}

/// The table, as all threads have it.
pub type Traces<T, F> = Shared<u8, View<T>, Size, Traced<F>>;

/// A token of no bytes, with a view.
pub type Seat<T> = atomic_table::Seat<u8, View<T>>;
