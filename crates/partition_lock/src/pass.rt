ghost use Rattle.partition_lock.specs.Passes.{IsLeast};

use crate::naming::Naming;
use crate::told::Told;
use crdt_core::Crdt;
use seat_rule::Seat;
use std::marker::{Model, PhantomData};

/// What its holder has seen, and the numbers that it calls by.
#[derive(Drop)]
pub struct Pass<C: Crdt, J: Naming> {
    pub(crate) seat: Seat<Told<C::Effect>>,
    /// The greatest stamp that it has seen.
    pub(crate) stamp: u128,
    /// The least of its numbers.
    pub(crate) least: u64,
    pub(crate) of: PhantomData<(C, J)>,
}

impl<C: Crdt, J: Naming> Model for Pass<C, J> {
    ghost use Rattle.std.specs.Prelude.{◌≡◌};
    ghost use Rattle.seat_rule.specs.declared.view.Past.{Past};
    ghost use Rattle.partition_lock.specs.declared.told.Told.{Told};
    ghost use Rattle.std.specs.Coded.{codes};
    ghost use Rattle.crdt_core.specs.contracts.value.Value as value;
    ghost use Rattle.partition_lock.specs.Passes.{IsPass};

    ghost Value = { Past (Told C.Effect) };

    ghost coded = { Prim.hlevel (codes, value.the_row.coded) };

    ghost view = { λ p. p.seat.me.0.past };

    ghost invariant = { λ p. (p.seat.table_id ≡ J.table) × IsPass p.least p.stamp p.seat.me };
}

impl<C: Crdt, J: Naming> Pass<C, J> {
    /// The least of its numbers, by which its holder makes all calls that are no transaction's.
    pub fn least(&self) -> u64
        ensures { IsLeast self.now.numbers result }
    {
        self.least
    }
}
