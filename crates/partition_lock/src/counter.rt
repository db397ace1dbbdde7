ghost use Rattle.std.specs.Prelude.{◌≡◌, ◌+◌, List, IfOk, IfErr};
ghost use Rattle.crdt_core.specs.KindsOf.{kinds_of};
ghost use Rattle.world_model.specs.threads.Calls.{Call};
ghost use Rattle.txn_session.specs.Calls.{Stays};
ghost use Rattle.txn_session.specs.Numbers.{IsNew};
ghost use Rattle.txn_session.specs.Passes.{SeesStill, IsUnborne};
ghost use Rattle.seat_rule.specs.Sizes.{places, size};
ghost use Rattle.partition_lock.specs.Calling.{seen_by, holds};
ghost use Rattle.partition_lock.specs.Passes.{Sees};

use crate::hear::look;
use crate::law::WorldLaw;
use crate::naming::Naming;
use crate::pass::Pass;
use crate::told::Told;
use crdt_core::Crdt;
use disk_core::Disk;
use seat_rule::{Seat, Traces, draw, hand, join, look_at_numbers};
use std::marker::{Model, PhantomData};

/// The seat that draws callers' numbers, under a lock of its own.
#[derive(Drop)]
pub struct Counter<C: Crdt, J: Naming> {
    /// The last word of the table.
    pub(crate) word: usize,
    /// How many numbers were drawn.
    pub(crate) drawn: u64,
    /// The greatest stamp that it has seen.
    pub(crate) stamp: u128,
    pub(crate) seat: Seat<Told<C::Effect>>,
    pub(crate) of: PhantomData<J>,
}

impl<C: Crdt, J: Naming> Model for Counter<C, J> {
    ghost use Rattle.std.specs.Prelude.{◌≡◌, ◌*◌, ℕ};
    ghost use Rattle.partition_lock.specs.Counters.{IsCounter};

    ghost Value = { ℕ };

    ghost view = { λ d. d.drawn };

    ghost invariant = { λ d. (d.seat.table_id ≡ J.table) × (d.word ≡ J.sites * J.parts) × IsCounter d.word d.drawn d.stamp d.seat.me };
}

impl<C: Crdt, J: Naming> Counter<C, J> {
    /// Two passes in place of one: both have seen what it had, and what others did. The first holds its numbers, the second
    /// one that was never drawn.
    ///
    /// # Errors
    ///
    /// The pass, where all numbers were drawn.
    pub(crate) fn split<D: Disk + Drop>(
        &mut self,
        traces: &Traces<Told<C::Effect>, WorldLaw<C, D>>,
        pass: Pass<C, J>,
    ) -> Result<(Pass<C, J>, Pass<C, J>), Pass<C, J>>
        requires here { (traces.now.table_id ≡ J.table) × (traces.now.table_id.words ≡ places traces.now.key + 1) × (traces.now.key ≡ size J.sites J.parts) }
        ensures numbers { IfOk result (λ r. r.0.numbers ≡ pass.numbers) }
        ensures first { IfOk result (λ r. (run : List (Call C.Effect)) → Sees (kinds_of C.laws) J.sites J.parts pass run → Stays (seen_by (kinds_of C.laws) J.sites J.parts) holds self.new r.0 run) }
        ensures new { IfOk result (λ r. IsNew (holds pass) (holds r.1)) }
        ensures second { IfOk result (λ r. (run : List (Call C.Effect)) → Sees (kinds_of C.laws) J.sites J.parts pass run → SeesStill (seen_by (kinds_of C.laws) J.sites J.parts) (holds pass) self.new r.1 run) }
        ensures unborne { IfOk result (λ r. IsUnborne (seen_by (kinds_of C.laws) J.sites J.parts) (holds r.1) self.new r.0 × IsUnborne (seen_by (kinds_of C.laws) J.sites J.parts) (holds r.1) self.new r.1) }
        ensures err { IfErr result (λ r. r ≡ pass) }
    {
        let Some(next) = self.drawn.checked_add(1) else {
            return Err(pass);
        };
        let stamp = pass.stamp.max(self.stamp);
        let Pass {
            seat,
            stamp: _,
            least,
            of: _,
        } = pass;
        join(traces, &mut self.seat, seat);
        look::<C, D, J>(traces, &mut self.seat);
        look_at_numbers(traces, &mut self.seat, self.word);
        let kept = hand(traces, &mut self.seat);
        let number = draw(traces, &mut self.seat, self.word);
        let drawn = hand(traces, &mut self.seat);
        self.drawn = next;
        self.stamp = stamp;
        let first = Pass {
            seat: kept,
            stamp,
            least,
            of: PhantomData,
        };
        let second = Pass {
            seat: drawn,
            stamp,
            least: number,
            of: PhantomData,
        };
        Ok((first, second))
    }
}
