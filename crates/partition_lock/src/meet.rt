ghost use Rattle.std.specs.Prelude.{◌≡◌, ◌+◌, ◌||◌, ℕ, List};
ghost use Rattle.crdt_core.specs.KindsOf.{kinds_of};
ghost use Rattle.world_model.specs.threads.Calls.{Call};
ghost use Rattle.txn_session.specs.Passes.{SeesStill};
ghost use Rattle.seat_rule.specs.Sizes.{places, size};
ghost use Rattle.partition_lock.specs.Calling.{seen_by, holds};
ghost use Rattle.partition_lock.specs.Passes.{Sees};

use crate::hear::look;
use crate::law::WorldLaw;
use crate::naming::Naming;
use crate::pass::Pass;
use crate::told::Told;
use crdt_core::Crdt;
use disk_core::Disk;
use seat_rule::{Traces, join};
use std::marker::PhantomData;

impl<C: Crdt, J: Naming> Pass<C, J> {
    /// One pass in place of two: it has seen what either had, and holds the numbers of both.
    pub(crate) fn meet<D: Disk + Drop>(
        self,
        traces: &Traces<Told<C::Effect>, WorldLaw<C, D>>,
        other: Pass<C, J>,
    ) -> Pass<C, J>
        requires here { (traces.now.table_id ≡ J.table) × (traces.now.table_id.words ≡ places traces.now.key + 1) × (traces.now.key ≡ size J.sites J.parts) }
        ensures numbers { (n : ℕ) → holds result n ≡ (holds self n || holds other n) }
        ensures first { (run : List (Call C.Effect)) → Sees (kinds_of C.laws) J.sites J.parts self run → SeesStill (seen_by (kinds_of C.laws) J.sites J.parts) (holds self) self result run }
        ensures second { (run : List (Call C.Effect)) → Sees (kinds_of C.laws) J.sites J.parts other run → SeesStill (seen_by (kinds_of C.laws) J.sites J.parts) (holds other) self result run }
    {
        let Pass {
            seat,
            stamp,
            least,
            of: _,
        } = self;
        let Pass {
            seat: second,
            stamp: other_stamp,
            least: other_least,
            of: _,
        } = other;
        let mut seat = seat;
        join(traces, &mut seat, second);
        look::<C, D, J>(traces, &mut seat);
        Pass {
            seat,
            stamp: stamp.max(other_stamp),
            least: least.min(other_least),
            of: PhantomData,
        }
    }
}
