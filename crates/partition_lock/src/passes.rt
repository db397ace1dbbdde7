ghost use Rattle.std.specs.Prelude.{◌≡◌, ◌||◌, ℕ, List, IfOk, IfErr};
ghost use Rattle.crdt_core.specs.KindsOf.{kinds_of};
ghost use Rattle.world_model.specs.threads.Calls.{Call};
ghost use Rattle.txn_session.specs.Calls.{Stays};
ghost use Rattle.txn_session.specs.Numbers.{IsNew};
ghost use Rattle.txn_session.specs.Passes.{SeesStill, IsUnborne};
ghost use Rattle.partition_lock.specs.Calling.{seen_by, holds};
ghost use Rattle.partition_lock.specs.Passes.{Sees};

use crate::naming::Naming;
use crate::pass::Pass;
use crate::shared::Shared;
use crdt_core::Crdt;
use disk_core::Disk;
use std::sync::Wait;

impl<R: Wait + Drop, C: Crdt, D: Disk + Drop, J: Naming> Shared<R, C, D, J> {
    /// Two passes in place of one: both have seen what it had. The first holds its numbers, the second a new one above them,
    /// which no call bears that either has seen.
    ///
    /// # Errors
    ///
    /// The pass, where all numbers were drawn.
    pub fn split(&self, pass: Pass<C, J>) -> Result<(Pass<C, J>, Pass<C, J>), Pass<C, J>>
        ensures numbers { IfOk result (λ r. r.0.numbers ≡ pass.numbers) }
        ensures first { IfOk result (λ r. (run : List (Call C.Effect)) → Sees (kinds_of C.laws) J.sites J.parts pass run → Stays (seen_by (kinds_of C.laws) J.sites J.parts) holds self.now r.0 run) }
        ensures new { IfOk result (λ r. IsNew (holds pass) (holds r.1)) }
        ensures second { IfOk result (λ r. (run : List (Call C.Effect)) → Sees (kinds_of C.laws) J.sites J.parts pass run → SeesStill (seen_by (kinds_of C.laws) J.sites J.parts) (holds pass) self.now r.1 run) }
        ensures unborne { IfOk result (λ r. IsUnborne (seen_by (kinds_of C.laws) J.sites J.parts) (holds r.1) self.now r.0 × IsUnborne (seen_by (kinds_of C.laws) J.sites J.parts) (holds r.1) self.now r.1) }
        ensures err { IfErr result (λ r. r ≡ pass) }
    {
        let mut counter = self.counter.lock(&self.rt);
        let answer = counter.split(&self.table.shared, pass);
        answer
    }

    /// One pass in place of two: it has seen what either had, and no call more of either's numbers, and holds the numbers of
    /// both.
    pub fn meet(&self, first: Pass<C, J>, second: Pass<C, J>) -> Pass<C, J>
        ensures numbers { (n : ℕ) → holds result n ≡ (holds first n || holds second n) }
        ensures first { (run : List (Call C.Effect)) → Sees (kinds_of C.laws) J.sites J.parts first run → SeesStill (seen_by (kinds_of C.laws) J.sites J.parts) (holds first) self.now result run }
        ensures second { (run : List (Call C.Effect)) → Sees (kinds_of C.laws) J.sites J.parts second run → SeesStill (seen_by (kinds_of C.laws) J.sites J.parts) (holds second) self.now result run }
    {
        first.meet(&self.table.shared, second)
    }
}
