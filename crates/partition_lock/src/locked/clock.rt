ghost use Rattle.std.specs.Prelude.{◌≡◌, ◌≤◌, ◌+◌, List, None, Some, IfOk, IfErr};
ghost use Rattle.crdt_core.specs.KindsOf.{kinds_of};
ghost use Rattle.crdt_core.specs.Log.{end_of_time};
ghost use Rattle.world_model.specs.lines.Lines.{wish_of};
ghost use Rattle.txn_session.specs.Numbers.{IsLeast};
ghost use Rattle.world_model.specs.rules.Event.{AskTick, AskBegin};
ghost use Rattle.world_model.specs.threads.Calls.{Call};
ghost use Rattle.txn_session.specs.Calls.{IsAllowed, MayCall, GoesOn, Stays};
ghost use Rattle.partition_lock.specs.Calling.{seen_by, holds};
ghost use Rattle.partition_lock.specs.Passes.{Sees};

use crate::naming::Naming;
use crate::pass::Pass;
use crate::shared::Shared;
use crdt_core::Crdt;
use disk_core::Disk;
use field_codec::Text;
use site_vector::{PartId, VTime};
use std::alloc::AllocError;
use std::sync::Wait;
use world_model::{Mode, Step};

impl<R: Wait + Drop, C: Crdt, D: Disk + Drop, J: Naming> Shared<R, C, D, J> {
    /// `tick` of the trait `Store`, under the lock of the partition.
    pub fn tick_at(
        &self,
        pass: Pass<C, J>,
        at: PartId,
        r: u64,
    ) -> (Pass<C, J>, Result<Step, AllocError>)
        requires clock_time { r ≤ end_of_time }
        requires may { MayCall (seen_by (kinds_of C.laws) J.sites J.parts) holds J.sites J.parts self.now pass None at (AskTick r) }
        ensures numbers { result.0.numbers ≡ pass.numbers }
        ensures ok { IfOk result.1 (λ line. (run : List (Call C.Effect)) → Sees (kinds_of C.laws) J.sites J.parts pass run →
            GoesOn (seen_by (kinds_of C.laws) J.sites J.parts) holds self.now result.0 run None at (AskTick r) line) }
        ensures err { IfErr result.1 (λ e. (run : List (Call C.Effect)) → Sees (kinds_of C.laws) J.sites J.parts pass run → Stays (seen_by (kinds_of C.laws) J.sites J.parts) holds self.now result.0 run) }
    {
        let Some(lock) = self.lock_at(at) else {
            return (pass, Err(AllocError));
        };
        let mut desk = lock.lock(&self.rt);
        if desk.place() != at {
            return (pass, Err(AllocError));
        }
        let answer = desk.tick(&self.table.shared, pass, r);
        self.wake(at);
        answer
    }

    /// `begin` of the trait `Store`, under the lock of the partition.
    pub fn begin_at(
        &self,
        pass: Pass<C, J>,
        at: PartId,
        who: &Text,
        dep: &VTime,
        mode: Mode,
    ) -> (Pass<C, J>, Result<(Step, u64), AllocError>)
        requires may { MayCall (seen_by (kinds_of C.laws) J.sites J.parts) holds J.sites J.parts self.now pass None at (AskBegin who.now (wish_of dep.now mode)) }
        ensures numbers { result.0.numbers ≡ pass.numbers }
        ensures least { IfOk result.1 (λ r. IsLeast (holds result.0) r.1) }
        ensures ok { IfOk result.1 (λ r. (run : List (Call C.Effect)) → Sees (kinds_of C.laws) J.sites J.parts pass run → IsAllowed J.sites J.parts run None at (AskBegin who.now (wish_of dep.now mode)) →
            GoesOn (seen_by (kinds_of C.laws) J.sites J.parts) holds self.now result.0 run (Some r.1) at (AskBegin who.now (wish_of dep.now mode)) r.0) }
        ensures err { IfErr result.1 (λ e. (run : List (Call C.Effect)) → Sees (kinds_of C.laws) J.sites J.parts pass run → Stays (seen_by (kinds_of C.laws) J.sites J.parts) holds self.now result.0 run) }
    {
        let Some(lock) = self.lock_at(at) else {
            return (pass, Err(AllocError));
        };
        let mut desk = lock.lock(&self.rt);
        if desk.place() != at {
            return (pass, Err(AllocError));
        }
        let answer = desk.begin(&self.table.shared, pass, who, dep, mode);
        self.wake(at);
        answer
    }
}
