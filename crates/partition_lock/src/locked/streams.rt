ghost use Rattle.std.specs.Prelude.{◌≡◌, List, None, IfOk, IfErr};
ghost use Rattle.crdt_core.specs.KindsOf.{kinds_of};
ghost use Rattle.world_model.specs.rules.Event.{AskTake, AskHear};
ghost use Rattle.world_model.specs.threads.Calls.{Call};
ghost use Rattle.txn_session.specs.Calls.{IsAllowed, MayCall, HandsOn, Stays};
ghost use Rattle.partition_lock.specs.Calling.{seen_by, holds};
ghost use Rattle.partition_lock.specs.Passes.{Sees};

use crate::naming::Naming;
use crate::pass::Pass;
use crate::shared::Shared;
use crdt_core::{Crdt, Message};
use disk_core::Disk;
use site_vector::{PartId, VTime};
use std::alloc::AllocError;
use std::sync::Wait;
use world_model::Step;

impl<R: Wait + Drop, C: Crdt, D: Disk + Drop, J: Naming> Shared<R, C, D, J> {
    /// `take` of the trait `Store`, under the lock of the partition.
    pub fn take_at(
        &self,
        pass: Pass<C, J>,
        at: PartId,
        number: u64,
        message: &Message<C::Effect>,
    ) -> (Pass<C, J>, Result<Step, AllocError>)
        requires may { MayCall (seen_by (kinds_of C.laws) J.sites J.parts) holds J.sites J.parts self.now pass None at (AskTake number message.now) }
        ensures numbers { result.0.numbers ≡ pass.numbers }
        ensures ok { IfOk result.1 (λ line. (run : List (Call C.Effect)) → Sees (kinds_of C.laws) J.sites J.parts pass run → IsAllowed J.sites J.parts run None at (AskTake number message.now) →
            HandsOn (seen_by (kinds_of C.laws) J.sites J.parts) holds self.now result.0 run at (AskTake number message.now) number line) }
        ensures err { IfErr result.1 (λ e. (run : List (Call C.Effect)) → Sees (kinds_of C.laws) J.sites J.parts pass run → Stays (seen_by (kinds_of C.laws) J.sites J.parts) holds self.now result.0 run) }
    {
        let Some(lock) = self.lock_at(at) else {
            return (pass, Err(AllocError));
        };
        let mut desk = lock.lock(&self.rt);
        if desk.place() != at {
            return (pass, Err(AllocError));
        }
        let answer = desk.take(&self.table.shared, pass, number, message);
        self.wake(at);
        answer
    }

    /// `hear` of the trait `Store`, under the lock of the partition.
    pub fn hear_at(
        &self,
        pass: Pass<C, J>,
        at: PartId,
        number: u64,
        part: u8,
        bounds: &VTime,
    ) -> (Pass<C, J>, Result<Step, AllocError>)
        requires may { MayCall (seen_by (kinds_of C.laws) J.sites J.parts) holds J.sites J.parts self.now pass None at (AskHear number part bounds.now) }
        ensures numbers { result.0.numbers ≡ pass.numbers }
        ensures ok { IfOk result.1 (λ line. (run : List (Call C.Effect)) → Sees (kinds_of C.laws) J.sites J.parts pass run → IsAllowed J.sites J.parts run None at (AskHear number part bounds.now) →
            HandsOn (seen_by (kinds_of C.laws) J.sites J.parts) holds self.now result.0 run at (AskHear number part bounds.now) number line) }
        ensures err { IfErr result.1 (λ e. (run : List (Call C.Effect)) → Sees (kinds_of C.laws) J.sites J.parts pass run → Stays (seen_by (kinds_of C.laws) J.sites J.parts) holds self.now result.0 run) }
    {
        let Some(lock) = self.lock_at(at) else {
            return (pass, Err(AllocError));
        };
        let mut desk = lock.lock(&self.rt);
        if desk.place() != at {
            return (pass, Err(AllocError));
        }
        let answer = desk.hear(&self.table.shared, pass, number, part, bounds);
        self.wake(at);
        answer
    }
}
