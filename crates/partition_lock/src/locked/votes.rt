ghost use Rattle.std.specs.Prelude.{◌≡◌, List, None, Some, IfOk, IfErr};
ghost use Rattle.crdt_core.specs.KindsOf.{kinds_of};
ghost use Rattle.world_model.specs.rules.Event.{led_by, AskPrepare, AskDecide, AskFinish, AskAbort};
ghost use Rattle.world_model.specs.threads.Calls.{Call};
ghost use Rattle.txn_session.specs.Calls.{IsAllowed, MayCall, GoesOn, Stays};
ghost use Rattle.partition_lock.specs.Calling.{seen_by, holds};
ghost use Rattle.partition_lock.specs.Passes.{Sees};

use crate::naming::Naming;
use crate::pass::Pass;
use crate::shared::Shared;
use crdt_core::{Crdt, UpdateList};
use disk_core::Disk;
use site_vector::{PartId, TxId, VTime};
use std::alloc::AllocError;
use std::sync::Wait;
use world_model::Step;

impl<R: Wait + Drop, C: Crdt, D: Disk + Drop, J: Naming> Shared<R, C, D, J> {
    /// `prepare` of the trait `Store`, under the lock of the partition.
    pub fn prepare_at(
        &self,
        pass: Pass<C, J>,
        at: PartId,
        by: u64,
        tx: TxId,
        s: &VTime,
        lead: u8,
        updates: &UpdateList<C::Effect>,
    ) -> (Pass<C, J>, Result<Step, AllocError>)
        requires may { MayCall (seen_by (kinds_of C.laws) J.sites J.parts) holds J.sites J.parts self.now pass (Some by) at (AskPrepare tx s.now (led_by lead) updates.now) }
        ensures numbers { result.0.numbers ≡ pass.numbers }
        ensures ok { IfOk result.1 (λ line. (run : List (Call C.Effect)) → Sees (kinds_of C.laws) J.sites J.parts pass run → IsAllowed J.sites J.parts run (Some by) at (AskPrepare tx s.now (led_by lead) updates.now) →
            GoesOn (seen_by (kinds_of C.laws) J.sites J.parts) holds self.now result.0 run (Some by) at (AskPrepare tx s.now (led_by lead) updates.now) line) }
        ensures err { IfErr result.1 (λ e. (run : List (Call C.Effect)) → Sees (kinds_of C.laws) J.sites J.parts pass run → Stays (seen_by (kinds_of C.laws) J.sites J.parts) holds self.now result.0 run) }
    {
        let Some(lock) = self.lock_at(at) else {
            return (pass, Err(AllocError));
        };
        let mut desk = lock.lock(&self.rt);
        if desk.place() != at {
            return (pass, Err(AllocError));
        }
        let answer = desk.prepare(&self.table.shared, pass, by, tx, s, lead, updates);
        self.wake(at);
        answer
    }

    /// `decide` of the trait `Store`, under the lock of the partition.
    pub fn decide_at(
        &self,
        pass: Pass<C, J>,
        at: PartId,
        by: u64,
        tx: TxId,
        c: &VTime,
    ) -> (Pass<C, J>, Result<Step, AllocError>)
        requires may { MayCall (seen_by (kinds_of C.laws) J.sites J.parts) holds J.sites J.parts self.now pass (Some by) at (AskDecide tx c.now) }
        ensures numbers { result.0.numbers ≡ pass.numbers }
        ensures ok { IfOk result.1 (λ line. (run : List (Call C.Effect)) → Sees (kinds_of C.laws) J.sites J.parts pass run → IsAllowed J.sites J.parts run (Some by) at (AskDecide tx c.now) →
            GoesOn (seen_by (kinds_of C.laws) J.sites J.parts) holds self.now result.0 run (Some by) at (AskDecide tx c.now) line) }
        ensures err { IfErr result.1 (λ e. (run : List (Call C.Effect)) → Sees (kinds_of C.laws) J.sites J.parts pass run → Stays (seen_by (kinds_of C.laws) J.sites J.parts) holds self.now result.0 run) }
    {
        let Some(lock) = self.lock_at(at) else {
            return (pass, Err(AllocError));
        };
        let mut desk = lock.lock(&self.rt);
        if desk.place() != at {
            return (pass, Err(AllocError));
        }
        let answer = desk.decide(&self.table.shared, pass, by, tx, c);
        self.wake(at);
        answer
    }

    /// `finish` of the trait `Store`, under the lock of the partition.
    pub fn finish_at(
        &self,
        pass: Pass<C, J>,
        at: PartId,
        tx: TxId,
        c: &VTime,
    ) -> (Pass<C, J>, Result<Step, AllocError>)
        requires may { MayCall (seen_by (kinds_of C.laws) J.sites J.parts) holds J.sites J.parts self.now pass None at (AskFinish tx c.now) }
        ensures numbers { result.0.numbers ≡ pass.numbers }
        ensures ok { IfOk result.1 (λ line. (run : List (Call C.Effect)) → Sees (kinds_of C.laws) J.sites J.parts pass run → IsAllowed J.sites J.parts run None at (AskFinish tx c.now) →
            GoesOn (seen_by (kinds_of C.laws) J.sites J.parts) holds self.now result.0 run None at (AskFinish tx c.now) line) }
        ensures err { IfErr result.1 (λ e. (run : List (Call C.Effect)) → Sees (kinds_of C.laws) J.sites J.parts pass run → Stays (seen_by (kinds_of C.laws) J.sites J.parts) holds self.now result.0 run) }
    {
        let Some(lock) = self.lock_at(at) else {
            return (pass, Err(AllocError));
        };
        let mut desk = lock.lock(&self.rt);
        if desk.place() != at {
            return (pass, Err(AllocError));
        }
        let answer = desk.finish(&self.table.shared, pass, tx, c);
        self.wake(at);
        answer
    }

    /// `abort` of the trait `Store`, under the lock of the partition.
    pub fn abort_at(
        &self,
        pass: Pass<C, J>,
        at: PartId,
        by: u64,
        tx: TxId,
    ) -> (Pass<C, J>, Result<Step, AllocError>)
        requires may { MayCall (seen_by (kinds_of C.laws) J.sites J.parts) holds J.sites J.parts self.now pass (Some by) at (AskAbort tx) }
        ensures numbers { result.0.numbers ≡ pass.numbers }
        ensures ok { IfOk result.1 (λ line. (run : List (Call C.Effect)) → Sees (kinds_of C.laws) J.sites J.parts pass run → IsAllowed J.sites J.parts run (Some by) at (AskAbort tx) →
            GoesOn (seen_by (kinds_of C.laws) J.sites J.parts) holds self.now result.0 run (Some by) at (AskAbort tx) line) }
        ensures err { IfErr result.1 (λ e. (run : List (Call C.Effect)) → Sees (kinds_of C.laws) J.sites J.parts pass run → Stays (seen_by (kinds_of C.laws) J.sites J.parts) holds self.now result.0 run) }
    {
        let Some(lock) = self.lock_at(at) else {
            return (pass, Err(AllocError));
        };
        let mut desk = lock.lock(&self.rt);
        if desk.place() != at {
            return (pass, Err(AllocError));
        }
        let answer = desk.abort(&self.table.shared, pass, by, tx);
        self.wake(at);
        answer
    }
}
