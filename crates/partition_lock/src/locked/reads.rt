ghost use Rattle.std.specs.Prelude.{◌≡◌, ◌≤◌, ◌+◌, List, Some, IfOk, IfErr, true};
ghost use Rattle.crdt_core.specs.KindsOf.{fits_kind, kinds_of};
ghost use Rattle.world_model.specs.rules.Lines.{session_of};
ghost use Rattle.world_model.specs.rules.Plan.{update_count};
ghost use Rattle.world_model.specs.rules.Event.{AskRead, AskUpdate};
ghost use Rattle.world_model.specs.threads.Calls.{Call, entries};
ghost use Rattle.txn_session.specs.Calls.{IsAllowed, MayCall, GoesOn, Changes, Stays};
ghost use Rattle.partition_lock.specs.Calling.{seen_by, holds};
ghost use Rattle.partition_lock.specs.Passes.{Sees};

use crate::naming::Naming;
use crate::pass::Pass;
use crate::shared::Shared;
use crdt_core::{Crdt, ObjectId, Op, Upd};
use disk_core::Disk;
use field_codec::Text;
use site_vector::{PartId, TxId, VTime};
use std::alloc::AllocError;
use std::sync::Wait;
use world_model::Step;

impl<R: Wait + Drop, C: Crdt, D: Disk + Drop, J: Naming> Shared<R, C, D, J> {
    /// `read` of the trait `Store`, under the lock of the partition.
    pub fn read_at(
        &self,
        pass: Pass<C, J>,
        at: PartId,
        who: &Text,
        by: u64,
        tx: TxId,
        s: &VTime,
        object: &ObjectId,
        own: &[Upd<C::Effect>],
    ) -> (Pass<C, J>, Result<Step, AllocError>)
        requires has { C.has object.now.kind ≡ true }
        requires may { MayCall (seen_by (kinds_of C.laws) J.sites J.parts) holds J.sites J.parts self.now pass (Some by) at (AskRead tx s.now object.now own.now) }
        ensures numbers { result.0.numbers ≡ pass.numbers }
        ensures ok { IfOk result.1 (λ line. (run : List (Call C.Effect)) → Sees (kinds_of C.laws) J.sites J.parts pass run → IsAllowed J.sites J.parts run (Some by) at (AskRead tx s.now object.now own.now) → who.now ≡ session_of (entries run) tx →
            GoesOn (seen_by (kinds_of C.laws) J.sites J.parts) holds self.now result.0 run (Some by) at (AskRead tx s.now object.now own.now) line) }
        ensures err { IfErr result.1 (λ e. (run : List (Call C.Effect)) → Sees (kinds_of C.laws) J.sites J.parts pass run → Stays (seen_by (kinds_of C.laws) J.sites J.parts) holds self.now result.0 run) }
    {
        let Some(lock) = self.lock_at(at) else {
            return (pass, Err(AllocError));
        };
        let mut desk = lock.lock(&self.rt);
        if desk.place() != at {
            return (pass, Err(AllocError));
        }
        let answer = desk.read(&self.table.shared, pass, who, by, tx, s, object, own);
        self.wake(at);
        answer
    }

    /// `update` of the trait `Store`, under the lock of the partition.
    pub fn update_at(
        &self,
        pass: Pass<C, J>,
        at: PartId,
        who: &Text,
        by: u64,
        tx: TxId,
        s: &VTime,
        object: &ObjectId,
        own: &[Upd<C::Effect>],
        op: &Op,
        index: u16,
    ) -> (Pass<C, J>, Result<(Step, Option<C::Effect>), AllocError>)
        requires has { C.has object.now.kind ≡ true }
        requires fits { fits_kind C.too_deep object.now op.now ≡ true }
        requires least { 1 ≤ index }
        requires most { index ≤ 256 }
        requires may { (m : MayCall (seen_by (kinds_of C.laws) J.sites J.parts) holds J.sites J.parts self.now pass (Some by) at (AskUpdate tx s.now object.now own.now op.now)) × (index ≡ update_count (entries m.run) tx + 1) }
        ensures numbers { result.0.numbers ≡ pass.numbers }
        ensures ok { IfOk result.1 (λ r. (run : List (Call C.Effect)) → Sees (kinds_of C.laws) J.sites J.parts pass run → IsAllowed J.sites J.parts run (Some by) at (AskUpdate tx s.now object.now own.now op.now) → who.now ≡ session_of (entries run) tx → index ≡ update_count (entries run) tx + 1 →
            Changes (seen_by (kinds_of C.laws) J.sites J.parts) holds self.now result.0 run by at (AskUpdate tx s.now object.now own.now op.now) r.0 r.1) }
        ensures err { IfErr result.1 (λ e. (run : List (Call C.Effect)) → Sees (kinds_of C.laws) J.sites J.parts pass run → Stays (seen_by (kinds_of C.laws) J.sites J.parts) holds self.now result.0 run) }
    {
        let Some(lock) = self.lock_at(at) else {
            return (pass, Err(AllocError));
        };
        let mut desk = lock.lock(&self.rt);
        if desk.place() != at {
            return (pass, Err(AllocError));
        }
        let answer = desk.update(
            &self.table.shared,
            pass,
            who,
            by,
            tx,
            s,
            object,
            own,
            op,
            index,
        );
        self.wake(at);
        answer
    }
}
