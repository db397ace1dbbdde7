ghost use Rattle.std.specs.Prelude.{◌≡◌, ◌≤◌, ◌+◌, List, Some, IfOk, IfErr, true};
ghost use Rattle.crdt_core.specs.KindsOf.{fits_kind, kinds_of};
ghost use Rattle.world_model.specs.rules.Lines.{session_of};
ghost use Rattle.world_model.specs.rules.Plan.{update_count};
ghost use Rattle.world_model.specs.rules.Event.{AskRead, AskUpdate};
ghost use Rattle.world_model.specs.threads.Calls.{Call, entries};
ghost use Rattle.txn_session.specs.Calls.{IsAllowed, MayCall, GoesOn, Changes, Stays};
ghost use Rattle.seat_rule.specs.Sizes.{places, size};
ghost use Rattle.partition_lock.specs.Calling.{seen_by, holds};
ghost use Rattle.partition_lock.specs.Passes.{Sees};

use crate::calls::{Read, Update};
use crate::desk::Desk;
use crate::law::WorldLaw;
use crate::lines::NO_TX;
use crate::naming::Naming;
use crate::pass::Pass;
use crate::told::Told;
use crdt_core::{Crdt, ObjectId, Op, Upd};
use disk_core::Disk;
use field_codec::Text;
use seat_rule::Traces;
use site_vector::{TxId, VTime};
use std::alloc::AllocError;
use world_model::Step;

impl<C: Crdt, D: Disk + Drop, J: Naming> Desk<C, D, J> {
    /// Reads an object under the snapshot `s`, with the transaction's own earlier updates of it, and tells its line.
    ///
    /// # Errors
    ///
    /// `AllocError` for want of memory: nothing was asked.
    pub fn read(
        &mut self,
        traces: &Traces<Told<C::Effect>, WorldLaw<C, D>>,
        pass: Pass<C, J>,
        who: &Text,
        by: u64,
        tx: TxId,
        s: &VTime,
        object: &ObjectId,
        own: &[Upd<C::Effect>],
    ) -> (Pass<C, J>, Result<Step, AllocError>)
        requires here { (traces.now.table_id ≡ J.table) × (traces.now.table_id.words ≡ places traces.now.key + 1) × (traces.now.key ≡ size J.sites J.parts) }
        requires has { C.has object.now.kind ≡ true }
        requires may { MayCall (seen_by (kinds_of C.laws) J.sites J.parts) holds J.sites J.parts self.old pass (Some by) self.old (AskRead tx s.now object.now own.now) }
        ensures same { self.new ≡ self.old }
        ensures numbers { result.0.numbers ≡ pass.numbers }
        ensures ok { IfOk result.1 (λ line. (run : List (Call C.Effect)) → Sees (kinds_of C.laws) J.sites J.parts pass run → IsAllowed J.sites J.parts run (Some by) self.old (AskRead tx s.now object.now own.now) → who.now ≡ session_of (entries run) tx →
            GoesOn (seen_by (kinds_of C.laws) J.sites J.parts) holds self.new result.0 run (Some by) self.old (AskRead tx s.now object.now own.now) line) }
        ensures err { IfErr result.1 (λ e. (run : List (Call C.Effect)) → Sees (kinds_of C.laws) J.sites J.parts pass run → Stays (seen_by (kinds_of C.laws) J.sites J.parts) holds self.new result.0 run) }
    {
        let at = self.place();
        let name = match who.copy(self.alloc) {
            Ok(name) => name,
            Err(_) => {
                return (pass, Err(AllocError));
            }
        };
        let copy = match object.copy(self.alloc) {
            Ok(copy) => copy,
            Err(_) => {
                return (pass, Err(AllocError));
            }
        };
        let call = Read { tx, s, object, own };
        let cut = Step::Disk { part: at };
        let (pass, answer) = self.ask(traces, pass, by, &call, NO_TX, 0, cut);
        match answer {
            Ok(told) => match told {
                Ok(value) => {
                    return (
                        pass,
                        Ok(Step::Value {
                            name,
                            object: copy,
                            value,
                        }),
                    );
                }
                Err(line) => {
                    return (pass, Ok(line));
                }
            },
            Err(_) => {
                return (pass, Err(AllocError));
            }
        }
    }

    /// Makes the effect of an operation, which fits the object's kind, as the transaction's update with this number, from 1 to
    /// 256, and tells its line. The effect is there where the answer is that it was made.
    ///
    /// # Errors
    ///
    /// `AllocError` for want of memory: nothing was asked.
    pub fn update(
        &mut self,
        traces: &Traces<Told<C::Effect>, WorldLaw<C, D>>,
        pass: Pass<C, J>,
        who: &Text,
        by: u64,
        tx: TxId,
        s: &VTime,
        object: &ObjectId,
        own: &[Upd<C::Effect>],
        op: &Op,
        index: u16,
    ) -> (Pass<C, J>, Result<(Step, Option<C::Effect>), AllocError>)
        requires here { (traces.now.table_id ≡ J.table) × (traces.now.table_id.words ≡ places traces.now.key + 1) × (traces.now.key ≡ size J.sites J.parts) }
        requires has { C.has object.now.kind ≡ true }
        requires fits { fits_kind C.too_deep object.now op.now ≡ true }
        requires least { 1 ≤ index }
        requires most { index ≤ 256 }
        requires may { (m : MayCall (seen_by (kinds_of C.laws) J.sites J.parts) holds J.sites J.parts self.old pass (Some by) self.old (AskUpdate tx s.now object.now own.now op.now)) × (index ≡ update_count (entries m.run) tx + 1) }
        ensures same { self.new ≡ self.old }
        ensures numbers { result.0.numbers ≡ pass.numbers }
        ensures ok { IfOk result.1 (λ r. (run : List (Call C.Effect)) → Sees (kinds_of C.laws) J.sites J.parts pass run → IsAllowed J.sites J.parts run (Some by) self.old (AskUpdate tx s.now object.now own.now op.now) → who.now ≡ session_of (entries run) tx → index ≡ update_count (entries run) tx + 1 →
            Changes (seen_by (kinds_of C.laws) J.sites J.parts) holds self.new result.0 run by self.old (AskUpdate tx s.now object.now own.now op.now) r.0 r.1) }
        ensures err { IfErr result.1 (λ e. (run : List (Call C.Effect)) → Sees (kinds_of C.laws) J.sites J.parts pass run → Stays (seen_by (kinds_of C.laws) J.sites J.parts) holds self.new result.0 run) }
    {
        let at = self.place();
        let name = match who.copy(self.alloc) {
            Ok(name) => name,
            Err(_) => {
                return (pass, Err(AllocError));
            }
        };
        let copy = match object.copy(self.alloc) {
            Ok(copy) => copy,
            Err(_) => {
                return (pass, Err(AllocError));
            }
        };
        let call = Update {
            tx,
            s,
            object,
            own,
            op,
            index,
        };
        let cut = Step::Disk { part: at };
        let (pass, answer) = self.ask(traces, pass, by, &call, NO_TX, 0, cut);
        match answer {
            Ok(told) => match told {
                Ok(made) => {
                    let (effect, stamp) = made;
                    let step = Step::Updated {
                        name,
                        object: copy,
                        stamp,
                    };
                    return (pass, Ok((step, Some(effect))));
                }
                Err(line) => {
                    return (pass, Ok((line, None)));
                }
            },
            Err(_) => {
                return (pass, Err(AllocError));
            }
        }
    }
}
