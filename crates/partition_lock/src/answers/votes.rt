ghost use Rattle.std.specs.Prelude.{◌≡◌, ◌+◌, List, None, Some, IfOk, IfErr};
ghost use Rattle.crdt_core.specs.KindsOf.{kinds_of};
ghost use Rattle.world_model.specs.rules.Event.{led_by, AskPrepare, AskDecide, AskFinish, AskAbort};
ghost use Rattle.world_model.specs.threads.Calls.{Call};
ghost use Rattle.txn_session.specs.Calls.{IsAllowed, MayCall, GoesOn, Stays};
ghost use Rattle.seat_rule.specs.Sizes.{places, size};
ghost use Rattle.partition_lock.specs.Calling.{seen_by, holds};
ghost use Rattle.partition_lock.specs.Passes.{Sees};

use crate::calls::{AbortOwn, Decide, Finish, Prepare};
use crate::desk::Desk;
use crate::law::WorldLaw;
use crate::lines::NO_TX;
use crate::naming::Naming;
use crate::pass::Pass;
use crate::told::Told;
use crdt_core::{Crdt, UpdateList};
use disk_core::Disk;
use seat_rule::Traces;
use site_vector::{TxId, VTime};
use std::alloc::AllocError;
use world_model::Step;

impl<C: Crdt, D: Disk + Drop, J: Naming> Desk<C, D, J> {
    /// Asks for a vote, with the transaction's updates here and the number of its lead, and tells its line.
    ///
    /// # Errors
    ///
    /// `AllocError` for want of memory: nothing was asked.
    pub fn prepare(
        &mut self,
        traces: &Traces<Told<C::Effect>, WorldLaw<C, D>>,
        pass: Pass<C, J>,
        by: u64,
        tx: TxId,
        s: &VTime,
        lead: u8,
        updates: &UpdateList<C::Effect>,
    ) -> (Pass<C, J>, Result<Step, AllocError>)
        requires here { (traces.now.table_id ≡ J.table) × (traces.now.table_id.words ≡ places traces.now.key + 1) × (traces.now.key ≡ size J.sites J.parts) }
        requires may { MayCall (seen_by (kinds_of C.laws) J.sites J.parts) holds J.sites J.parts self.old pass (Some by) self.old (AskPrepare tx s.now (led_by lead) updates.now) }
        ensures same { self.new ≡ self.old }
        ensures numbers { result.0.numbers ≡ pass.numbers }
        ensures ok { IfOk result.1 (λ line. (run : List (Call C.Effect)) → Sees (kinds_of C.laws) J.sites J.parts pass run → IsAllowed J.sites J.parts run (Some by) self.old (AskPrepare tx s.now (led_by lead) updates.now) →
            GoesOn (seen_by (kinds_of C.laws) J.sites J.parts) holds self.new result.0 run (Some by) self.old (AskPrepare tx s.now (led_by lead) updates.now) line) }
        ensures err { IfErr result.1 (λ e. (run : List (Call C.Effect)) → Sees (kinds_of C.laws) J.sites J.parts pass run → Stays (seen_by (kinds_of C.laws) J.sites J.parts) holds self.new result.0 run) }
    {
        let at = self.place();
        let call = Prepare {
            tx,
            s,
            lead,
            updates,
        };
        let cut = Step::Disk { part: at };
        let (pass, answer) = self.ask(traces, pass, by, &call, NO_TX, 0, cut);
        match answer {
            Ok(told) => match told {
                Ok(time) => {
                    return (pass, Ok(Step::Prepared { part: at, tx, time }));
                }
                Err(line) => {
                    return (pass, Ok(line));
                }
            },
            Err(_) => {
                return (pass, Err(AllocError));
            }
        }
    }

    /// Asks the lead to decide, with the commit vector, and tells its line.
    ///
    /// # Errors
    ///
    /// `AllocError` for want of memory: nothing was asked.
    pub fn decide(
        &mut self,
        traces: &Traces<Told<C::Effect>, WorldLaw<C, D>>,
        pass: Pass<C, J>,
        by: u64,
        tx: TxId,
        c: &VTime,
    ) -> (Pass<C, J>, Result<Step, AllocError>)
        requires here { (traces.now.table_id ≡ J.table) × (traces.now.table_id.words ≡ places traces.now.key + 1) × (traces.now.key ≡ size J.sites J.parts) }
        requires may { MayCall (seen_by (kinds_of C.laws) J.sites J.parts) holds J.sites J.parts self.old pass (Some by) self.old (AskDecide tx c.now) }
        ensures same { self.new ≡ self.old }
        ensures numbers { result.0.numbers ≡ pass.numbers }
        ensures ok { IfOk result.1 (λ line. (run : List (Call C.Effect)) → Sees (kinds_of C.laws) J.sites J.parts pass run → IsAllowed J.sites J.parts run (Some by) self.old (AskDecide tx c.now) →
            GoesOn (seen_by (kinds_of C.laws) J.sites J.parts) holds self.new result.0 run (Some by) self.old (AskDecide tx c.now) line) }
        ensures err { IfErr result.1 (λ e. (run : List (Call C.Effect)) → Sees (kinds_of C.laws) J.sites J.parts pass run → Stays (seen_by (kinds_of C.laws) J.sites J.parts) holds self.new result.0 run) }
    {
        let at = self.place();
        let call = Decide { tx, c };
        let cut = Step::Unsure { tx };
        let (pass, answer) = self.ask(traces, pass, by, &call, tx, 0, cut);
        match answer {
            Ok(told) => match told {
                Ok(_) => {
                    let c = *c;
                    return (pass, Ok(Step::Decided { part: at, tx, c }));
                }
                Err(line) => {
                    return (pass, Ok(line));
                }
            },
            Err(_) => {
                return (pass, Err(AllocError));
            }
        }
    }

    /// Asks a participant to finish a decided transaction, and tells its line.
    ///
    /// # Errors
    ///
    /// `AllocError` for want of memory: nothing was asked.
    pub fn finish(
        &mut self,
        traces: &Traces<Told<C::Effect>, WorldLaw<C, D>>,
        pass: Pass<C, J>,
        tx: TxId,
        c: &VTime,
    ) -> (Pass<C, J>, Result<Step, AllocError>)
        requires here { (traces.now.table_id ≡ J.table) × (traces.now.table_id.words ≡ places traces.now.key + 1) × (traces.now.key ≡ size J.sites J.parts) }
        requires may { MayCall (seen_by (kinds_of C.laws) J.sites J.parts) holds J.sites J.parts self.old pass None self.old (AskFinish tx c.now) }
        ensures same { self.new ≡ self.old }
        ensures numbers { result.0.numbers ≡ pass.numbers }
        ensures ok { IfOk result.1 (λ line. (run : List (Call C.Effect)) → Sees (kinds_of C.laws) J.sites J.parts pass run → IsAllowed J.sites J.parts run None self.old (AskFinish tx c.now) →
            GoesOn (seen_by (kinds_of C.laws) J.sites J.parts) holds self.new result.0 run None self.old (AskFinish tx c.now) line) }
        ensures err { IfErr result.1 (λ e. (run : List (Call C.Effect)) → Sees (kinds_of C.laws) J.sites J.parts pass run → Stays (seen_by (kinds_of C.laws) J.sites J.parts) holds self.new result.0 run) }
    {
        let by = pass.least();
        let at = self.place();
        let call = Finish { tx, c };
        let cut = Step::Disk { part: at };
        let (pass, answer) = self.ask(traces, pass, by, &call, tx, 0, cut);
        match answer {
            Ok(told) => match told {
                Ok(_) => {
                    return (pass, Ok(Step::Finished { part: at, tx }));
                }
                Err(line) => {
                    return (pass, Ok(line));
                }
            },
            Err(_) => {
                return (pass, Err(AllocError));
            }
        }
    }

    /// Asks a participant to abort, on the word of the transaction's session, and tells its line.
    ///
    /// # Errors
    ///
    /// `AllocError` for want of memory: nothing was asked.
    pub fn abort(
        &mut self,
        traces: &Traces<Told<C::Effect>, WorldLaw<C, D>>,
        pass: Pass<C, J>,
        by: u64,
        tx: TxId,
    ) -> (Pass<C, J>, Result<Step, AllocError>)
        requires here { (traces.now.table_id ≡ J.table) × (traces.now.table_id.words ≡ places traces.now.key + 1) × (traces.now.key ≡ size J.sites J.parts) }
        requires may { MayCall (seen_by (kinds_of C.laws) J.sites J.parts) holds J.sites J.parts self.old pass (Some by) self.old (AskAbort tx) }
        ensures same { self.new ≡ self.old }
        ensures numbers { result.0.numbers ≡ pass.numbers }
        ensures ok { IfOk result.1 (λ line. (run : List (Call C.Effect)) → Sees (kinds_of C.laws) J.sites J.parts pass run → IsAllowed J.sites J.parts run (Some by) self.old (AskAbort tx) →
            GoesOn (seen_by (kinds_of C.laws) J.sites J.parts) holds self.new result.0 run (Some by) self.old (AskAbort tx) line) }
        ensures err { IfErr result.1 (λ e. (run : List (Call C.Effect)) → Sees (kinds_of C.laws) J.sites J.parts pass run → Stays (seen_by (kinds_of C.laws) J.sites J.parts) holds self.new result.0 run) }
    {
        let at = self.place();
        let call = AbortOwn { tx };
        let cut = Step::Disk { part: at };
        let (pass, answer) = self.ask(traces, pass, by, &call, tx, 0, cut);
        match answer {
            Ok(told) => match told {
                Ok(_) => {
                    return (pass, Ok(Step::Aborted { part: at, tx }));
                }
                Err(line) => {
                    return (pass, Ok(line));
                }
            },
            Err(_) => {
                return (pass, Err(AllocError));
            }
        }
    }
}
