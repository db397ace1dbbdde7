ghost use Rattle.std.specs.Prelude.{◌≡◌, ◌≤◌, ◌+◌, List, None, Some, IfOk, IfErr};
ghost use Rattle.crdt_core.specs.KindsOf.{kinds_of};
ghost use Rattle.crdt_core.specs.Log.{end_of_time};
ghost use Rattle.world_model.specs.lines.Lines.{wish_of};
ghost use Rattle.txn_session.specs.Numbers.{IsLeast};
ghost use Rattle.world_model.specs.rules.Event.{AskTick, AskBegin};
ghost use Rattle.world_model.specs.threads.Calls.{Call};
ghost use Rattle.txn_session.specs.Calls.{IsAllowed, MayCall, GoesOn, Stays};
ghost use Rattle.seat_rule.specs.Sizes.{places, size};
ghost use Rattle.partition_lock.specs.Calling.{seen_by, holds};
ghost use Rattle.partition_lock.specs.Passes.{Sees};

use crate::calls::{Begin, Tick};
use crate::desk::Desk;
use crate::law::WorldLaw;
use crate::lines::NO_TX;
use crate::naming::Naming;
use crate::pass::Pass;
use crate::told::Told;
use crdt_core::Crdt;
use disk_core::Disk;
use field_codec::Text;
use seat_rule::Traces;
use site_vector::VTime;
use std::alloc::AllocError;
use world_model::{Mode, Step};

impl<C: Crdt, D: Disk + Drop, J: Naming> Desk<C, D, J> {
    /// Reads the clock at `r`, at most 2^62, and tells its line.
    ///
    /// # Errors
    ///
    /// `AllocError` for want of memory: nothing was asked.
    pub fn tick(
        &mut self,
        traces: &Traces<Told<C::Effect>, WorldLaw<C, D>>,
        pass: Pass<C, J>,
        r: u64,
    ) -> (Pass<C, J>, Result<Step, AllocError>)
        requires here { (traces.now.table_id ≡ J.table) × (traces.now.table_id.words ≡ places traces.now.key + 1) × (traces.now.key ≡ size J.sites J.parts) }
        requires clock_time { r ≤ end_of_time }
        requires may { MayCall (seen_by (kinds_of C.laws) J.sites J.parts) holds J.sites J.parts self.old pass None self.old (AskTick r) }
        ensures same { self.new ≡ self.old }
        ensures numbers { result.0.numbers ≡ pass.numbers }
        ensures ok { IfOk result.1 (λ line. (run : List (Call C.Effect)) → Sees (kinds_of C.laws) J.sites J.parts pass run →
            GoesOn (seen_by (kinds_of C.laws) J.sites J.parts) holds self.new result.0 run None self.old (AskTick r) line) }
        ensures err { IfErr result.1 (λ e. (run : List (Call C.Effect)) → Sees (kinds_of C.laws) J.sites J.parts pass run → Stays (seen_by (kinds_of C.laws) J.sites J.parts) holds self.new result.0 run) }
    {
        let by = pass.least();
        let at = self.place();
        let call = Tick { clock_time: r };
        let cut = Step::Disk { part: at };
        let (pass, answer) = self.ask(traces, pass, by, &call, NO_TX, 0, cut);
        match answer {
            Ok(told) => match told {
                Ok(now) => {
                    return (pass, Ok(Step::Ticked { part: at, now }));
                }
                Err(line) => {
                    return (pass, Ok(line));
                }
            },
            Err(_) => {
                return (pass, Err(AllocError));
            }
        }
    }

    /// Begins a transaction of the session `who`, which depends on `dep`, in this mode, and tells its line and the caller's number.
    ///
    /// # Errors
    ///
    /// `AllocError` for want of memory: nothing was asked.
    pub fn begin(
        &mut self,
        traces: &Traces<Told<C::Effect>, WorldLaw<C, D>>,
        pass: Pass<C, J>,
        who: &Text,
        dep: &VTime,
        mode: Mode,
    ) -> (Pass<C, J>, Result<(Step, u64), AllocError>)
        requires here { (traces.now.table_id ≡ J.table) × (traces.now.table_id.words ≡ places traces.now.key + 1) × (traces.now.key ≡ size J.sites J.parts) }
        requires may { MayCall (seen_by (kinds_of C.laws) J.sites J.parts) holds J.sites J.parts self.old pass None self.old (AskBegin who.now (wish_of dep.now mode)) }
        ensures same { self.new ≡ self.old }
        ensures numbers { result.0.numbers ≡ pass.numbers }
        ensures least { IfOk result.1 (λ r. IsLeast (holds result.0) r.1) }
        ensures ok { IfOk result.1 (λ r. (run : List (Call C.Effect)) → Sees (kinds_of C.laws) J.sites J.parts pass run → IsAllowed J.sites J.parts run None self.old (AskBegin who.now (wish_of dep.now mode)) →
            GoesOn (seen_by (kinds_of C.laws) J.sites J.parts) holds self.new result.0 run (Some r.1) self.old (AskBegin who.now (wish_of dep.now mode)) r.0) }
        ensures err { IfErr result.1 (λ e. (run : List (Call C.Effect)) → Sees (kinds_of C.laws) J.sites J.parts pass run → Stays (seen_by (kinds_of C.laws) J.sites J.parts) holds self.new result.0 run) }
    {
        let by = pass.least();
        let at = self.place();
        let name = match who.copy(self.alloc) {
            Ok(name) => name,
            Err(_) => {
                return (pass, Err(AllocError));
            }
        };
        let call = Begin {
            who,
            dependency: dep,
            mode,
        };
        let cut = Step::Disk { part: at };
        let (pass, answer) = self.ask(traces, pass, by, &call, NO_TX, 0, cut);
        match answer {
            Ok(told) => match told {
                Ok(x) => {
                    return (
                        pass,
                        Ok((
                            Step::Began {
                                name,
                                tx: x.0,
                                s: x.1,
                            },
                            by,
                        )),
                    );
                }
                Err(line) => {
                    return (pass, Ok((line, by)));
                }
            },
            Err(_) => {
                return (pass, Err(AllocError));
            }
        }
    }
}
