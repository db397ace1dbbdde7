ghost use Rattle.std.specs.Prelude.{◌≡◌, ◌+◌, List, None, IfOk, IfErr};
ghost use Rattle.crdt_core.specs.KindsOf.{kinds_of};
ghost use Rattle.world_model.specs.rules.Event.{AskTake, AskHear};
ghost use Rattle.world_model.specs.threads.Calls.{Call};
ghost use Rattle.txn_session.specs.Calls.{IsAllowed, MayCall, HandsOn, Stays};
ghost use Rattle.seat_rule.specs.Sizes.{places, size};
ghost use Rattle.partition_lock.specs.Calling.{seen_by, holds};
ghost use Rattle.partition_lock.specs.Passes.{Sees};

use crate::calls::{Hear, Take};
use crate::desk::Desk;
use crate::law::WorldLaw;
use crate::lines::{NO_TX, handed};
use crate::naming::Naming;
use crate::pass::Pass;
use crate::told::Told;
use crdt_core::{Crdt, Message};
use disk_core::Disk;
use seat_rule::Traces;
use site_vector::VTime;
use std::alloc::AllocError;
use world_model::Step;

impl<C: Crdt, D: Disk + Drop, J: Naming> Desk<C, D, J> {
    /// Hands on a message, as the one with this number among its sender's, and tells its line.
    ///
    /// # Errors
    ///
    /// `AllocError` for want of memory: nothing was asked.
    pub fn take(
        &mut self,
        traces: &Traces<Told<C::Effect>, WorldLaw<C, D>>,
        pass: Pass<C, J>,
        number: u64,
        message: &Message<C::Effect>,
    ) -> (Pass<C, J>, Result<Step, AllocError>)
        requires here { (traces.now.table_id ≡ J.table) × (traces.now.table_id.words ≡ places traces.now.key + 1) × (traces.now.key ≡ size J.sites J.parts) }
        requires may { MayCall (seen_by (kinds_of C.laws) J.sites J.parts) holds J.sites J.parts self.old pass None self.old (AskTake number message.now) }
        ensures same { self.new ≡ self.old }
        ensures numbers { result.0.numbers ≡ pass.numbers }
        ensures ok { IfOk result.1 (λ line. (run : List (Call C.Effect)) → Sees (kinds_of C.laws) J.sites J.parts pass run → IsAllowed J.sites J.parts run None self.old (AskTake number message.now) →
            HandsOn (seen_by (kinds_of C.laws) J.sites J.parts) holds self.new result.0 run self.old (AskTake number message.now) number line) }
        ensures err { IfErr result.1 (λ e. (run : List (Call C.Effect)) → Sees (kinds_of C.laws) J.sites J.parts pass run → Stays (seen_by (kinds_of C.laws) J.sites J.parts) holds self.new result.0 run) }
    {
        let by = pass.least();
        let at = self.place();
        let call = Take { number, message };
        let cut = Step::Disk { part: at };
        let (pass, answer) = self.ask(traces, pass, by, &call, NO_TX, number, cut);
        match answer {
            Ok(told) => match told {
                Ok(_) => {
                    let hi = message.hi;
                    return (pass, Ok(Step::Took { number, hi }));
                }
                Err(line) => {
                    return (pass, Ok(handed(number, line)));
                }
            },
            Err(_) => {
                return (pass, Err(AllocError));
            }
        }
    }

    /// Hands on the report of the partition `part` of the site, as the one with this number among its maker's, and tells its
    /// line.
    ///
    /// # Errors
    ///
    /// `AllocError` for want of memory: nothing was asked.
    pub fn hear(
        &mut self,
        traces: &Traces<Told<C::Effect>, WorldLaw<C, D>>,
        pass: Pass<C, J>,
        number: u64,
        part: u8,
        bounds: &VTime,
    ) -> (Pass<C, J>, Result<Step, AllocError>)
        requires here { (traces.now.table_id ≡ J.table) × (traces.now.table_id.words ≡ places traces.now.key + 1) × (traces.now.key ≡ size J.sites J.parts) }
        requires may { MayCall (seen_by (kinds_of C.laws) J.sites J.parts) holds J.sites J.parts self.old pass None self.old (AskHear number part bounds.now) }
        ensures same { self.new ≡ self.old }
        ensures numbers { result.0.numbers ≡ pass.numbers }
        ensures ok { IfOk result.1 (λ line. (run : List (Call C.Effect)) → Sees (kinds_of C.laws) J.sites J.parts pass run → IsAllowed J.sites J.parts run None self.old (AskHear number part bounds.now) →
            HandsOn (seen_by (kinds_of C.laws) J.sites J.parts) holds self.new result.0 run self.old (AskHear number part bounds.now) number line) }
        ensures err { IfErr result.1 (λ e. (run : List (Call C.Effect)) → Sees (kinds_of C.laws) J.sites J.parts pass run → Stays (seen_by (kinds_of C.laws) J.sites J.parts) holds self.new result.0 run) }
    {
        let by = pass.least();
        let at = self.place();
        let call = Hear {
            number,
            part,
            bounds,
        };
        let cut = Step::Disk { part: at };
        let (pass, answer) = self.ask(traces, pass, by, &call, NO_TX, 0, cut);
        match answer {
            Ok(told) => match told {
                Ok(stable) => {
                    return (
                        pass,
                        Ok(Step::Heard {
                            number,
                            part: at,
                            stable,
                        }),
                    );
                }
                Err(line) => {
                    return (pass, Ok(handed(number, line)));
                }
            },
            Err(_) => {
                return (pass, Err(AllocError));
            }
        }
    }
}
