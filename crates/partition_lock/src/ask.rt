ghost use Rattle.std.specs.Prelude.{◌≡◌, ◌+◌, List, Some, IfOk, IfErr};
ghost use Rattle.crdt_core.specs.KindsOf.{kinds_of};
ghost use Rattle.world_model.specs.rules.Event.{Event};
ghost use Rattle.world_model.specs.rules.Lines.{tx_asked, number_asked, fault_shown};
ghost use Rattle.world_model.specs.threads.Calls.{Call, entries};
ghost use Rattle.txn_session.specs.Calls.{IsAllowed};
ghost use Rattle.seat_rule.specs.Sizes.{places, size};
ghost use Rattle.partition_lock.specs.Answers.{MayAsk, Settles, Waits};
ghost use Rattle.partition_lock.specs.Passes.{Sees};

use crate::desk::Desk;
use crate::form::PartitionCall;
use crate::law::WorldLaw;
use crate::lines::unanswered;
use crate::naming::Naming;
use crate::pass::Pass;
use crate::told::Told;
use crdt_core::Crdt;
use disk_core::Disk;
use seat_rule::Traces;
use site_vector::{PartId, TxId};
use std::alloc::AllocError;
use world_model::Step;

impl<C: Crdt, D: Disk + Drop, J: Naming> Desk<C, D, J> {
    /// The place of its partition.
    pub fn place(&self) -> PartId
        ensures { result ≡ self.now }
    {
        self.id
    }

    /// Makes a call by one of the pass's numbers: its answer, or the line that says why there is none. The transaction and
    /// the number are those that the call names, and `cut` is the line of a call that the disk cut off.
    ///
    /// # Errors
    ///
    /// `AllocError` for want of memory: nothing was asked.
    pub(crate) fn ask<K: PartitionCall<C, D>>(
        &mut self,
        traces: &Traces<Told<C::Effect>, WorldLaw<C, D>>,
        pass: Pass<C, J>,
        by: u64,
        call: &K,
        tx: TxId,
        number: u64,
        cut: Step,
    ) -> (Pass<C, J>, Result<Result<K::Out, Step>, AllocError>)
        requires here { (traces.now.table_id ≡ J.table) × (traces.now.table_id.words ≡ places traces.now.key + 1) × (traces.now.key ≡ size J.sites J.parts) }
        requires fit { K.fit call.now }
        requires may { MayAsk (kinds_of C.laws) J.sites J.parts pass by self.old (K.ask call.now) (K.given call.now) }
        requires tx { tx ≡ tx_asked (K.ask call.now) }
        requires number { number ≡ number_asked (K.ask call.now) }
        requires cut { (x : K.Out) (what : Event C.Effect) → K.shows call.now x what → cut ≡ fault_shown self.old what }
        ensures same { self.new ≡ self.old }
        ensures numbers { result.0.numbers ≡ pass.numbers }
        ensures ok { IfOk result.1 (λ r. (run : List (Call C.Effect)) → Sees (kinds_of C.laws) J.sites J.parts pass run → IsAllowed J.sites J.parts run (Some by) self.old (K.ask call.now) → K.given call.now (entries run) →
            Settles (kinds_of C.laws) J.sites J.parts pass result.0 run by self.old (K.ask call.now) (K.shows call.now) r) }
        ensures err { IfErr result.1 (λ e. (run : List (Call C.Effect)) → Sees (kinds_of C.laws) J.sites J.parts pass run → Waits (kinds_of C.laws) J.sites J.parts pass result.0 run) }
    {
        let at = self.id;
        let (pass, answer) = self.call(traces, pass, by, call);
        match answer {
            Ok(x) => {
                return (pass, Ok(Ok(x)));
            }
            Err(error) => match unanswered(at, tx, number, cut, error) {
                Ok(line) => {
                    return (pass, Ok(Err(line)));
                }
                Err(_) => {
                    return (pass, Err(AllocError));
                }
            },
        }
    }
}
