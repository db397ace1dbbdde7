ghost use Rattle.std.specs.Prelude.{◌≡◌, ◌+◌, List, Some, true};
ghost use Rattle.crdt_core.specs.KindsOf.{kinds_of};
ghost use Rattle.world_model.specs.threads.Calls.{Call, entries};
ghost use Rattle.txn_session.specs.Calls.{IsAllowed};
ghost use Rattle.partition_lock.specs.Answers.{is_starved, Comes, MayAsk, Waits};
ghost use Rattle.seat_rule.specs.Sizes.{places, size};
ghost use Rattle.partition_lock.specs.Passes.{Sees};

use crate::desk::Desk;
use crate::entry::Entry;
use crate::form::PartitionCall;
use crate::hear::look;
use crate::law::WorldLaw;
use crate::naming::Naming;
use crate::note::note;
use crate::pass::Pass;
use crate::told::Told;
use crdt_core::Crdt;
use disk_core::Disk;
use partition_core::DurableError;
use seat_rule::{Traces, hand, join};
use std::marker::{Brand, PhantomData};

/// Whether nothing was asked, for want of memory.
pub(crate) fn starved<T>(answer: &Result<T, DurableError>) -> bool
    ensures { result ≡ is_starved answer.now }
{
    match answer {
        Err(error) => match error {
            DurableError::NoMemory => true,
            _ => false,
        },
        Ok(_) => false,
    }
}

impl<C: Crdt, D: Disk + Drop, J: Naming> Desk<C, D, J> {
    /// Makes a call by one of the pass's numbers, the body of all calls. What the pass had seen goes on: by what others did,
    /// and by one step, which the answer tells; where memory ran out, by no step.
    pub(crate) fn call<K: PartitionCall<C, D>>(
        &mut self,
        traces: &Traces<Told<C::Effect>, WorldLaw<C, D>>,
        pass: Pass<C, J>,
        by: u64,
        call: &K,
    ) -> (Pass<C, J>, Result<K::Out, DurableError>)
        requires here { (traces.now.table_id ≡ J.table) × (traces.now.table_id.words ≡ places traces.now.key + 1) × (traces.now.key ≡ size J.sites J.parts) }
        requires fit { K.fit call.now }
        requires may { MayAsk (kinds_of C.laws) J.sites J.parts pass by self.old (K.ask call.now) (K.given call.now) }
        ensures same { self.new ≡ self.old }
        ensures numbers { result.0.numbers ≡ pass.numbers }
        ensures comes { (run : List (Call C.Effect)) → Sees (kinds_of C.laws) J.sites J.parts pass run → IsAllowed J.sites J.parts run (Some by) self.old (K.ask call.now) → K.given call.now (entries run) →
            Comes (kinds_of C.laws) J.sites J.parts pass result.0 run by self.old (K.ask call.now) (K.shows call.now) result.1 }
        ensures waits { is_starved result.1 ≡ true → (run : List (Call C.Effect)) → Sees (kinds_of C.laws) J.sites J.parts pass run → Waits (kinds_of C.laws) J.sites J.parts pass result.0 run }
    {
        let seen = pass.stamp.max(self.stamp);
        let Some(stamp) = seen.checked_add(1) else {
            return (pass, Err(DurableError::NoMemory));
        };
        if self.entries.reserve(1).is_err() {
            return (pass, Err(DurableError::NoMemory));
        }
        let Pass {
            seat,
            stamp: _,
            least,
            of: _,
        } = pass;
        join(traces, &mut self.seat, seat);
        look::<C, D, J>(traces, &mut self.seat);
        let answer = call.make(self.alloc, &mut self.partition);
        if starved(&answer) {
            self.stamp = seen;
            let seat = hand(traces, &mut self.seat);
            let pass = Pass {
                seat,
                stamp: seen,
                least,
                of: PhantomData,
            };
            return (pass, answer);
        }
        note::<C, D, J, K, Brand>(
            traces,
            &mut self.seat,
            self.word,
            self.id,
            stamp,
            by,
            call,
            &answer,
            &self.partition,
        );
        let _ = self.entries.push(Entry { stamp, caller: by });
        self.stamp = stamp;
        let seat = hand(traces, &mut self.seat);
        let pass = Pass {
            seat,
            stamp,
            least,
            of: PhantomData,
        };
        (pass, answer)
    }
}
