ghost use Rattle.std.specs.Prelude.{◌≡◌, ℕ, true, List, IfOk, IfErr};
ghost use Rattle.txn_session.specs.Passes.{IsShared};
ghost use Rattle.txn_session.specs.Session.{is_open};
ghost use Rattle.client_pool.specs.Coming.{Ready, Came, IsStopped};
ghost use Rattle.client_pool.specs.Sessions.{place_for, reading, updating, HasUpdated};

use crate::{Fault, Gate, Plan, Reply, Turns, told};
use crdt_core::{Crdt, ObjectId, Op, partition_of};
use site_vector::PartId;
use txn_session::{Clock, Session, Store};
use world_model::Step;

/// The place of an object at the session's site.
fn place_for<C: Crdt>(plan: &Plan, session: &Session<C>, object: &ObjectId) -> PartId
    requires { session.now.parts ≡ plan.now.parts }
    ensures { result ≡ place_for session.now object.now }
{
    PartId {
        site: session.site(),
        part: partition_of(object, plan.parts),
    }
}

/// Reads an object in the session's open transaction, again while the answer is a wait.
///
/// # Errors
///
/// `Down` where the object's partition stopped; `NoMemory` where memory runs out.
pub fn read<C: Crdt, S: Store<C> + Copy, G: Gate, K: Clock>(
    store: S,
    plan: &Plan,
    clock: &K,
    turns: &mut Turns<'_, G>,
    session: &mut Session<C>,
    pass: S::Pass,
    object: &ObjectId,
) -> (S::Pass, Result<Step, Fault>)
    requires shared { IsShared S.sees S.numbers S.stays }
    requires sites { S.sites store ≡ session.old.sites }
    requires parts { S.parts store ≡ session.old.parts }
    requires plan_parts { session.old.parts ≡ plan.now.parts }
    requires has { C.has object.now.kind ≡ true }
    requires open { is_open session.old.doing ≡ true }
    requires ready { Ready S.sees S.numbers store pass session.old }
    ensures same { (n : ℕ) → S.numbers result.0 n ≡ S.numbers pass n }
    ensures as_before { session.new ≡ session.old }
    ensures ok { IfOk result.1 (λ line. Came S.sees S.numbers store pass session.old result.0 session.new (reading session.old.doing object.now)) }
    ensures err { IfErr result.1 (λ fault. IsStopped S.sees S.numbers store result.0 fault) }
{
    let mut store = store;
    let mut pass = pass;
    for _ in 0..u64::MAX {
        turns.next();
        let (next, answer) = session.read_wait(&mut store, pass, object, clock);
        pass = next;
        match told(answer) {
            Reply::Done(line) => return (pass, Ok(line)),
            Reply::Again => {}
            Reply::Stopped => {
                return (pass, Err(Fault::Down(place_for(plan, session, object))));
            }
            Reply::NoMemory => return (pass, Err(Fault::NoMemory)),
        }
    }
    (pass, Err(Fault::NoMemory))
}

/// Updates an object in the session's open transaction, again while the answer is a wait, or want of time or room.
///
/// # Errors
///
/// `Down` where the object's partition stopped; `NoMemory` where memory runs out.
pub fn update<C: Crdt, S: Store<C> + Copy, G: Gate, K: Clock>(
    store: S,
    plan: &Plan,
    clock: &K,
    turns: &mut Turns<'_, G>,
    session: &mut Session<C>,
    pass: S::Pass,
    object: &ObjectId,
    op: &Op,
) -> (S::Pass, Result<Step, Fault>)
    requires shared { IsShared S.sees S.numbers S.stays }
    requires sites { S.sites store ≡ session.old.sites }
    requires parts { S.parts store ≡ session.old.parts }
    requires plan_parts { session.old.parts ≡ plan.now.parts }
    requires has { C.has object.now.kind ≡ true }
    requires open { is_open session.old.doing ≡ true }
    requires ready { Ready S.sees S.numbers store pass session.old }
    ensures same { (n : ℕ) → S.numbers result.0 n ≡ S.numbers pass n }
    ensures updated { IfOk result.1 (λ line. HasUpdated session.old object.now session.new) }
    ensures ok { IfOk result.1 (λ line. Came S.sees S.numbers store pass session.old result.0 session.new (updating session.old.doing object.now op.now)) }
    ensures err { IfErr result.1 (λ fault. IsStopped S.sees S.numbers store result.0 fault) }
{
    let mut store = store;
    let mut pass = pass;
    for _ in 0..u64::MAX {
        turns.next();
        let (next, answer) = session.update_wait(&mut store, pass, object, op, clock);
        pass = next;
        match told(answer) {
            Reply::Done(line) => return (pass, Ok(line)),
            Reply::Again => {}
            Reply::Stopped => {
                return (pass, Err(Fault::Down(place_for(plan, session, object))));
            }
            Reply::NoMemory => return (pass, Err(Fault::NoMemory)),
        }
    }
    (pass, Err(Fault::NoMemory))
}
