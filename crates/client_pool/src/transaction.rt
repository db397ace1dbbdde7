ghost use Rattle.std.specs.Prelude.{◌≡◌, ◌≤◌, ℕ, true, List, [], ◌∷◌, ◌++◌, IfOk, IfErr, OnOk};
ghost use Rattle.crdt_core.specs.declared.object.ObjectId.{ObjectId as Object};
ghost use Rattle.crdt_core.specs.declared.kind.Kind.TheVariants as kind;
ghost use Rattle.site_vector.specs.declared.ids.TxId.{TxId as Id};
ghost use Rattle.world_model.specs.lines.Places.{IsPlace};
ghost use Rattle.world_model.specs.declared.step.Step.{Step as Line};
ghost use Rattle.txn_session.specs.Passes.{IsShared};
ghost use Rattle.txn_session.specs.Session.{Idle, is_open};
ghost use Rattle.client_pool.specs.Coming.{IsSession, Ready, Came, IsStopped};
ghost use Rattle.client_pool.specs.Works.{HasOpen, HasStarted, both_read, all_updated, objects_in, work_done};

use crate::begin::begin;
use crate::commit::commit;
use crate::session::{read, update};
use crate::tick::{reading_of, tick};
use crate::{Fault, Gate, Plan, Turns, Work};
use crdt_core::Crdt;
use site_vector::PartId;
use txn_session::{Clock, Session, Store};
use world_model::Step;

/// Tells a partition of the session's site the clock, and begins a transaction there.
///
/// # Errors
///
/// As those of `tick` and `begin`.
fn start<C: Crdt, S: Store<C> + Copy, G: Gate, K: Clock>(
    store: S,
    clock: &K,
    turns: &mut Turns<'_, G>,
    session: &mut Session<C>,
    pass: S::Pass,
    at: PartId,
) -> (S::Pass, Result<(), Fault>)
    requires shared { IsShared S.sees S.numbers S.stays }
    requires sites { S.sites store ≡ session.old.sites }
    requires parts { S.parts store ≡ session.old.parts }
    requires place { IsPlace session.old.sites session.old.parts at }
    requires site { session.old.site ≡ at.site }
    requires idle { session.old.doing ≡ Idle }
    requires ready { Ready S.sees S.numbers store pass session.old }
    ensures same { (n : ℕ) → S.numbers result.0 n ≡ S.numbers pass n }
    ensures ok { IfOk result.1 (λ u. HasStarted S.sees S.numbers store pass session.old result.0 session.new at) }
    ensures err { IfErr result.1 (λ fault. IsStopped S.sees S.numbers store result.0 fault) }
{
    let reading = reading_of(clock);
    let (pass, line) = tick(store, turns, session, pass, at, reading);
    match only(line) {
        Ok(()) => {}
        Err(fault) => return (pass, Err(fault)),
    }
    let (pass, line) = begin(store, turns, session, pass, at.part);
    match only(line) {
        Ok(()) => (pass, Ok(())),
        Err(fault) => (pass, Err(fault)),
    }
}

/// Makes a whole transaction with this work, which begins at this partition of the session's site.
///
/// # Errors
///
/// As those of its calls.
pub fn act<C: Crdt, S: Store<C> + Copy, G: Gate, K: Clock>(
    store: S,
    plan: &Plan,
    clock: &K,
    turns: &mut Turns<'_, G>,
    session: &mut Session<C>,
    pass: S::Pass,
    at: PartId,
    work: &Work,
) -> (S::Pass, Result<(), Fault>)
    requires shared { IsShared S.sees S.numbers S.stays }
    requires sites { S.sites store ≡ session.old.sites }
    requires parts { S.parts store ≡ session.old.parts }
    requires plan_parts { session.old.parts ≡ plan.now.parts }
    requires place { IsPlace session.old.sites session.old.parts at }
    requires site { session.old.site ≡ at.site }
    requires first { C.has work.now.first.kind ≡ true }
    requires second { C.has work.now.second.kind ≡ true }
    requires names { C.has work.now.names.kind ≡ true }
    requires idle { session.old.doing ≡ Idle }
    requires ready { Ready S.sees S.numbers store pass session.old }
    ensures same { (n : ℕ) → S.numbers result.0 n ≡ S.numbers pass n }
    ensures named { OnOk result.1 (IsSession session.old session.new) }
    ensures idle { OnOk result.1 (session.new.doing ≡ Idle) }
    ensures ok { IfOk result.1 (λ u. (tx : Id) × Came S.sees S.numbers store pass session.old result.0 session.new (work_done at session.old.name plan.now.parts tx work.now)) }
    ensures err { IfErr result.1 (λ fault. IsStopped S.sees S.numbers store result.0 fault) }
{
    let (pass, done) = start(store, clock, turns, session, pass, at);
    match done {
        Ok(()) => {}
        Err(fault) => return (pass, Err(fault)),
    }
    let (pass, done) = read_both(store, plan, clock, turns, session, pass, work);
    match done {
        Ok(()) => {}
        Err(fault) => return (pass, Err(fault)),
    }
    let (pass, done) = update_all(store, plan, clock, turns, session, pass, work);
    match done {
        Ok(()) => {}
        Err(fault) => return (pass, Err(fault)),
    }
    let (pass, done) = commit(store, clock, turns, session, pass);
    match done {
        Ok(()) => (pass, Ok(())),
        Err(fault) => (pass, Err(fault)),
    }
}

/// Makes the two reads of a transaction.
///
/// # Errors
///
/// As those of `read`.
pub fn read_both<C: Crdt, S: Store<C> + Copy, G: Gate, K: Clock>(
    store: S,
    plan: &Plan,
    clock: &K,
    turns: &mut Turns<'_, G>,
    session: &mut Session<C>,
    pass: S::Pass,
    work: &Work,
) -> (S::Pass, Result<(), Fault>)
    requires shared { IsShared S.sees S.numbers S.stays }
    requires sites { S.sites store ≡ session.old.sites }
    requires parts { S.parts store ≡ session.old.parts }
    requires plan_parts { session.old.parts ≡ plan.now.parts }
    requires first { C.has work.now.first.kind ≡ true }
    requires second { C.has work.now.second.kind ≡ true }
    requires open { is_open session.old.doing ≡ true }
    requires ready { Ready S.sees S.numbers store pass session.old }
    ensures same { (n : ℕ) → S.numbers result.0 n ≡ S.numbers pass n }
    ensures as_before { session.new ≡ session.old }
    ensures ok { IfOk result.1 (λ u. (tx : Id) (os : List Object) → HasOpen session.old tx os → Came S.sees S.numbers store pass session.old result.0 session.new (both_read tx work.now)) }
    ensures err { IfErr result.1 (λ fault. IsStopped S.sees S.numbers store result.0 fault) }
{
    let (pass, line) = read(store, plan, clock, turns, session, pass, &work.first);
    match only(line) {
        Ok(()) => {}
        Err(fault) => return (pass, Err(fault)),
    }
    let (pass, line) = read(store, plan, clock, turns, session, pass, &work.second);
    match only(line) {
        Ok(()) => (pass, Ok(())),
        Err(fault) => (pass, Err(fault)),
    }
}

/// Makes the three updates of a transaction.
///
/// # Errors
///
/// As those of `update`.
pub fn update_all<C: Crdt, S: Store<C> + Copy, G: Gate, K: Clock>(
    store: S,
    plan: &Plan,
    clock: &K,
    turns: &mut Turns<'_, G>,
    session: &mut Session<C>,
    pass: S::Pass,
    work: &Work,
) -> (S::Pass, Result<(), Fault>)
    requires shared { IsShared S.sees S.numbers S.stays }
    requires sites { S.sites store ≡ session.old.sites }
    requires parts { S.parts store ≡ session.old.parts }
    requires plan_parts { session.old.parts ≡ plan.now.parts }
    requires first { C.has work.now.first.kind ≡ true }
    requires second { C.has work.now.second.kind ≡ true }
    requires names { C.has work.now.names.kind ≡ true }
    requires open { is_open session.old.doing ≡ true }
    requires ready { Ready S.sees S.numbers store pass session.old }
    ensures same { (n : ℕ) → S.numbers result.0 n ≡ S.numbers pass n }
    ensures named { OnOk result.1 (IsSession session.old session.new) }
    ensures open { IfOk result.1 (λ u. (tx : Id) (os : List Object) → HasOpen session.old tx os → HasOpen session.new tx (os ++ objects_in work.now)) }
    ensures ok { IfOk result.1 (λ u. (tx : Id) (os : List Object) → HasOpen session.old tx os → Came S.sees S.numbers store pass session.old result.0 session.new (all_updated tx work.now)) }
    ensures err { IfErr result.1 (λ fault. IsStopped S.sees S.numbers store result.0 fault) }
{
    let (pass, line) = update(
        store,
        plan,
        clock,
        turns,
        session,
        pass,
        &work.first,
        &work.increment,
    );
    match only(line) {
        Ok(()) => {}
        Err(fault) => return (pass, Err(fault)),
    }
    let (pass, line) = update(
        store,
        plan,
        clock,
        turns,
        session,
        pass,
        &work.second,
        &work.decrement,
    );
    match only(line) {
        Ok(()) => {}
        Err(fault) => return (pass, Err(fault)),
    }
    let (pass, line) = update(
        store,
        plan,
        clock,
        turns,
        session,
        pass,
        &work.names,
        &work.addition,
    );
    match only(line) {
        Ok(()) => (pass, Ok(())),
        Err(fault) => (pass, Err(fault)),
    }
}

/// Whether what was asked is done, without its line.
fn only(answer: Result<Step, Fault>) -> Result<(), Fault>
    ensures ok { IfOk result (λ u. (line : Line) × (answer ≡ Ok line)) }
    ensures err { IfErr result (λ fault. answer ≡ Err fault) }
{
    match answer {
        Ok(_) => Ok(()),
        Err(fault) => Err(fault),
    }
}
