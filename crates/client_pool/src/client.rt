ghost use Rattle.std.specs.Prelude.{◌≡◌, ◌≤◌, ℕ, true, List, IfOk, IfErr, OnOk};
ghost use Rattle.crdt_core.specs.declared.kind.Kind.TheVariants as kind;
ghost use Rattle.site_vector.specs.declared.ids.TxId.{TxId as Id};
ghost use Rattle.txn_session.specs.Passes.{IsShared};
ghost use Rattle.txn_session.specs.Session.{Idle};
ghost use Rattle.client_pool.specs.Coming.{IsSession, Ready, Came, IsStopped};
ghost use Rattle.client_pool.specs.Load.{site_of, session_name};
ghost use Rattle.client_pool.specs.Works.{txn_done};
ghost use Rattle.client_pool.specs.Loads.{HasMade, HasSeen, HasLoad};

use crate::transaction::act;
use crate::{Fault, Gate, Plan, Turns, first_part, session_name, site_of, work_of};
use crdt_core::Crdt;
use site_vector::PartId;
use std::alloc::Global;
use txn_session::{Clock, Session, Store};

/// Makes a client's transaction with this number.
///
/// # Errors
///
/// `Down` where a partition stopped; `NoMemory` where memory runs out.
pub fn transaction<C: Crdt, S: Store<C> + Copy, G: Gate, K: Clock>(
    alloc: Global,
    store: S,
    plan: &Plan,
    clock: &K,
    turns: &mut Turns<'_, G>,
    session: &mut Session<C>,
    pass: S::Pass,
    client: u8,
    txn: u32,
) -> (S::Pass, Result<(), Fault>)
    requires shared { IsShared S.sees S.numbers S.stays }
    requires sites { S.sites store ≡ session.old.sites }
    requires parts { S.parts store ≡ session.old.parts }
    requires plan_sites { session.old.sites ≡ plan.now.sites }
    requires plan_parts { session.old.parts ≡ plan.now.parts }
    requires least { 1 ≤ client }
    requires name { session.old.name ≡ session_name client }
    requires site { session.old.site ≡ site_of plan.now client }
    requires counters { C.has kind.CounterPn ≡ true }
    requires names { C.has kind.SetAw ≡ true }
    requires idle { session.old.doing ≡ Idle }
    requires ready { Ready S.sees S.numbers store pass session.old }
    ensures same { (n : ℕ) → S.numbers result.0 n ≡ S.numbers pass n }
    ensures named { OnOk result.1 (IsSession session.old session.new) }
    ensures idle { OnOk result.1 (session.new.doing ≡ Idle) }
    ensures ok { IfOk result.1 (λ u. (tx : Id) × Came S.sees S.numbers store pass session.old result.0 session.new (txn_done plan.now client txn tx)) }
    ensures err { IfErr result.1 (λ fault. IsStopped S.sees S.numbers store result.0 fault) }
{
    let work = match work_of(alloc, plan, client, txn) {
        Ok(work) => work,
        Err(_) => return (pass, Err(Fault::NoMemory)),
    };
    let at = PartId {
        site: site_of(plan, client),
        part: first_part(plan, txn),
    };
    act(store, plan, clock, turns, session, pass, at, &work)
}

/// Makes all transactions of a client, one after another.
///
/// # Errors
///
/// As those of `transaction`.
pub fn transactions<C: Crdt, S: Store<C> + Copy, G: Gate, K: Clock>(
    alloc: Global,
    store: S,
    plan: &Plan,
    clock: &K,
    turns: &mut Turns<'_, G>,
    session: &mut Session<C>,
    pass: S::Pass,
    client: u8,
) -> (S::Pass, Result<(), Fault>)
    requires shared { IsShared S.sees S.numbers S.stays }
    requires sites { S.sites store ≡ session.old.sites }
    requires parts { S.parts store ≡ session.old.parts }
    requires plan_sites { session.old.sites ≡ plan.now.sites }
    requires plan_parts { session.old.parts ≡ plan.now.parts }
    requires least { 1 ≤ client }
    requires name { session.old.name ≡ session_name client }
    requires site { session.old.site ≡ site_of plan.now client }
    requires counters { C.has kind.CounterPn ≡ true }
    requires names { C.has kind.SetAw ≡ true }
    requires idle { session.old.doing ≡ Idle }
    requires ready { Ready S.sees S.numbers store pass session.old }
    ensures same { (n : ℕ) → S.numbers result.0 n ≡ S.numbers pass n }
    ensures ok { IfOk result.1 (λ u. HasMade S.sees S.numbers store pass session.old result.0 session.new plan.now client plan.now.txns) }
    ensures err { IfErr result.1 (λ fault. IsStopped S.sees S.numbers store result.0 fault) }
{
    let mut pass = pass;
    for j in 0..plan.txns {
        let (next, done) = transaction(
            alloc,
            store,
            plan,
            clock,
            turns,
            session,
            pass,
            client,
            j + 1,
        );
        pass = next;
        match done {
            Ok(()) => {}
            Err(fault) => return (pass, Err(fault)),
        }
    }
    (pass, Ok(()))
}

/// Makes all transactions of a client, in a session of its own.
///
/// # Errors
///
/// `Down` where a partition stopped; `NoMemory` where memory runs out.
pub fn run_client<C: Crdt, S: Store<C> + Copy, G: Gate, K: Clock>(
    alloc: Global,
    store: S,
    plan: &Plan,
    gate: &G,
    clock: &K,
    pass: S::Pass,
    client: u8,
) -> (S::Pass, Result<(), Fault>)
    requires shared { IsShared S.sees S.numbers S.stays }
    requires sites { S.sites store ≡ plan.now.sites }
    requires parts { S.parts store ≡ plan.now.parts }
    requires least { 1 ≤ client }
    requires counters { C.has kind.CounterPn ≡ true }
    requires names { C.has kind.SetAw ≡ true }
    requires seen { HasSeen S.sees S.numbers store pass }
    ensures same { (n : ℕ) → S.numbers result.0 n ≡ S.numbers pass n }
    ensures ok { IfOk result.1 (λ u. HasLoad S.sees S.numbers store pass result.0 plan.now client) }
    ensures err { IfErr result.1 (λ fault. IsStopped S.sees S.numbers store result.0 fault) }
{
    let name = match session_name(alloc, client) {
        Ok(name) => name,
        Err(_) => return (pass, Err(Fault::NoMemory)),
    };
    let mut session = Session::new(alloc, name, site_of(plan, client), plan.sites, plan.parts);
    let mut turns = Turns::new(gate, client);
    transactions(
        alloc,
        store,
        plan,
        clock,
        &mut turns,
        &mut session,
        pass,
        client,
    )
}
