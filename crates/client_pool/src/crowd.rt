ghost use Rattle.std.specs.Prelude.{◌≡◌, ◌≤◌, ◌+◌, ℕ, true, List, IfOk, IfErr};
ghost use Rattle.crdt_core.specs.declared.kind.Kind.TheVariants as kind;
ghost use Rattle.txn_session.specs.Calls.{Call, Stays};
ghost use Rattle.txn_session.specs.Numbers.{IsLeast};
ghost use Rattle.txn_session.specs.Passes.{IsShared};
ghost use Rattle.client_pool.specs.Coming.{IsStopped};
ghost use Rattle.client_pool.specs.Loads.{HasSeen};
ghost use Rattle.client_pool.specs.Crowds.{IsSplit, IsMet, HasCrowd, first_fault};

use crate::client::run_client;
use crate::{Fault, Gate, Plan};
use crdt_core::Crdt;
use std::alloc::Global;
use txn_session::{Clock, Store};

/// The first fault of two.
fn either(one: Result<(), Fault>, other: Result<(), Fault>) -> Result<(), Fault>
    ensures { result ≡ first_fault one other }
{
    match one {
        Ok(()) => other,
        Err(fault) => Err(fault),
    }
}

/// Two passes in place of one: the second has a new number.
fn part<C: Crdt, S: Store<C> + Copy>(store: S, pass: S::Pass) -> Result<(S::Pass, S::Pass), S::Pass>
    requires shared { IsShared S.sees S.numbers S.stays }
    requires seen { HasSeen S.sees S.numbers store pass }
    ensures ok { IfOk result (λ r. IsSplit S.sees S.numbers store pass r.0 r.1) }
    ensures rest { IfOk result (λ r. HasSeen S.sees S.numbers store r.0) }
    ensures own { IfOk result (λ r. HasSeen S.sees S.numbers store r.1) }
    ensures err { IfErr result (λ r. (n : ℕ) → S.numbers r n ≡ S.numbers pass n) }
{
    let mut store = store;
    store.split(pass)
}

/// One pass in place of two.
fn bring<C: Crdt, S: Store<C> + Copy>(store: S, first: S::Pass, second: S::Pass) -> S::Pass
    requires shared { IsShared S.sees S.numbers S.stays }
    ensures { IsMet S.sees S.numbers store first second result }
{
    let mut store = store;
    store.meet(first, second)
}

/// Runs the clients from this one on, one after another, each with a pass of its own.
///
/// A client that ends early leaves the others to go on.
///
/// # Errors
///
/// `Down` where a partition stopped; `NoMemory` where memory runs out. Of several faults it is that of the least client.
pub fn run_clients<C: Crdt, S: Store<C> + Copy, G: Gate, K: Clock>(
    alloc: Global,
    store: S,
    plan: Plan,
    gate: &G,
    clock: &K,
    pass: S::Pass,
    first: u8,
) -> (S::Pass, Result<(), Fault>)
    requires shared { IsShared S.sees S.numbers S.stays }
    requires sites { S.sites store ≡ plan.sites }
    requires parts { S.parts store ≡ plan.parts }
    requires least { 1 ≤ first }
    requires most { first ≤ plan.clients + 1 }
    requires counters { C.has kind.CounterPn ≡ true }
    requires names { C.has kind.SetAw ≡ true }
    requires seen { HasSeen S.sees S.numbers store pass }
    ensures keeps { (n : ℕ) → S.numbers pass n ≡ true → S.numbers result.0 n ≡ true }
    ensures least { (k : ℕ) → IsLeast (S.numbers pass) k → IsLeast (S.numbers result.0) k }
    ensures ok { IfOk result.1 (λ u. HasCrowd S.sees S.numbers store pass result.0 plan first) }
    ensures err { IfErr result.1 (λ fault. IsStopped S.sees S.numbers store result.0 fault) }
{
    if first > plan.clients {
        return (pass, Ok(()));
    }
    let (rest, own) = match part(store, pass) {
        Ok(both) => both,
        Err(pass) => return (pass, Err(Fault::NoMemory)),
    };
    let (own, one) = run_client(alloc, store, &plan, gate, clock, own, first);
    let (rest, others) = run_clients(alloc, store, plan, gate, clock, rest, first + 1);
    let pass = bring(store, rest, own);
    (pass, either(one, others))
}
