ghost use Rattle.std.specs.Prelude.{◌≡◌, ℕ, true, List, [], IfOk, IfErr, OnOk};
ghost use Rattle.txn_session.specs.Passes.{IsShared};
ghost use Rattle.txn_session.specs.Session.{Idle, is_open};
ghost use Rattle.client_pool.specs.Coming.{IsSession, Ready, Came, IsStopped};
ghost use Rattle.client_pool.specs.Commits.{committing};
ghost use Rattle.txn_session.specs.Holds.{next_of};
ghost use Rattle.txn_session.specs.Opens.{begun_end};
ghost use Rattle.world_model.specs.declared.commit.What.TheVariants as what;

use crate::{Fault, Gate, Progress, Turns, progress_of};
use crdt_core::Crdt;
use site_vector::PartId;
use txn_session::{Clock, Session, Store};

/// Commits the session's open transaction: each step is asked again while its answer is a wait, or want of time or room.
///
/// # Errors
///
/// `Down` where a participant stopped; `NoMemory` where memory runs out.
pub fn commit<C: Crdt, S: Store<C> + Copy, G: Gate, K: Clock>(
    store: S,
    clock: &K,
    turns: &mut Turns<'_, G>,
    session: &mut Session<C>,
    pass: S::Pass,
) -> (S::Pass, Result<(), Fault>)
    requires shared { IsShared S.sees S.numbers S.stays }
    requires sites { S.sites store ≡ session.old.sites }
    requires parts { S.parts store ≡ session.old.parts }
    requires open { is_open session.old.doing ≡ true }
    requires ready { Ready S.sees S.numbers store pass session.old }
    ensures same { (n : ℕ) → S.numbers result.0 n ≡ S.numbers pass n }
    ensures named { OnOk result.1 (IsSession session.old session.new) }
    ensures idle { OnOk result.1 (session.new.doing ≡ Idle) }
    ensures ok { IfOk result.1 (λ u. Came S.sees S.numbers store pass session.old result.0 session.new (committing session.old session.old.doing)) }
    ensures err { IfErr result.1 (λ fault. IsStopped S.sees S.numbers store result.0 fault) }
{
    let mut store = store;
    let mut pass = pass;
    for _ in 0..u64::MAX {
        let part = match session.next_part() {
            Some(part) => part,
            None => return end(store, clock, session, pass),
        };
        turns.next();
        let (next, answer) = session.commit_step_wait(&mut store, pass, clock);
        pass = next;
        match progress_of(answer) {
            Progress::On => {}
            Progress::Stopped => {
                let site = session.site();
                return (pass, Err(Fault::Down(PartId { site, part })));
            }
            Progress::NoMemory => return (pass, Err(Fault::NoMemory)),
        }
    }
    (pass, Err(Fault::NoMemory))
}

/// Ends a transaction of which no step is left.
fn end<C: Crdt, S: Store<C> + Copy, K: Clock>(
    store: S,
    clock: &K,
    session: &mut Session<C>,
    pass: S::Pass,
) -> (S::Pass, Result<(), Fault>)
    requires shared { IsShared S.sees S.numbers S.stays }
    requires sites { S.sites store ≡ session.old.sites }
    requires parts { S.parts store ≡ session.old.parts }
    requires next { next_of (begun_end session.old).doing ≡ what.Done }
    requires ready { Ready S.sees S.numbers store pass session.old }
    ensures same { (n : ℕ) → S.numbers result.0 n ≡ S.numbers pass n }
    ensures named { OnOk result.1 (IsSession session.old session.new) }
    ensures idle { OnOk result.1 (session.new.doing ≡ Idle) }
    ensures ok { IfOk result.1 (λ u. Came S.sees S.numbers store pass session.old result.0 session.new []) }
    ensures err { IfErr result.1 (λ fault. fault ≡ Fault.NoMemory) }
{
    let mut store = store;
    let (pass, answer) = session.commit_step_wait(&mut store, pass, clock);
    match progress_of(answer) {
        Progress::NoMemory => (pass, Err(Fault::NoMemory)),
        _ => (pass, Ok(())),
    }
}
