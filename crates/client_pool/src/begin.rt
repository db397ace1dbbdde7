ghost use Rattle.std.specs.Prelude.{◌≡◌, ◌≤◌, ℕ, List, [], ◌∷◌, IfOk, IfErr};
ghost use Rattle.txn_session.specs.Passes.{IsShared};
ghost use Rattle.txn_session.specs.Session.{Idle};
ghost use Rattle.client_pool.specs.Coming.{Ready, IsStopped};
ghost use Rattle.client_pool.specs.Begins.{HasBegun};

use crate::{Fault, Gate, Reply, Turns, told};
use crdt_core::Crdt;
use site_vector::PartId;
use txn_session::{Session, Store};
use world_model::{Mode, Step};

/// Begins a transaction at this partition of the session's site, again while the answer is a wait, or want of time or room.
///
/// # Errors
///
/// `Down` where the partition stopped; `NoMemory` where memory runs out.
pub fn begin<C: Crdt, S: Store<C> + Copy, G: Gate>(
    store: S,
    turns: &mut Turns<'_, G>,
    session: &mut Session<C>,
    pass: S::Pass,
    part: u8,
) -> (S::Pass, Result<Step, Fault>)
    requires shared { IsShared S.sees S.numbers S.stays }
    requires sites { S.sites store ≡ session.old.sites }
    requires parts { S.parts store ≡ session.old.parts }
    requires least { 1 ≤ part }
    requires most { part ≤ session.old.parts }
    requires idle { session.old.doing ≡ Idle }
    requires ready { Ready S.sees S.numbers store pass session.old }
    ensures same { (n : ℕ) → S.numbers result.0 n ≡ S.numbers pass n }
    ensures ok { IfOk result.1 (λ line. HasBegun S.sees S.numbers store pass session.old result.0 session.new part) }
    ensures err { IfErr result.1 (λ fault. IsStopped S.sees S.numbers store result.0 fault) }
{
    let mut store = store;
    let mut pass = pass;
    for _ in 0..u64::MAX {
        turns.next();
        let (next, answer) = session.open(&mut store, pass, part, Mode::Fresh);
        pass = next;
        match told(answer) {
            Reply::Done(line) => return (pass, Ok(line)),
            Reply::Again => {}
            Reply::Stopped => {
                let site = session.site();
                return (pass, Err(Fault::Down(PartId { site, part })));
            }
            Reply::NoMemory => return (pass, Err(Fault::NoMemory)),
        }
    }
    (pass, Err(Fault::NoMemory))
}
