ghost use Rattle.std.specs.Prelude.{◌≡◌, ◌≤◌, ℕ, List, [], ◌∷◌, IfOk, IfErr};
ghost use Rattle.crdt_core.specs.Log.{end_of_time};
ghost use Rattle.world_model.specs.lines.Places.{IsPlace};
ghost use Rattle.txn_session.specs.Passes.{IsShared};
ghost use Rattle.client_pool.specs.Coming.{Ready, Came, IsStopped};
ghost use Rattle.client_pool.specs.Deeds.{Ticks};

use crate::{Fault, Gate, Reply, Turns, told};
use crdt_core::Crdt;
use site_vector::PartId;
use txn_session::{Clock, Session, Store};
use world_model::Step;

/// The greatest reading of a clock that a partition is told.
const MOST_READING: u64 = (1 << 48) - 1;

/// What a partition is told of the clock.
pub fn reading_of<K: Clock>(clock: &K) -> u64
    ensures { result ≤ end_of_time }
{
    clock.reading().min(MOST_READING)
}

/// Ticks a partition with this reading, again where it has no room.
///
/// # Errors
///
/// `Down` where the partition stopped; `NoMemory` where memory runs out.
pub fn tick<C: Crdt, S: Store<C> + Copy, G: Gate>(
    store: S,
    turns: &mut Turns<'_, G>,
    session: &Session<C>,
    pass: S::Pass,
    at: PartId,
    reading: u64,
) -> (S::Pass, Result<Step, Fault>)
    requires shared { IsShared S.sees S.numbers S.stays }
    requires sites { S.sites store ≡ session.now.sites }
    requires parts { S.parts store ≡ session.now.parts }
    requires place { IsPlace session.now.sites session.now.parts at }
    requires reading { reading ≤ end_of_time }
    requires ready { Ready S.sees S.numbers store pass session.now }
    ensures same { (n : ℕ) → S.numbers result.0 n ≡ S.numbers pass n }
    ensures ok { IfOk result.1 (λ line. Came S.sees S.numbers store pass session.now result.0 session.now (Ticks at ∷ [])) }
    ensures err { IfErr result.1 (λ fault. IsStopped S.sees S.numbers store result.0 fault) }
{
    let mut store = store;
    let mut pass = pass;
    for _ in 0..u64::MAX {
        turns.next();
        let (next, answer) = store.tick(pass, at, reading);
        pass = next;
        match told(answer) {
            Reply::Done(line) => return (pass, Ok(line)),
            Reply::Again => {}
            Reply::Stopped => return (pass, Err(Fault::Down(at))),
            Reply::NoMemory => return (pass, Err(Fault::NoMemory)),
        }
    }
    (pass, Err(Fault::NoMemory))
}
