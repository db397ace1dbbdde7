// What bench/recovery measures.
use crate::answers::Failure;
use crate::call::Call;
use crate::place::{MOST_ROOM, Place};
use std::alloc::Global;

/// A transaction that adds one to the counter, from its begin to the decision.
fn commit(place: &mut Place) -> Result<(), Failure> {
    let begun = place.ask(Call::Begin)?;
    let time = place.ask(Call::Prepare {
        begun,
        amount: 1,
        lead: 0,
    })?;
    place.ask(Call::Decide { begun, time })?;
    Ok(())
}

/// So many transactions one after another.
fn commit_all(place: &mut Place, transactions: u64) -> Result<(), Failure> {
    for _number in 0..transactions {
        commit(place)?;
    }
    Ok(())
}

/// So many transactions, and so many restarts. Answers what the counter shows then.
fn run_at(place: &mut Place, transactions: u64, restarts: u64) -> Result<i128, Failure> {
    commit_all(place, transactions)?;
    for _number in 0..restarts {
        let _up = place.restart()?;
    }
    let s = place.report()?;
    place.read(&s)
}

/// The same at one partition over a new disk.
pub(crate) fn run(alloc: Global, transactions: u64, restarts: u64) -> Result<i128, Failure> {
    let mut place = Place::new(alloc, 1, MOST_ROOM)?;
    run_at(&mut place, transactions, restarts)
}
