ghost use Rattle.std.specs.Prelude.{◌≡◌, IfOk};
ghost use Rattle.client_pool.specs.Works.{work_of};

use crate::{Plan, addition, clients, counter, counter_of, decrement, increment, next_counter};
use crdt_core::{ObjectId, Op};
use std::alloc::{AllocError, Global};

/// What a transaction reads and updates.
#[derive(Debug, Drop)]
pub struct Work {
    /// The counter that it increments.
    pub first: ObjectId,
    /// The counter that it decrements.
    pub second: ObjectId,
    /// The clients' names.
    pub names: ObjectId,
    pub increment: Op,
    pub decrement: Op,
    pub addition: Op,
}

/// The work of a client's transaction.
///
/// # Errors
///
/// `AllocError` where memory runs out.
pub fn work_of(alloc: Global, plan: &Plan, client: u8, txn: u32) -> Result<Work, AllocError>
    ensures { IfOk result (λ work. work ≡ work_of plan.now client txn) }
{
    let m = counter_of(plan, client, txn);
    Ok(Work {
        first: counter(alloc, m)?,
        second: counter(alloc, next_counter(m))?,
        names: clients(alloc)?,
        increment: increment(alloc, m),
        decrement: decrement(alloc, m),
        addition: addition(alloc, client)?,
    })
}
