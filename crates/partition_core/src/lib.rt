//! One partition of a site: its clock, its pending transactions, what it holds, and what it knows of other sites. Each
//! call is a step of the world.
#![tactic(auto)]

mod answers;
mod begin;
mod clock;
mod commit;
mod durable;
mod durable_calls;
mod logging;
mod partition;
mod read;
mod recovered;
mod report;
mod restart;
mod stream;
mod told;

pub use answers::{CallError, Fate, Refusal};
pub use durable::{DurableError, DurablePartition};
pub(crate) use partition::Partition;
pub use restart::{RestartError, Restarted};
