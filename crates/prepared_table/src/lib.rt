//! What a partition has prepared and not ended, and the clock that it shows under a lease.
#![tactic(auto)]

mod digest;
mod entry;
mod finding;
mod leased;
mod placing;
mod prepared;

pub use entry::Entry;
pub use leased::Leased;
pub use prepared::Prepared;
