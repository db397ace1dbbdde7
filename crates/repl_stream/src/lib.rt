//! Messages between partitions: what is cut off that has arrived, and what is kept under numbers until it is dropped.
#![tactic(auto)]

mod cutting;
mod error;
mod outbox;

pub use cutting::cut_at;
pub use error::KeepError;
pub use outbox::Outbox;
