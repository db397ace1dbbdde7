//! The updates that a partition holds, with indices for reading them.
#![tactic(auto)]

mod commits;
mod fold;
mod hooks;
mod links;
mod newest;
mod reads;
mod store;
mod tags;
mod updates;

pub use commits::Parts;
pub use store::Store;
pub use updates::Updates;
