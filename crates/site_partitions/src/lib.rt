//! The partitions of all sites, each with its log on a disk of its own. What they stand for together is a run of the
//! world: each call of a partition that its rules allow is one more event of it, and so are crashes and restarts.
#![tactic(auto)]

mod calls;
mod fates;
mod faults;
mod make;
mod sites;

pub use fates::Waiting;
pub use make::MakeError;
pub use sites::Sites;
