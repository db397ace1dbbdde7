//! What a partition's log tells when it is read again after a crash.
#![tactic(auto)]

mod condenser;
mod fitting;
mod laws;
mod ledger;
mod messages;
mod named;
mod recovery;
mod seen;
mod shared;
mod vectors;
mod waiting;

pub use condenser::condense;
pub use fitting::{ceiling_of, unfit};
pub use laws::{law_condense, law_fitting};
pub use recovery::{Rebuilt, Recovery, rebuild};
