//! A commit of a transaction, one step at a time: votes, the decision of the lead, and the ends at the others (Clock-SI).
#![tactic(auto)]

mod commit;
mod law;

pub use commit::Commit;
pub use law::law_commit;
