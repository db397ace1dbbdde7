//! The commands of a script and the steps that answer them: the model that a run of the store is checked against.
#![tactic(auto)]

mod command;
mod commit;
mod step;
mod threads;
mod world;

pub use command::{Command, Mode};
pub use commit::{Next, What};
pub use step::Step;
pub use threads::{law_calls, law_goes_on, law_grows, law_joins, law_merged};
pub use world::{law_asks, law_premises, law_traces, law_world};
