//! What the clients of a storm do, and what it comes to.
#![tactic(auto)]

mod begin;
mod client;
mod commit;
mod crowd;
mod fault;
mod gate;
mod laws;
mod load;
mod outcome;
mod plan;
mod session;
mod summary;
mod tick;
mod transaction;
mod work;

pub use client::run_client;
pub use crowd::run_clients;
pub use fault::Fault;
pub use gate::{Gate, HoldGate, OpenGate, Turns};
pub use laws::{law_closed_form, law_names};
pub use load::{
    addition, clients, counter, counter_of, decrement, first_part, increment, next_counter,
    session_name, site_of,
};
pub use outcome::{Outcome, Progress, Reply, outcome_of, progress_of, told};
pub use plan::Plan;
pub use summary::{SiteSum, Summary};
pub use work::{Work, work_of};
