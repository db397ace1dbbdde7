//! A partition's log: a list of records on a disk.
#![tactic(auto)]

mod append;
mod laws;
mod log;
mod opening;
mod payload;

pub use laws::{law_fronts, law_part_log, law_sizes};
pub use log::PartLog;
pub use opening::record_at;
