//! A log of byte strings on a disk, as a compact image and a tail of records, whose list one crash-safe step replaces.
#![tactic(auto)]

mod area;
mod empty;
mod error;
mod laws;
mod log;
mod payloads;
mod replace;
mod scan;
mod spot;

pub use empty::format;
pub use error::SwitchError;
pub use gate_log::{AppendError, OpenError};
pub use laws::{law_at_rest, law_opening, law_twin_log};
pub use log::TwinLog;
pub use payloads::Payloads;
