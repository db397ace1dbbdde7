//! A log of byte strings on a disk, in which a record counts once its gate is open.
#![tactic(auto)]

mod append;
mod empty;
mod error;
mod laws;
mod log;
mod payloads;
mod scan;

pub use append::{read_durable, write_record};
pub use empty::format;
pub use error::{AppendError, OpenError};
pub use laws::{law_at_rest, law_log, law_opening};
pub use log::GateLog;
pub use payloads::Payloads;
pub use scan::{find_gate_from, whole_payload};
