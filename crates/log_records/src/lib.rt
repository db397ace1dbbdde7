//! Messages, and the records of a partition's log, as bytes.
#![tactic(auto)]

mod error;
mod head;
mod laws;
mod lease;
mod message_form;
mod part_form;
mod record;
mod record_form;
mod short;
mod update_form;

pub use error::RecordError;
pub use laws::{law_messages, law_records};
pub use lease::lease_of;
pub use message_form::{put_message, take_message};
pub use record::{put, put_batch, take};
pub use short::Short;
