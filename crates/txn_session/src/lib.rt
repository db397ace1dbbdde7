//! Sessions over a store: a client's transactions, the snapshot that each begins with, and what the client depends on (Cure).
#![tactic(auto)]

mod chosen;
mod clock;
mod draft;
mod error;
mod phase;
mod session;
mod store;
mod waits;

pub use clock::{Clock, ListClock, SystemClock};
pub use error::SessionError;
pub use phase::Phase;
pub use session::Session;
pub use store::Store;
