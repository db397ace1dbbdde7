//! Registers: one that the last writer wins, and one that keeps the texts of concurrent assigns.
#![tactic(auto)]

mod assigned;
mod lww_form;
mod mv_effect;
mod mv_form;
mod register_lww;
mod register_mv;
mod texts;

pub use crdt_meanings::{Assigned, MvEffect, Stamped};
pub use register_lww::RegisterLww;
pub use register_mv::RegisterMv;
