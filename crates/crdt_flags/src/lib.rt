//! Flags: one that is on where an enable wins, and one that is off where a disable wins.
#![tactic(auto)]

mod effect;
mod effect_form;
mod flag_of;

pub use crdt_meanings::FlagEffect;
pub use flag_of::{FlagDw, FlagEw, FlagOf};
