//! What the kinds mean: what their updates and states are, what each shows of a history, and the law that each keeps.
#![tactic(auto)]

mod counters;
mod flags;
mod laws;
mod maps;
mod registers;
mod sets;

pub use counters::FatEffect;
pub use flags::FlagEffect;
pub use laws::{law_acts, law_amounts, law_nothing, law_stamps};
pub use maps::{Boxed, MapEffect};
pub use registers::{Assigned, MvEffect, Stamped};
pub use sets::{Named, SetEffect};
