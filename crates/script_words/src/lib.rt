//! What the spellings of scripts and of replies have in common: bare words, texts in quotes that stand for themselves, and
//! the names of the kinds.
#![tactic(auto)]

mod bare;
mod kinds;
mod plain;

pub use bare::{is_bare, is_bare_byte, spells};
pub use kinds::{kind_name, kind_named, law_kind_names};
pub use plain::is_plain;
