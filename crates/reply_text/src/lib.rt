//! The text of a reply line.
#![tactic(auto)]

mod as_json;
mod bytes;
mod escaped;
mod member;
mod quoted;
mod restarted;
mod shapes;
mod step;
mod value;
mod words;

pub use as_json::json_line;
pub use step::line;
