//! The rule of seats: what threads know of the traces of partitions.
//!
//! A table has a word for each partition, the length of its trace, and a last word, which counts the numbers that callers
//! were given. What a seat has seen, the numbers that it holds and whose traces it writes are plain data, its view.
#![tactic(auto)]

mod appends;
mod draws;
mod joins;
mod looks;
mod numbers;
mod opens;
mod rule;
mod splits;
mod view;
mod world;

pub use appends::{Notes, append};
pub use draws::draw;
pub use joins::join;
pub use looks::look;
pub use numbers::look_at_numbers;
pub use opens::open;
pub use rule::{Law, Seat, Size, Traced, Traces};
pub use splits::{hand, split, split_writer};
pub use view::{Noted, Past, View};
pub use world::{law_seats, law_steps};
