//! Sets: one that only grows, one where adds win, and one where removes win.
#![tactic(auto)]

mod effect;
mod effect_form;
mod elements;
mod named_form;
mod set_go;
mod set_of;
mod texts;

pub use crdt_meanings::{Named, SetEffect};
pub use elements::Elements;
pub use set_go::SetGo;
pub use set_of::{SetAw, SetOf, SetRw};
pub use texts::TextSet;
