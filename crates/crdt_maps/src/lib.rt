//! Maps whose fields are of the kinds of an inner type: one whose fields stay, and one whose fields can be dropped.
#![tactic(auto)]

mod copies;
mod effect_form;
mod entry_form;
mod fields;
mod laws;
mod made;
mod map_of;
mod steps;
mod values;

pub use crdt_meanings::{Boxed, MapEffect};
pub use fields::Fields;
pub use laws::law_resets;
pub use map_of::{MapGo, MapOf, MapRr};
