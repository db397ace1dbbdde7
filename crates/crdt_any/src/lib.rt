//! All kinds in one type, with maps to the fourth depth.
#![tactic(auto)]

mod effect;
mod generate;
mod inner;
mod laws;
mod layer;
mod nothing;
mod simple;
mod simple_effect;
mod simple_generate;
mod simple_state;
mod state;

pub use effect::LayerEffect;
pub use laws::{law_any, law_meanings, law_types};
pub use layer::Layer;
pub use nothing::Nothing;
pub use simple::Simple;
pub use simple_effect::SimpleEffect;
pub use simple_state::SimpleState;
pub use state::LayerState;

/// Kinds whose maps have no fields.
pub type One = Layer<Nothing>;

/// Kinds whose maps have fields of the kinds of `One`.
pub type Two = Layer<One>;

/// Kinds whose maps have fields of the kinds of `Two`.
pub type Three = Layer<Two>;

/// The kinds of objects: a path in them has at most three fields.
pub type Any = Layer<Three>;
