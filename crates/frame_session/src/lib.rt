//! Frames out of bytes that come in any pieces.
#![tactic(auto)]

mod cut;
mod frames;
mod laws;

pub use frames::Frames;
pub use laws::{law_frames, law_pieces};
