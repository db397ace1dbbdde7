//! What a script is read from, and what replies are written to.

pub(crate) mod edge;
pub(crate) mod memory;
pub(crate) mod sink;
pub(crate) mod source;
