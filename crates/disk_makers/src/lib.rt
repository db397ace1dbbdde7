//! Makers of disks: each disk that they make holds a log without a record, and goes back to them in the end.
#![tactic(auto)]

mod backing;
mod disks;
mod error;
mod file;
mod memory;
mod real;

pub use backing::{BackingFile, SystemFile};
pub use disks::Disks;
pub use error::MakeFault;
pub use file::FileDisk;
pub use memory::MemDisks;
pub use real::RealDisks;
