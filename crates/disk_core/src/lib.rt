//! A disk: what a read gives, what a crash may leave of it at every moment, and its faults. With two disks in memory and
//! one that fails where it is told to.
#![tactic(auto)]

mod calls;
mod disk;
mod fuse;
mod fused;
mod laws;
mod medium;
mod memory;
mod sure;
mod trail;

pub use calls::Calls;
pub use disk::{Disk, Failed};
pub use fused::Fused;
pub use laws::{law_images, law_moments};
pub use memory::MemDisk;
pub use sure::SureDisk;
