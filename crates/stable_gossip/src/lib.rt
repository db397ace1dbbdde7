//! What a partition has heard of how far the partitions of its site have come with each site.
#![tactic(auto)]

mod matrix;

pub use matrix::Matrix;
