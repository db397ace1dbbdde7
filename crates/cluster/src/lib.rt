//! A cluster with its sessions, and with the messages and reports between its partitions: it answers the commands of a
//! script. What its partitions stand for together is a run of the world, and each line of a partition is one more event
//! of it.
#![tactic(auto)]

mod begins;
mod by_name;
mod cluster;
mod commits;
mod fates;
mod faults;
mod live;
mod local;
mod post;
mod posts;
mod running;
mod store;
mod updates;

pub use cluster::Cluster;
