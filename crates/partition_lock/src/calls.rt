// The calls of a partition, each as a value: what it asks, and which event each answer tells.
mod clock;
mod reads;
mod streams;
mod votes;

pub(crate) use clock::{Begin, Tick};
pub(crate) use reads::{Read, Update};
pub(crate) use streams::{Hear, Report, Take};
pub(crate) use votes::{AbortOwn, Decide, Finish, Prepare};
