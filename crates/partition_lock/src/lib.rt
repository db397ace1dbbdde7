//! Partitions under locks, which many threads call. Each partition lies with the seat of its trace's writer under a lock; a
//! call joins the caller's pass into that seat, makes the partition's step, notes it, and hands the pass back.
#![tactic(auto)]

mod answers;
mod ask;
mod calls;
mod close;
mod counter;
mod desk;
mod entry;
mod form;
mod hear;
mod law;
mod laws;
mod lines;
mod locked;
mod make;
mod meet;
mod naming;
mod note;
mod pass;
mod passes;
mod seats;
mod shared;
mod step;
mod table;
mod told;

pub use close::Ended;
pub use counter::Counter;
pub use desk::Desk;
pub use entry::Entry;
pub use law::WorldLaw;
pub use laws::{law_agreed, law_agrees};
pub use naming::Naming;
pub use pass::Pass;
pub use shared::Shared;
pub use table::open_table;
pub use told::{Asked, Cause, Done, Told};
