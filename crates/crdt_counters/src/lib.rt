//! Counters: one whose updates stay, and one whose updates a reset undoes.
#![tactic(auto)]

mod amount_form;
mod amounts;
mod counter_fat;
mod counter_pn;
mod exact;
mod fat_form;
mod summed;

pub use amounts::amount_of;
pub use counter_fat::CounterFat;
pub use counter_pn::CounterPn;
pub use crdt_meanings::FatEffect;
pub use exact::law_exact_sums;
pub use summed::Summed;
