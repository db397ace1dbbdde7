//! Places, transactions, and vectors of times with one entry per site (the vectors of Cure).
#![tactic(auto)]

mod ids;
mod laws;
mod vector;

pub use ids::{Dot, PartId, TxId};
pub use laws::{law_ids, law_lattice, law_order};
pub use vector::VTime;
