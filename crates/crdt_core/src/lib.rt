//! Objects, operations and values: what every kind of replicated data type is made of.
#![tactic(auto)]

mod copied;
mod crdt;
mod dot_forms;
mod dots;
mod error;
mod form_laws;
mod forms;
mod kept;
mod kind;
mod object;
mod object_forms;
mod operation;
mod placing;
mod record;
mod replay;
mod table;
mod updates;
mod value;
mod vector_forms;

pub use copied::Copied;
pub use crdt::Crdt;
pub use dot_forms::{DotForm, put_dots, take_dots};
pub use dots::Dots;
pub use error::GenError;
pub use form_laws::{law_effects, law_forms};
pub use forms::{put_dot, put_kind, put_tx, take_dot, take_kind, take_small, take_tx};
pub use kept::Kept;
pub use kind::Kind;
pub use object::{Field, ObjectId};
pub use object_forms::{put_object, take_object};
pub use operation::{Act, Op};
pub use placing::partition_of;
pub use record::{Message, Part, Record, Upd, copy_update, share_part};
pub use replay::{state_after, value_after};
pub use table::{fits, law_table, nests_in, reads_state};
pub use updates::UpdateList;
pub use value::Value;
pub use vector_forms::{put_vector, take_vector};
