//! Texts and lists, the fields that everything stored or sent is made of.
#![tactic(auto)]

mod compare;
mod error;
mod form;
mod laws;
mod list;
mod members;
mod number;
mod text;

pub use error::TakeError;
pub use form::{Form, law_prefix_free, put_whole};
pub use laws::{law_fields, law_list, law_text_form};
pub use list::ListOf;
pub use members::{put_list, take_list};
pub use number::{put_u8, put_u16, put_u32, put_u64, take_u8, take_u16, take_u32, take_u64};
pub use text::{Text, TextForm, put_text, take_text};
