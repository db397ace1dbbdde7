ghost use Rattle.std.specs.Prelude.{◌≡◌, [], IfOk};
ghost use Rattle.std.specs.Ordering.{is_lt};
ghost use Rattle.crdt_meanings.specs.Later.{stamped_cmp};
ghost use Rattle.crdt_meanings.specs.RegisterMeaning.{text_of};

use crate::{Assigned, Stamped};
use crdt_core::Act;
use field_codec::Text;
use site_vector::Dot;
use std::alloc::{AllocError, Global};

/// Whether an assign comes before this one.
pub fn is_before(assigned: &Assigned, dot: Dot, other: &Stamped) -> bool
    ensures { result ≡ is_lt (stamped_cmp (record { stamp = assigned.now.stamp; dot = dot; text = assigned.now.text }) other.now) }
{
    let by_text = assigned.text.cmp(&other.text);
    let by_dot = dot.cmp(&other.dot);
    let by_stamp = assigned.stamp.cmp(&other.stamp);
    by_stamp.then(by_dot.then(by_text)).is_lt()
}

/// The empty text.
///
/// # Errors
///
/// `AllocError` where memory runs out.
pub fn empty_text(alloc: Global) -> Result<Text, AllocError>
    ensures { IfOk result (λ t. t ≡ []) }
{
    match Text::of(alloc, "")? {
        Some(text) => Ok(text),
        None => unreachable!(),
    }
}

/// The text that an act assigns, the empty text where it assigns none.
///
/// # Errors
///
/// `AllocError` where memory runs out.
pub fn text_of(alloc: Global, act: &Act) -> Result<Text, AllocError>
    ensures { IfOk result (λ t. t ≡ text_of act.now) }
{
    match act {
        Act::Assign(text) => text.copy(alloc),
        _ => empty_text(alloc),
    }
}
