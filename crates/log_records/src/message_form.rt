ghost use Rattle.std.specs.Prelude.{◌≡◌, ◌≤◌, ◌++◌, true, length, OnOk, OnErr, IfOk};
ghost use Rattle.field_codec.specs.Spelling.{Keeps};
ghost use Rattle.field_codec.specs.Reading.{Gives};
ghost use Rattle.log_records.specs.Messages.{can_put_message, is_message_spelled, message as message_bytes, message_at, batch_at};

use crate::head::{Head, put_head, take_head};
use crate::part_form::{put_parts, take_parts, take_some_parts};
use crdt_core::{Crdt, Message, Part};
use field_codec::{ListOf, TakeError};
use std::alloc::{AllocError, Global};

/// Appends the bytes of a message.
///
/// # Errors
///
/// `AllocError` where memory runs out, or where a list has 2^32 members or more. `out` is as before then.
pub fn put_message<C: Crdt>(
    out: &mut Vec<u8>,
    message: &Message<C::Effect>,
) -> Result<(), AllocError>
    requires { can_put_message C.has C.is_of C.can_put message.now ≡ true }
    ensures spelled { OnOk result (is_message_spelled C.has C.is_of C.is_spelled message.now ≡ true) }
    ensures ok { OnOk result (out.new.items ≡ out.old.items ++ message_bytes C.spelling message.now) }
    ensures err { OnErr result (out.new.items ≡ out.old.items) }
{
    let start = out.len();
    let put = put_fields::<C>(out, message);
    if put.is_err() {
        out.truncate(start);
    }
    put
}

/// The same; where it fails, what `out` held is at its front.
pub(crate) fn put_fields<C: Crdt>(
    out: &mut Vec<u8>,
    message: &Message<C::Effect>,
) -> Result<(), AllocError>
    requires { can_put_message C.has C.is_of C.can_put message.now ≡ true }
    ensures spelled { OnOk result (is_message_spelled C.has C.is_of C.is_spelled message.now ≡ true) }
    ensures ok { OnOk result (out.new.items ≡ out.old.items ++ message_bytes C.spelling message.now) }
    ensures err { OnErr result (Keeps out.old.items out.new.items) }
{
    let head = Head {
        from: message.from,
        to: message.to,
        part: message.part,
        lo: message.lo,
        hi: message.hi,
    };
    put_head(out, head)?;
    put_parts::<C>(out, message.from, &message.parts)
}

/// The message at a place, and the place after it. It can be put.
///
/// # Errors
///
/// The first field that fails: `Short` where it is cut off, `Bad` where it is whole and the grammar refuses it. A part
/// or an update that isn't above the one before it is `Bad` at its own first byte, once it is read; the count of no
/// update is `Bad`. `NoMemory` where memory runs out.
#[tactic(auto, unfolding(crate::specs::Messages::message_at))]
pub fn take_message<C: Crdt>(
    alloc: Global,
    bytes: &[u8],
    at: usize,
) -> Result<(Message<C::Effect>, usize), TakeError>
    ensures answer { Gives result (message_at C.has C.reading bytes.now at) }
    ensures fit { IfOk result (λ x. can_put_message C.has C.is_of C.can_put x.0 ≡ true) }
    ensures within { IfOk result (λ x. x.1 ≤ length bytes.now) }
{
    let (head, parts_at) = take_head(bytes, at)?;
    let (parts, end) = take_parts::<C>(alloc, head.from, bytes, parts_at)?;
    let message = Message {
        from: head.from,
        to: head.to,
        part: head.part,
        lo: head.lo,
        hi: head.hi,
        parts,
    };
    Ok((message, end))
}

/// The message of a Batch at a place, and the place after it.
///
/// # Errors
///
/// As `take_message`. The count of no part is `Bad`.
#[tactic(auto, unfolding(crate::specs::Messages::batch_at))]
pub(crate) fn take_batch<C: Crdt>(
    alloc: Global,
    bytes: &[u8],
    at: usize,
) -> Result<(Message<C::Effect>, usize), TakeError>
    ensures answer { Gives result (batch_at C.has C.reading bytes.now at) }
    ensures within { IfOk result (λ x. x.1 ≤ length bytes.now) }
{
    let (head, parts_at) = take_head(bytes, at)?;
    let (parts, end) = take_some_parts::<C>(alloc, head.from, bytes, parts_at)?;
    let message = Message {
        from: head.from,
        to: head.to,
        part: head.part,
        lo: head.lo,
        hi: head.hi,
        parts,
    };
    Ok((message, end))
}
