ghost use Rattle.std.specs.Prelude.{◌≡◌, ◌≤◌, ◌++◌, ◌&&◌, true, length, OnOk, OnErr, IfOk};
ghost use Rattle.field_codec.specs.Spelling.{Keeps, is_text};
ghost use Rattle.field_codec.specs.Reading.{Gives};
ghost use Rattle.crdt_core.specs.Spelled.{object, object_at};

use crate::{Crdt, ObjectId, put_kind, take_kind};
use field_codec::{TakeError, put_text, take_text};
use std::alloc::{AllocError, Global};

/// Appends the bucket, the key and the code of the kind.
///
/// # Errors
///
/// `AllocError` where memory runs out. `out` is as before then.
pub fn put_object(out: &mut Vec<u8>, o: &ObjectId) -> Result<(), AllocError>
    ensures texts { OnOk result ((is_text o.now.bucket && is_text o.now.key) ≡ true) }
    ensures ok { OnOk result (out.new.items ≡ out.old.items ++ object o.now) }
    ensures err { OnErr result (out.new.items ≡ out.old.items) }
{
    let start = out.len();
    let put = put_parts(out, o);
    if put.is_err() {
        out.truncate(start);
    }
    put
}

fn put_parts(out: &mut Vec<u8>, o: &ObjectId) -> Result<(), AllocError>
    ensures texts { OnOk result ((is_text o.now.bucket && is_text o.now.key) ≡ true) }
    ensures ok { OnOk result (out.new.items ≡ out.old.items ++ object o.now) }
    ensures err { OnErr result (Keeps out.old.items out.new.items) }
{
    put_text(out, &o.bucket)?;
    put_text(out, &o.key)?;
    put_kind(out, o.kind)?;
    Ok(())
}

/// The object at a place, of a kind that the type has, and the place after it.
///
/// # Errors
///
/// The first field that fails: `Short` where it is cut off, `Bad` where it is whole. The code of a kind
/// that the type lacks is `Bad`.
#[tactic(auto, unfolding(crate::specs::Spelled::object_at))]
pub fn take_object<C: Crdt>(
    alloc: Global,
    bytes: &[u8],
    at: usize,
) -> Result<(ObjectId, usize), TakeError>
    ensures answer { Gives result (object_at C.has bytes.now at) }
    ensures within { IfOk result (λ x. x.1 ≤ length bytes.now) }
{
    let (bucket, key_at) = take_text(alloc, bytes, at)?;
    let (key, kind_at) = take_text(alloc, bytes, key_at)?;
    let (kind, end) = take_kind(bytes, kind_at)?;
    if !C::has(kind) {
        return Err(TakeError::Bad { at: kind_at });
    }
    Ok((ObjectId { bucket, key, kind }, end))
}
