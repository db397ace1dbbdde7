// Effects as bytes.
ghost use Rattle.std.specs.Prelude.{◌≡◌, true};

use crate::kept::dot_of;
use crate::values::put_value;
use crate::words::{put_hex, put_refusal};
use crdt_core::{Crdt, Kind};
use std::alloc::{AllocError, Global};

/// Adds the bytes of an effect, and its stamp.
pub(crate) fn put_bytes<C: Crdt>(
    alloc: Global,
    out: &mut String,
    effect: &C::Effect,
) -> Result<Vec<u8>, AllocError>
    requires { C.can_put effect.now ≡ true }
{
    let mut bytes = Vec::new(alloc);
    C::put_effect(&mut bytes, effect)?;
    put_hex(out, bytes.as_slice())?;
    if let Some(stamp) = C::stamp(effect) {
        write!(out, ", stamp {stamp}")?;
    }
    Ok(bytes)
}

/// Adds what an object shows of which this is the only update.
fn put_shown<C: Crdt>(
    alloc: Global,
    out: &mut String,
    kind: Kind,
    effect: &C::Effect,
) -> Result<(), AllocError> {
    let mut state = C::empty(alloc, kind)?;
    C::apply(alloc, &mut state, dot_of(1, 0), effect)?;
    put_value(out, &C::value(alloc, &state)?)
}

/// Adds where an effect ends, whether it is put as the bytes up to there end, and what it shows.
fn put_again<C: Crdt>(
    alloc: Global,
    out: &mut String,
    kind: Kind,
    effect: &C::Effect,
    bytes: &[u8],
) -> Result<(), AllocError>
    requires { C.can_put effect.now ≡ true }
{
    write!(out, "up to {}, put as ", bytes.len())?;
    let again = put_bytes::<C>(alloc, out, effect)?;
    let same = bytes.ends_with(again.as_slice());
    write!(out, ", the same: {same}, shows ")?;
    put_shown::<C>(alloc, out, kind, effect)
}

/// What the bytes at a place are: the end of the effect, whether it is put as the same bytes, and what it shows.
pub(crate) fn taken<C: Crdt>(
    alloc: Global,
    kind: Kind,
    at: usize,
    bytes: &[u8],
) -> Result<String, AllocError>
    requires { C.has kind ≡ true }
{
    let mut out = String::new(alloc);
    match C::take_effect(alloc, kind, bytes, at) {
        Ok((effect, end)) => put_again::<C>(alloc, &mut out, kind, &effect, &bytes[..end])?,
        Err(error) => put_refusal(&mut out, error)?,
    }
    out.push_str("\n")?;
    Ok(out)
}
