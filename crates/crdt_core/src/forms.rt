ghost use Rattle.std.specs.Prelude.{◌≡◌, ◌≤◌, ◌++◌, true, length, OnOk, OnErr, IfOk};
ghost use Rattle.field_codec.specs.Reading.{Gives};
ghost use Rattle.crdt_core.specs.Spelled.{between_at, is_tx, tx as tx_spelling, tx_at, is_dot, dot as dot_spelling, dot_at, kind as kind_spelling, kind_at};

use crate::Kind;
use field_codec::{TakeError, put_u8, take_u8, take_u16, take_u64};
use site_vector::{Dot, TxId};
use std::alloc::AllocError;

/// The most time that a transaction has.
const MOST_TIME: u64 = 1 << 62;

/// The most updates of a transaction.
const MOST_INDEX: u16 = 256;

/// Appends the site, the partition and the time.
///
/// # Errors
///
/// `AllocError` where memory runs out. `out` is as before then.
pub fn put_tx(out: &mut Vec<u8>, tx: TxId) -> Result<(), AllocError>
    requires { is_tx tx ≡ true }
    ensures ok { OnOk result (out.new.items ≡ out.old.items ++ tx_spelling tx) }
    ensures err { OnErr result (out.new.items ≡ out.old.items) }
{
    let t = tx.time.to_be_bytes();
    out.extend_from_slice(&[
        tx.site, tx.part, t[0], t[1], t[2], t[3], t[4], t[5], t[6], t[7],
    ])
}

/// The transaction at a place, and the place after it.
///
/// # Errors
///
/// The first field that fails: `Short` where it is cut off, `Bad` where it is whole and out of its
/// bounds: a site of 1 to 8, a partition of 1 to 16, a time of at most 2^62.
#[tactic(auto, unfolding(crate::specs::Spelled::tx_at))]
pub fn take_tx(bytes: &[u8], at: usize) -> Result<(TxId, usize), TakeError>
    ensures answer { result ≡ tx_at bytes.now at }
    ensures within { IfOk result (λ x. x.1 ≤ length bytes.now) }
{
    let (site, part_at) = take_small(bytes, at, 1, 8)?;
    let (part, time_at) = take_small(bytes, part_at, 1, 16)?;
    let (time, end) = take_u64(bytes, time_at)?;
    if time > MOST_TIME {
        return Err(TakeError::Bad { at: time_at });
    }
    Ok((TxId { site, part, time }, end))
}

/// Appends the transaction and the number.
///
/// # Errors
///
/// `AllocError` where memory runs out. `out` is as before then.
pub fn put_dot(out: &mut Vec<u8>, dot: Dot) -> Result<(), AllocError>
    requires { is_dot dot ≡ true }
    ensures ok { OnOk result (out.new.items ≡ out.old.items ++ dot_spelling dot) }
    ensures err { OnErr result (out.new.items ≡ out.old.items) }
{
    let t = dot.tx.time.to_be_bytes();
    let n = dot.index.to_be_bytes();
    out.extend_from_slice(&[
        dot.tx.site,
        dot.tx.part,
        t[0],
        t[1],
        t[2],
        t[3],
        t[4],
        t[5],
        t[6],
        t[7],
        n[0],
        n[1],
    ])
}

/// The update at a place, and the place after it.
///
/// # Errors
///
/// The first field that fails: `Short` where it is cut off, `Bad` where it is whole and out of its
/// bounds: those of the transaction, and a number of 1 to 256.
#[tactic(auto, unfolding(crate::specs::Spelled::dot_at))]
pub fn take_dot(bytes: &[u8], at: usize) -> Result<(Dot, usize), TakeError>
    ensures answer { result ≡ dot_at bytes.now at }
    ensures within { IfOk result (λ x. x.1 ≤ length bytes.now) }
{
    let (tx, index_at) = take_tx(bytes, at)?;
    let (index, end) = take_u16(bytes, index_at)?;
    if index < 1 || index > MOST_INDEX {
        return Err(TakeError::Bad { at: index_at });
    }
    Ok((Dot { tx, index }, end))
}

/// Appends the code of the kind.
///
/// # Errors
///
/// `AllocError` where memory runs out. `out` is as before then.
pub fn put_kind(out: &mut Vec<u8>, kind: Kind) -> Result<(), AllocError>
    ensures ok { OnOk result (out.new.items ≡ out.old.items ++ kind_spelling kind) }
    ensures err { OnErr result (out.new.items ≡ out.old.items) }
{
    put_u8(out, kind.code())
}

/// The kind whose code is at a place, and the place after it.
///
/// # Errors
///
/// At the place: `Short` where the bytes end there, `Bad` where the code isn't one from 1 to 11.
pub fn take_kind(bytes: &[u8], at: usize) -> Result<(Kind, usize), TakeError>
    ensures answer { result ≡ kind_at bytes.now at }
    ensures within { IfOk result (λ x. x.1 ≤ length bytes.now) }
{
    let (code, end) = take_u8(bytes, at)?;
    match Kind::of_code(code) {
        Some(kind) => Ok((kind, end)),
        None => Err(TakeError::Bad { at }),
    }
}

/// A number of one byte within bounds, and the place after it.
///
/// # Errors
///
/// At the place: `Short` where the bytes end there, `Bad` where the number is out of its bounds.
pub fn take_small(bytes: &[u8], at: usize, least: u8, most: u8) -> Result<(u8, usize), TakeError>
    ensures answer { result ≡ between_at 1 least most bytes.now at }
    ensures within { IfOk result (λ x. x.1 ≤ length bytes.now) }
    ensures low { IfOk result (λ x. least ≤ x.0) }
    ensures high { IfOk result (λ x. x.0 ≤ most) }
{
    let (n, end) = take_u8(bytes, at)?;
    if n < least || n > most {
        return Err(TakeError::Bad { at });
    }
    Ok((n, end))
}
