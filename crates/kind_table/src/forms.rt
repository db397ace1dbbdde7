// Fields that are stored or sent: what stands at a place, put again.
ghost use Rattle.std.specs.Prelude.{◌≤◌, length, IfOk};

use crate::words::put_refusal;
use crdt_any::Any;
use crdt_core::{
    DotForm, put_dots, put_kind, put_object, put_tx, put_vector, take_dots, take_kind, take_object,
    take_tx, take_vector,
};
use field_codec::{
    Form, TakeError, TextForm, put_list, put_u8, put_u16, put_u32, put_u64, put_whole, take_list,
    take_u8, take_u16, take_u32, take_u64,
};
use std::alloc::{AllocError, Global};

/// The value of a form at a place is put again. Gives the place after it.
fn again<F: Form>(
    form: &F,
    alloc: Global,
    out: &mut Vec<u8>,
    bytes: &[u8],
    at: usize,
) -> Result<usize, TakeError>
    ensures { IfOk result (λ end. end ≤ length bytes.now) }
{
    let (value, end) = form.take(alloc, bytes, at)?;
    put_whole(form, out, &value)?;
    Ok(end)
}

/// The list at a place is put again.
fn list_again<F: Form>(
    form: &F,
    alloc: Global,
    out: &mut Vec<u8>,
    bytes: &[u8],
    at: usize,
) -> Result<usize, TakeError>
    ensures { IfOk result (λ end. end ≤ length bytes.now) }
{
    let (list, end) = take_list(form, alloc, bytes, at)?;
    put_list(form, out, list.as_slice())?;
    Ok(end)
}

/// The number at a place is put again.
fn number_again(name: &str, out: &mut Vec<u8>, bytes: &[u8], at: usize) -> Result<usize, TakeError>
    ensures { IfOk result (λ end. end ≤ length bytes.now) }
{
    match name {
        "u8" => {
            let (n, end) = take_u8(bytes, at)?;
            put_u8(out, n)?;
            Ok(end)
        }
        "u16" => {
            let (n, end) = take_u16(bytes, at)?;
            put_u16(out, n)?;
            Ok(end)
        }
        "u32" => {
            let (n, end) = take_u32(bytes, at)?;
            put_u32(out, n)?;
            Ok(end)
        }
        _ => {
            let (n, end) = take_u64(bytes, at)?;
            put_u64(out, n)?;
            Ok(end)
        }
    }
}

fn tx_again(out: &mut Vec<u8>, bytes: &[u8], at: usize) -> Result<usize, TakeError>
    ensures { IfOk result (λ end. end ≤ length bytes.now) }
{
    let (tx, end) = take_tx(bytes, at)?;
    put_tx(out, tx)?;
    Ok(end)
}

fn dots_again(alloc: Global, out: &mut Vec<u8>, bytes: &[u8], at: usize) -> Result<usize, TakeError>
    ensures { IfOk result (λ end. end ≤ length bytes.now) }
{
    let (dots, end) = take_dots(alloc, bytes, at)?;
    put_dots(out, &dots)?;
    Ok(end)
}

fn vector_again(out: &mut Vec<u8>, bytes: &[u8], at: usize) -> Result<usize, TakeError>
    ensures { IfOk result (λ end. end ≤ length bytes.now) }
{
    let (v, end) = take_vector(bytes, at)?;
    put_vector(out, &v)?;
    Ok(end)
}

fn kind_again(out: &mut Vec<u8>, bytes: &[u8], at: usize) -> Result<usize, TakeError>
    ensures { IfOk result (λ end. end ≤ length bytes.now) }
{
    let (kind, end) = take_kind(bytes, at)?;
    put_kind(out, kind)?;
    Ok(end)
}

fn object_again(
    alloc: Global,
    out: &mut Vec<u8>,
    bytes: &[u8],
    at: usize,
) -> Result<usize, TakeError>
    ensures { IfOk result (λ end. end ≤ length bytes.now) }
{
    let (object, end) = take_object::<Any>(alloc, bytes, at)?;
    put_object(out, &object)?;
    Ok(end)
}

/// The vector, kind or object at a place is put again.
fn other_again(
    name: &str,
    alloc: Global,
    out: &mut Vec<u8>,
    bytes: &[u8],
    at: usize,
) -> Result<usize, TakeError>
    ensures { IfOk result (λ end. end ≤ length bytes.now) }
{
    match name {
        "vector" => vector_again(out, bytes, at),
        "kind" => kind_again(out, bytes, at),
        "object" => object_again(alloc, out, bytes, at),
        _ => number_again(name, out, bytes, at),
    }
}

/// What stands at a place in the form of this name is put again.
fn named_again(
    name: &str,
    alloc: Global,
    out: &mut Vec<u8>,
    bytes: &[u8],
    at: usize,
) -> Result<usize, TakeError>
    ensures { IfOk result (λ end. end ≤ length bytes.now) }
{
    match name {
        "text" => again(&TextForm, alloc, out, bytes, at),
        "texts" => list_again(&TextForm, alloc, out, bytes, at),
        "dot" => again(&DotForm, alloc, out, bytes, at),
        "tx" => tx_again(out, bytes, at),
        "dots" => dots_again(alloc, out, bytes, at),
        _ => other_again(name, alloc, out, bytes, at),
    }
}

/// Answers `form NAME AT BYTES`: where what stands there ends, and whether it is put as the same bytes.
pub(crate) fn answer(
    alloc: Global,
    out: &mut String,
    name: &str,
    at: usize,
    bytes: &[u8],
) -> Result<(), AllocError> {
    let mut put = Vec::new(alloc);
    match named_again(name, alloc, &mut put, bytes, at) {
        Ok(end) => {
            let same = bytes[..end].ends_with(put.as_slice());
            write!(out, "up to {end}, put as the same: {same}")?;
        }
        Err(error) => put_refusal(out, error)?,
    }
    out.push_str("\n")
}
