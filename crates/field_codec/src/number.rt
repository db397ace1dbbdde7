ghost use Rattle.std.specs.Prelude.{◌≡◌, ◌≤◌, ◌++◌, length, OnOk, OnErr, IfOk};
ghost use Rattle.field_codec.specs.Spelling.{number};
ghost use Rattle.field_codec.specs.Reading.{number_at};

use crate::TakeError;
use byteorder::{BigEndian, ByteOrder};
use std::alloc::AllocError;

/// Appends a number in one byte.
///
/// # Errors
///
/// `AllocError` where memory runs out. `out` is as before then.
pub fn put_u8(out: &mut Vec<u8>, n: u8) -> Result<(), AllocError>
    ensures ok { OnOk result (out.new.items ≡ out.old.items ++ number 1 n) }
    ensures err { OnErr result (out.new.items ≡ out.old.items) }
{
    out.push(n)?;
    Ok(())
}

/// Appends a number in two bytes, the high one first.
///
/// # Errors
///
/// `AllocError` where memory runs out. `out` is as before then.
pub fn put_u16(out: &mut Vec<u8>, n: u16) -> Result<(), AllocError>
    ensures ok { OnOk result (out.new.items ≡ out.old.items ++ number 2 n) }
    ensures err { OnErr result (out.new.items ≡ out.old.items) }
{
    let mut bytes = [0; 2];
    BigEndian::write_u16(&mut bytes, n);
    out.reserve(2)?;
    out.push_reserved(bytes[0]);
    out.push_reserved(bytes[1]);
    Ok(())
}

/// Appends a number in four bytes, the highest first.
///
/// # Errors
///
/// `AllocError` where memory runs out. `out` is as before then.
pub fn put_u32(out: &mut Vec<u8>, n: u32) -> Result<(), AllocError>
    ensures ok { OnOk result (out.new.items ≡ out.old.items ++ number 4 n) }
    ensures err { OnErr result (out.new.items ≡ out.old.items) }
{
    let mut bytes = [0; 4];
    BigEndian::write_u32(&mut bytes, n);
    out.extend_from_slice(&bytes)
}

/// Appends a number in eight bytes, the highest first.
///
/// # Errors
///
/// `AllocError` where memory runs out. `out` is as before then.
pub fn put_u64(out: &mut Vec<u8>, n: u64) -> Result<(), AllocError>
    ensures ok { OnOk result (out.new.items ≡ out.old.items ++ number 8 n) }
    ensures err { OnErr result (out.new.items ≡ out.old.items) }
{
    let mut bytes = [0; 8];
    BigEndian::write_u64(&mut bytes, n);
    out.extend_from_slice(&bytes)
}

/// The number in the byte at a place, and the place after it.
///
/// # Errors
///
/// `Short` at the place where the bytes end there or before it.
pub fn take_u8(bytes: &[u8], at: usize) -> Result<(u8, usize), TakeError>
    ensures answer { result ≡ number_at 1 bytes.now at }
    ensures within { IfOk result (λ x. x.1 ≤ length bytes.now) }
{
    if bytes.len().saturating_sub(at) < 1 {
        return Err(TakeError::Short { at });
    }
    Ok((bytes[at], at + 1))
}

/// The number in the two bytes at a place, and the place after them.
///
/// # Errors
///
/// `Short` at the place where the bytes end before.
pub fn take_u16(bytes: &[u8], at: usize) -> Result<(u16, usize), TakeError>
    ensures answer { result ≡ number_at 2 bytes.now at }
    ensures within { IfOk result (λ x. x.1 ≤ length bytes.now) }
{
    if bytes.len().saturating_sub(at) < 2 {
        return Err(TakeError::Short { at });
    }
    Ok((BigEndian::read_u16(&bytes[at..]), at + 2))
}

/// The number in the four bytes at a place, and the place after them.
///
/// # Errors
///
/// `Short` at the place where the bytes end before.
pub fn take_u32(bytes: &[u8], at: usize) -> Result<(u32, usize), TakeError>
    ensures answer { result ≡ number_at 4 bytes.now at }
    ensures within { IfOk result (λ x. x.1 ≤ length bytes.now) }
{
    if bytes.len().saturating_sub(at) < 4 {
        return Err(TakeError::Short { at });
    }
    Ok((BigEndian::read_u32(&bytes[at..]), at + 4))
}

/// The number in the eight bytes at a place, and the place after them.
///
/// # Errors
///
/// `Short` at the place where the bytes end before.
pub fn take_u64(bytes: &[u8], at: usize) -> Result<(u64, usize), TakeError>
    ensures answer { result ≡ number_at 8 bytes.now at }
    ensures within { IfOk result (λ x. x.1 ≤ length bytes.now) }
{
    if bytes.len().saturating_sub(at) < 8 {
        return Err(TakeError::Short { at });
    }
    Ok((BigEndian::read_u64(&bytes[at..]), at + 8))
}
