#![tactic(auto, using(crate::specs::Words::begins_same, crate::specs::Words::begins_after))]

ghost use Rattle.std.specs.Prelude.{◌≡◌, ◌≤◌, ◌+◌, ◌++◌, ◌∷◌, if◌then◌else◌, [], length, vec_len, vec_capacity, decimal, OnOk, OnErr};
ghost use Rattle.reply_text.specs.Words.{Begins};

use itoa::Buffer;
use std::alloc::AllocError;

/// Adds the bytes.
#[inline(always)]
pub fn put(out: &mut Vec<u8>, bytes: &[u8]) -> Result<(), AllocError>
    ensures ok { OnOk result (out.new.items ≡ out.old.items ++ bytes.now) }
    ensures err { OnErr result (Begins out.old.items out.new.items) }
{
    out.extend_from_slice(bytes)
}

/// Adds the bytes, for which there is room.
#[inline(always)]
fn put_reserved(out: &mut Vec<u8>, bytes: &[u8])
    requires { vec_len out.old + length bytes.now ≤ vec_capacity out.old }
    ensures { out.new.items ≡ out.old.items ++ bytes.now }
{
    for byte in bytes {
        out.push_reserved(*byte);
    }
}

/// Adds the bytes, which are few, one after another.
#[inline(always)]
pub fn put_few(out: &mut Vec<u8>, bytes: &[u8]) -> Result<(), AllocError>
    ensures ok { OnOk result (out.new.items ≡ out.old.items ++ bytes.now) }
    ensures err { OnErr result (Begins out.old.items out.new.items) }
{
    out.reserve(bytes.len())?;
    put_reserved(out, bytes);
    Ok(())
}

/// Adds one byte.
#[inline(always)]
pub fn put_byte(out: &mut Vec<u8>, byte: u8) -> Result<(), AllocError>
    ensures ok { OnOk result (out.new.items ≡ out.old.items ++ byte ∷ []) }
    ensures err { OnErr result (Begins out.old.items out.new.items) }
{
    out.push(byte)?;
    Ok(())
}

/// Adds one byte, where something stands before.
#[inline(always)]
pub fn put_if(out: &mut Vec<u8>, later: bool, byte: u8) -> Result<(), AllocError>
    ensures ok { OnOk result (out.new.items ≡ out.old.items ++ (if later then byte ∷ [] else [])) }
    ensures err { OnErr result (Begins out.old.items out.new.items) }
{
    if later {
        return put_byte(out, byte);
    }
    Ok(())
}

/// Adds the number. Most are a site or a place of one digit.
#[tactic(auto, using(crate::specs::Words::begins_same, crate::specs::Words::begins_after, crate::proofs::OneDigit::one_digit))]
pub fn put_number(out: &mut Vec<u8>, n: u64) -> Result<(), AllocError>
    ensures ok { OnOk result (out.new.items ≡ out.old.items ++ decimal n) }
    ensures err { OnErr result (Begins out.old.items out.new.items) }
{
    if n < 10 {
        return put_byte(out, b'0' + n as u8);
    }
    put_few(out, Buffer::new().format(n).as_bytes())
}
