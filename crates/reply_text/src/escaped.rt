#![tactic(auto, using(crate::specs::Words::begins_same, crate::specs::Words::begins_after))]

ghost use Rattle.std.specs.Prelude.{◌≡◌, ◌<◌, ◌/◌, ◌%◌, ◌++◌, ◌∷◌, [], OnOk, OnErr};
ghost use Rattle.std.specs.Char.{digit_char};
ghost use Rattle.json.specs.Print.{escape, escape_byte, quoted};
ghost use Rattle.reply_text.specs.Words.{Begins};

use crate::bytes::{put, put_byte};
use std::alloc::AllocError;

/// The hexadecimal digit of a number.
fn hex_digit(n: u8) -> u8
    requires { n < 16 }
    ensures { result ≡ digit_char n }
{
    if n < 10 { b'0' + n } else { b'a' + (n - 10) }
}

/// Adds a byte below 32 by its number.
#[tactic(auto, using(crate::specs::Words::begins_same, crate::specs::Words::begins_after))]
fn put_numbered(out: &mut Vec<u8>, byte: u8) -> Result<(), AllocError>
    requires { byte < 32 }
    ensures ok { OnOk result (out.new.items ≡ out.old.items ++ 92 ∷ 117 ∷ 48 ∷ 48 ∷ digit_char (byte / 16) ∷ digit_char (byte % 16) ∷ []) }
    ensures err { OnErr result (Begins out.old.items out.new.items) }
{
    let digits = [hex_digit(byte / 16), hex_digit(byte % 16)];
    put(out, b"\\u00")?;
    put(out, &digits)
}

/// Adds a byte as it stands between the quotes of a JSON string.
#[tactic(auto, unfolding(json::specs::Print::escape_byte), using(crate::specs::Words::begins_same, crate::specs::Words::begins_after, crate::proofs::Escapes::numbered, crate::proofs::Escapes::itself))]
fn put_escaped_byte(out: &mut Vec<u8>, byte: u8) -> Result<(), AllocError>
    ensures ok { OnOk result (out.new.items ≡ out.old.items ++ escape_byte byte) }
    ensures err { OnErr result (Begins out.old.items out.new.items) }
{
    match byte {
        b'"' => put(out, b"\\\""),
        b'\\' => put(out, b"\\\\"),
        0x08 => put(out, b"\\b"),
        b'\t' => put(out, b"\\t"),
        b'\n' => put(out, b"\\n"),
        0x0c => put(out, b"\\f"),
        b'\r' => put(out, b"\\r"),
        _ => {
            if byte < 32 {
                return put_numbered(out, byte);
            }
            put_byte(out, byte)
        }
    }
}

/// Adds bytes as they stand between the quotes of a JSON string.
fn put_all_escaped(out: &mut Vec<u8>, bytes: &[u8]) -> Result<(), AllocError>
    ensures ok { OnOk result (out.new.items ≡ out.old.items ++ escape bytes.now) }
    ensures err { OnErr result (Begins out.old.items out.new.items) }
{
    for byte in bytes {
        put_escaped_byte(out, *byte)?;
    }
    Ok(())
}

/// Adds bytes as a JSON string.
pub fn put_json_string(out: &mut Vec<u8>, bytes: &[u8]) -> Result<(), AllocError>
    ensures ok { OnOk result (out.new.items ≡ out.old.items ++ quoted bytes.now) }
    ensures err { OnErr result (Begins out.old.items out.new.items) }
{
    put_byte(out, b'"')?;
    put_all_escaped(out, bytes)?;
    put_byte(out, b'"')
}
