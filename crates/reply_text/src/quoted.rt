#![tactic(auto, using(crate::specs::Words::begins_same, crate::specs::Words::begins_after))]

ghost use Rattle.std.specs.Prelude.{◌≡◌, ◌≤◌, ◌<◌, ◌+◌, ◌++◌, if◌then◌else◌, [], true, Ok, codes, length, vec_len, vec_capacity, IfOk, OnOk, OnErr, string_bytes};
ghost use Rattle.json.specs.Print.{quoted};
ghost use Rattle.script_words.specs.Plain as plain;
ghost use Rattle.reply_text.specs.Words.{Begins};

use crate::bytes::{put, put_byte, put_if};
use field_codec::Text;
use script_words::is_plain;
use std::alloc::{AllocError, Global};

/// The bytes that an item of an array has besides its text: a comma and two quotes.
const AROUND_AN_ITEM: usize = 3;

/// Adds the bytes between quotes.
#[inline(always)]
fn put_between(out: &mut Vec<u8>, bytes: &[u8]) -> Result<(), AllocError>
    ensures ok { OnOk result (out.new.items ≡ out.old.items ++ (codes "\"" ++ (bytes.now ++ codes "\""))) }
    ensures err { OnErr result (Begins out.old.items out.new.items) }
{
    put_byte(out, b'"')?;
    put(out, bytes)?;
    put_byte(out, b'"')
}

/// The text as JSON writes it.
#[inline(never)]
fn quote(alloc: Global, text: &str) -> Result<String, AllocError>
    ensures { IfOk result (λ s. string_bytes s ≡ quoted text.now) }
{
    serde_json::Value::try_from_str(alloc, text)?.to_string(alloc)
}

/// Adds the text as JSON writes it, after a comma where something stands before.
#[inline(never)]
pub fn put_escaped(
    alloc: Global,
    out: &mut Vec<u8>,
    later: bool,
    text: &str,
) -> Result<(), AllocError>
    ensures ok { OnOk result (out.new.items ≡ out.old.items ++ ((if later then codes "," else []) ++ quoted text.now)) }
    ensures err { OnErr result (Begins out.old.items out.new.items) }
{
    put_if(out, later, b',')?;
    put(out, quote(alloc, text)?.as_bytes())
}

/// Adds the text as JSON writes it. Only a text with a byte that is escaped is written elsewhere first.
#[tactic(auto, using(crate::specs::Words::begins_same, crate::specs::Words::begins_after, crate::proofs::Plain::between_quotes))]
#[inline(always)]
pub fn put_quoted(alloc: Global, out: &mut Vec<u8>, text: &str) -> Result<(), AllocError>
    ensures ok { OnOk result (out.new.items ≡ out.old.items ++ quoted text.now) }
    ensures err { OnErr result (Begins out.old.items out.new.items) }
{
    if is_plain(text.as_bytes()) {
        return put_between(out, text.as_bytes());
    }
    put_escaped(alloc, out, false, text)
}

/// Adds the bytes, for which there is room, up to the first that JSON escapes, and says whether there is none. With no
/// call for each text: most are short.
#[inline(always)]
fn put_plain(out: &mut Vec<u8>, bytes: &[u8]) -> bool
    requires { vec_len out.old + length bytes.now < vec_capacity out.old }
    ensures plain { result ≡ plain.is_plain bytes.now }
    ensures all { result ≡ true → out.new.items ≡ out.old.items ++ bytes.now }
    ensures room { vec_len out.new < vec_capacity out.new }
    ensures begins { Begins out.old.items out.new.items }
{
    for byte in bytes {
        if *byte <= b'"' {
            if *byte != b' ' && *byte != b'!' {
                return false;
            }
        } else if *byte == b'\\' {
            return false;
        }
        out.push_reserved(*byte);
    }
    true
}

/// Adds a quote, after a comma where something stands before. There is room for both.
#[inline(always)]
fn put_opening(out: &mut Vec<u8>, later: bool)
    requires { vec_len out.old + 2 ≤ vec_capacity out.old }
    ensures items { out.new.items ≡ out.old.items ++ ((if later then codes "," else []) ++ codes "\"") }
    ensures len { vec_len out.new ≤ vec_len out.old + 2 }
    ensures capacity { vec_capacity out.new ≡ vec_capacity out.old }
{
    if later {
        out.push_reserved(b',');
        out.push_reserved(b'"');
        return;
    }
    out.push_reserved(b'"');
}

/// Adds the text between quotes, after a comma where something stands before, if JSON escapes none of its bytes, and says
/// whether that is so. Else it may have added some of them.
#[inline(always)]
pub fn put_if_plain(out: &mut Vec<u8>, later: bool, item: &Text) -> Result<bool, AllocError>
    ensures all { result ≡ Ok true → out.new.items ≡ out.old.items ++ ((if later then codes "," else []) ++ quoted item.now) }
    ensures begins { Begins out.old.items out.new.items }
{
    let text = item.as_str();
    out.reserve(text.len() + AROUND_AN_ITEM)?;
    put_opening(out, later);
    if !put_plain(out, text.as_bytes()) {
        return Ok(false);
    }
    out.push_reserved(b'"');
    Ok(true)
}
