//! The commands of a script: what a line reads as.
#![tactic(auto)]

ghost use Rattle.std.specs.Prelude.{◌≡◌, List, ℕ, Err, IfNone, IfSome, OnOk, None, Some};
ghost use Rattle.std.specs.List.{list_all};
ghost use Rattle.std.specs.Str.{IsUtf8};
ghost use Rattle.script_text.specs.declared.Parsed.{Parsed};
ghost use Rattle.script_text.specs.Grammar as grammar;
ghost use Rattle.script_text.specs.Line.{IsLine, Reads, command_as, line_as};
ghost use Rattle.script_text.specs.Split.{words};
ghost use Rattle.script_text.specs.Ascii.{is_ascii_byte};

mod act;
mod brief;
mod commands;
mod number;
mod object;
mod place;
mod split;
mod text;

use commands::{command, update};
use split::next;
use std::alloc::{AllocError, Global};
use thiserror::Error;
use world_model::Command;

/// The most bytes of a line, without its end.
pub const MOST_BYTES: usize = 4096;

/// Why a line gives no command.
#[derive(Clone, Copy, Debug, PartialEq, Eq, Error)]
pub enum ParseError {
    #[error("the line isn't in the grammar")]
    Bad,
    #[error("out of memory")]
    NoMemory,
}

impl From<AllocError> for ParseError {
    ghost use Rattle.script_text.specs.declared.ParseError.{ParseError};

    ghost from_gives = { λ e r. r ≡ ParseError.NoMemory };

    fn from(_error: AllocError) -> ParseError {
        ParseError::NoMemory
    }
}

/// What a line reads as.
#[derive(Debug, Drop)]
pub enum Parsed {
    /// A line without a word, or whose first byte after spaces is `#`.
    Nothing,
    Command(Command),
}

/// Whether all bytes are ASCII. A loop that looks at each takes many at once.
fn is_ascii(bytes: &[u8]) -> bool
    ensures { result ≡ list_all is_ascii_byte bytes.now }
{
    let mut greatest = 0;
    for byte in bytes {
        greatest = greatest.max(*byte);
    }
    greatest < 128
}

/// The bytes as text, where they are UTF-8. Most lines are ASCII, which a test of each byte alone sees faster.
#[tactic(auto, using(crate::proofs::Utf8::ascii_utf8))]
fn as_text(bytes: &[u8]) -> Option<&str>
    ensures same { IfSome result (λ text. text.now ≡ bytes.now) }
    ensures utf8 { IfSome result (λ _. IsUtf8 bytes.now) }
    ensures none { IfNone result (¬ (IsUtf8 bytes.now)) }
{
    if is_ascii(bytes) {
        // What this call requires, that the bytes are UTF-8, is `ascii_utf8` of proofs/Utf8.antt.
        return Some(unsafe { std::str::from_utf8_unchecked(bytes) });
    }
    std::str::from_utf8(bytes).ok()
}

/// The bytes as text, where they may be a line: at most 4,096, in UTF-8. What follows goes by this one test.
fn as_line(bytes: &[u8]) -> Option<&str>
    ensures same { IfSome result (λ line. line.now ≡ bytes.now) }
    ensures some { IfSome result (λ _. IsLine bytes.now) }
    ensures none { IfNone result (¬ (IsLine bytes.now)) }
{
    if bytes.len() > MOST_BYTES {
        return None;
    }
    as_text(bytes)
}

/// What a line without a command reads as takes its place. A function that did so itself would be dear to prove, as
/// with `put`.
#[inline(always)]
fn put_nothing(parsed: &mut Parsed)
    ensures { parsed.new ≡ Parsed.Nothing }
{
    *parsed = Parsed::Nothing;
}

/// What follows `update` and the space after it, where they stand at the front: most lines begin so.
#[tactic(auto, using(crate::proofs::Cuts::after_seventh, crate::proofs::Fronts::updates))]
fn after_update(line: &str) -> Option<&str>
    ensures { IfSome result (λ r. line_as (words line.now) ≡ command_as (grammar.update (words r.now))) }
{
    match line.as_bytes() {
        [b'u', b'p', b'd', b'a', b't', b'e', b' ', ..] => Some(&line[7..]),
        _ => None,
    }
}

/// Reads the words of the line.
fn parse_words(alloc: Global, line: &str, parsed: &mut Parsed) -> Result<(), ParseError>
    ensures ok { OnOk result (Some parsed.new ≡ line_as (words line.now)) }
    ensures bad { result ≡ Err ParseError.Bad → line_as (words line.now) ≡ None }
{
    if let Some(rest) = after_update(line) {
        return update(alloc, rest, parsed);
    }
    let Some((name, rest)) = next(line) else {
        put_nothing(parsed);
        return Ok(());
    };
    let name = name.as_bytes();
    match name {
        [] => Err(ParseError::Bad),
        [b'#', ..] => {
            put_nothing(parsed);
            Ok(())
        }
        _ => command(alloc, name, rest, parsed),
    }
}

/// Reads a line of a script into `parsed`. The line has no end: no line feed, and no carriage return before one.
///
/// # Errors
///
/// `Bad` exactly where the line isn't in the grammar (docs/SCRIPT.md): longer than 4,096 bytes, not UTF-8, or
/// with words that spell no command. `NoMemory` where memory runs out. What `parsed` holds after an error is not told.
pub fn parse(alloc: Global, line: &[u8], parsed: &mut Parsed) -> Result<(), ParseError>
    ensures ok { OnOk result (Reads line.now parsed.new) }
    ensures bad { result ≡ Err ParseError.Bad → (p : Parsed) → ¬ (Reads line.now p) }
{
    match as_line(line) {
        Some(line) => parse_words(alloc, line, parsed),
        None => Err(ParseError::Bad),
    }
}

/// The law of the grammar: it reads at most one command from a line.
pub fn law_reads_once()
    ensures { (line : List ℕ) (p q : Parsed) → Reads line p → Reads line q → p ≡ q }
{}
