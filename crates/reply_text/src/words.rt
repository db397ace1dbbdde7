#![tactic(auto, using(crate::specs::Words::begins_same, crate::specs::Words::begins_after))]

ghost use Rattle.std.specs.Prelude.{◌≡◌, ◌≤◌, ◌+◌, ◌++◌, if◌then◌else◌, [], ◌∷◌, true, codes, decimal, length, vec_len, vec_capacity, IfOk, OnOk, OnErr};
ghost use Rattle.std.specs.List.{join_by, list_all};
ghost use Rattle.script_words.specs.Bare.{is_bare, is_bare_byte};
ghost use Rattle.script_words.specs.Kinds.{kind_name};
ghost use Rattle.site_vector.specs.Printed.{part_text, tx_text};
ghost use Rattle.reply_text.specs.Places.{vector_text, word_text, object_text, bucket_text, interval_text};
ghost use Rattle.reply_text.specs.Words.{text_of_word, words_text, Begins};

use crate::bytes::{put, put_byte, put_if, put_number};
use crate::quoted::put_quoted;
use crdt_core::{Kind, ObjectId};
use field_codec::Text;
use script_words::is_bare_byte;
use site_vector::{PartId, TxId, VTime};
use std::alloc::{AllocError, Global};

/// A word of a reply, with what it names borrowed from the step.
#[derive(Clone, Copy, Debug)]
pub enum Word<'a> {
    /// As it stands.
    Name(&'a str),
    Number(u64),
    Part(PartId),
    Tx(TxId),
    Vector(&'a VTime),
    Text(&'a Text),
    /// The number of a message.
    Message(u64),
    /// The number of a report.
    Report(u64),
    /// The times above the first up to the second.
    Interval(u64, u64),
}

/// Adds the place of a partition.
pub fn put_part(out: &mut Vec<u8>, part: PartId) -> Result<(), AllocError>
    ensures ok { OnOk result (out.new.items ≡ out.old.items ++ part_text part) }
    ensures err { OnErr result (Begins out.old.items out.new.items) }
{
    put_number(out, part.site as u64)?;
    put_byte(out, b'.')?;
    put_number(out, part.part as u64)
}

/// Adds the id of a transaction.
pub fn put_tx(out: &mut Vec<u8>, tx: TxId) -> Result<(), AllocError>
    ensures ok { OnOk result (out.new.items ≡ out.old.items ++ tx_text tx) }
    ensures err { OnErr result (Begins out.old.items out.new.items) }
{
    put_number(out, tx.site as u64)?;
    put_byte(out, b'.')?;
    put_number(out, tx.part as u64)?;
    put_byte(out, b'#')?;
    put_number(out, tx.time)
}

/// Adds a time, after a comma where something stands before.
fn put_time(out: &mut Vec<u8>, later: bool, time: u64) -> Result<(), AllocError>
    ensures ok { OnOk result (out.new.items ≡ out.old.items ++ ((if later then codes "," else []) ++ decimal time)) }
    ensures err { OnErr result (Begins out.old.items out.new.items) }
{
    put_if(out, later, b',')?;
    put_number(out, time)
}

/// Adds the times with a comma between neighbors.
fn put_times(out: &mut Vec<u8>, times: &[u64]) -> Result<(), AllocError>
    ensures ok { OnOk result (out.new.items ≡ out.old.items ++ join_by decimal (codes ",") times.now) }
    ensures err { OnErr result (Begins out.old.items out.new.items) }
{
    for (i, time) in times.iter().enumerate() {
        put_time(out, i > 0, *time)?;
    }
    Ok(())
}

/// Adds the times of the vector, between brackets.
pub fn put_vector(out: &mut Vec<u8>, v: &VTime) -> Result<(), AllocError>
    ensures ok { OnOk result (out.new.items ≡ out.old.items ++ vector_text v.now) }
    ensures err { OnErr result (Begins out.old.items out.new.items) }
{
    put_byte(out, b'[')?;
    put_times(out, v.as_slice())?;
    put_byte(out, b']')
}

/// Adds the bytes, for which there is room, up to the first that may not stand in a bare word, and says whether there is
/// none.
#[inline(always)]
fn put_bare(out: &mut Vec<u8>, bytes: &[u8]) -> bool
    requires { vec_len out.old + length bytes.now ≤ vec_capacity out.old }
    ensures bare { result ≡ list_all is_bare_byte bytes.now }
    ensures all { result ≡ true → out.new.items ≡ out.old.items ++ bytes.now }
    ensures begins { Begins out.old.items out.new.items }
{
    for byte in bytes {
        if !byte.is_ascii_lowercase() && !is_bare_byte(*byte) {
            return false;
        }
        out.push_reserved(*byte);
    }
    true
}

/// Adds the bytes, if they are a bare word, and says whether they are. They are gone over once.
fn put_if_bare(out: &mut Vec<u8>, bytes: &[u8]) -> Result<bool, AllocError>
    ensures bare { IfOk result (λ put. put ≡ is_bare bytes.now) }
    ensures ok { IfOk result (λ put. out.new.items ≡ (if put then out.old.items ++ bytes.now else out.old.items)) }
    ensures err { OnErr result (Begins out.old.items out.new.items) }
{
    if bytes.is_empty() {
        return Ok(false);
    }
    let start = out.len();
    out.reserve(bytes.len())?;
    if put_bare(out, bytes) {
        return Ok(true);
    }
    out.truncate(start);
    Ok(false)
}

/// Adds a text, bare where it may be, and else as JSON writes it.
pub fn put_text(alloc: Global, out: &mut Vec<u8>, text: &Text) -> Result<(), AllocError>
    ensures ok { OnOk result (out.new.items ≡ out.old.items ++ word_text text.now) }
    ensures err { OnErr result (Begins out.old.items out.new.items) }
{
    let text = text.as_str();
    if put_if_bare(out, text.as_bytes())? {
        return Ok(());
    }
    put_quoted(alloc, out, text)
}

/// Adds a space, an at sign and the bucket, where it isn't empty.
fn put_bucket(alloc: Global, out: &mut Vec<u8>, bucket: &Text) -> Result<(), AllocError>
    ensures ok { OnOk result (out.new.items ≡ out.old.items ++ bucket_text bucket.now) }
    ensures err { OnErr result (Begins out.old.items out.new.items) }
{
    if bucket.as_str().is_empty() {
        return Ok(());
    }
    put(out, b" @")?;
    put_text(alloc, out, bucket)
}

/// Adds the name of the kind: bytes whose number is known are written at once, others one after another.
fn put_kind(out: &mut Vec<u8>, kind: Kind) -> Result<(), AllocError>
    ensures ok { OnOk result (out.new.items ≡ out.old.items ++ kind_name kind) }
    ensures err { OnErr result (Begins out.old.items out.new.items) }
{
    match kind {
        Kind::CounterPn => put(out, b"counter_pn"),
        Kind::CounterFat => put(out, b"counter_fat"),
        Kind::SetGo => put(out, b"set_go"),
        Kind::SetAw => put(out, b"set_aw"),
        Kind::SetRw => put(out, b"set_rw"),
        Kind::FlagEw => put(out, b"flag_ew"),
        Kind::FlagDw => put(out, b"flag_dw"),
        Kind::RegisterLww => put(out, b"register_lww"),
        Kind::RegisterMv => put(out, b"register_mv"),
        Kind::MapGo => put(out, b"map_go"),
        Kind::MapRr => put(out, b"map_rr"),
    }
}

/// Adds the key, the kind and the bucket.
pub fn put_object(alloc: Global, out: &mut Vec<u8>, object: &ObjectId) -> Result<(), AllocError>
    ensures ok { OnOk result (out.new.items ≡ out.old.items ++ object_text object.now) }
    ensures err { OnErr result (Begins out.old.items out.new.items) }
{
    put_text(alloc, out, &object.key)?;
    put_byte(out, b' ')?;
    put_kind(out, object.kind)?;
    put_bucket(alloc, out, &object.bucket)
}

fn put_numbered(out: &mut Vec<u8>, letter: &[u8], n: u64) -> Result<(), AllocError>
    ensures ok { OnOk result (out.new.items ≡ out.old.items ++ (letter.now ++ decimal n)) }
    ensures err { OnErr result (Begins out.old.items out.new.items) }
{
    put(out, letter)?;
    put_number(out, n)
}

fn put_interval(out: &mut Vec<u8>, lo: u64, hi: u64) -> Result<(), AllocError>
    ensures ok { OnOk result (out.new.items ≡ out.old.items ++ interval_text lo hi) }
    ensures err { OnErr result (Begins out.old.items out.new.items) }
{
    put_byte(out, b'(')?;
    put_number(out, lo)?;
    put_byte(out, b',')?;
    put_number(out, hi)?;
    put_byte(out, b']')
}

fn put_word(alloc: Global, out: &mut Vec<u8>, word: &Word) -> Result<(), AllocError>
    ensures ok { OnOk result (out.new.items ≡ out.old.items ++ text_of_word word.now) }
    ensures err { OnErr result (Begins out.old.items out.new.items) }
{
    match word {
        Word::Name(name) => put(out, name.as_bytes()),
        Word::Number(n) => put_number(out, *n),
        Word::Part(part) => put_part(out, *part),
        Word::Tx(tx) => put_tx(out, *tx),
        Word::Vector(v) => put_vector(out, v),
        Word::Text(text) => put_text(alloc, out, text),
        Word::Message(n) => put_numbered(out, b"m", *n),
        Word::Report(n) => put_numbered(out, b"g", *n),
        Word::Interval(lo, hi) => put_interval(out, *lo, *hi),
    }
}

/// Adds a word, after a space where something stands before.
fn put_next(alloc: Global, out: &mut Vec<u8>, later: bool, word: &Word) -> Result<(), AllocError>
    ensures ok { OnOk result (out.new.items ≡ out.old.items ++ ((if later then codes " " else []) ++ text_of_word word.now)) }
    ensures err { OnErr result (Begins out.old.items out.new.items) }
{
    put_if(out, later, b' ')?;
    put_word(alloc, out, word)
}

/// Adds the words with a space between neighbors.
pub fn put_words(alloc: Global, out: &mut Vec<u8>, words: &[Word]) -> Result<(), AllocError>
    ensures ok { OnOk result (out.new.items ≡ out.old.items ++ words_text words.now) }
    ensures err { OnErr result (Begins out.old.items out.new.items) }
{
    for (i, word) in words.iter().enumerate() {
        put_next(alloc, out, i > 0, word)?;
    }
    Ok(())
}

/// Adds the words with a space between neighbors, and a line feed.
pub fn put_line(alloc: Global, out: &mut Vec<u8>, words: &[Word]) -> Result<(), AllocError>
    ensures ok { OnOk result (out.new.items ≡ out.old.items ++ (words_text words.now ++ 10 ∷ [])) }
    ensures err { OnErr result (Begins out.old.items out.new.items) }
{
    put_words(alloc, out, words)?;
    put_byte(out, b'\n')
}
