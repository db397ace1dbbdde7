ghost use Rattle.std.specs.Prelude.{◌≡◌, ◌++◌, ◌∷◌, [], codes, decimal, OnOk, OnErr};
ghost use Rattle.site_vector.specs.Printed.{part_text, tx_text};
ghost use Rattle.reply_text.specs.Places.{vector_text, word_text, object_text, message_text, report_text, interval_text};
ghost use Rattle.reply_text.specs.Values.{value_text};
ghost use Rattle.reply_text.specs.Text.{line_of};
ghost use Rattle.reply_text.specs.Updated.{updated_text, stamp_text};
ghost use Rattle.reply_text.specs.Words.{Begins};

use crate::bytes::{put, put_byte, put_number};
use crate::value::put_value;
use crate::words::{Word, put_line, put_object, put_part, put_text, put_tx, put_vector};
use crdt_core::{ObjectId, Value};
use field_codec::Text;
use site_vector::{PartId, TxId, VTime};
use std::alloc::{AllocError, Global};

/// Adds a line of these words.
pub fn put_number_number<'x>(
    alloc: Global,
    out: &mut Vec<u8>,
    name: &'x str,
    n: u64,
    m: u64,
) -> Result<(), AllocError>
    ensures ok { OnOk result (out.new.items ≡ out.old.items ++ line_of (name.now ∷ decimal n ∷ decimal m ∷ [])) }
    ensures err { OnErr result (Begins out.old.items out.new.items) }
{
    put_line(
        alloc,
        out,
        &[Word::Name(name), Word::Number(n), Word::Number(m)],
    )
}

/// Adds a name and the place of a partition, each with the space behind it.
#[inline(always)]
#[tactic(auto, using(crate::specs::Words::begins_same, crate::specs::Words::begins_after))]
fn put_named_part(out: &mut Vec<u8>, name: &str, part: PartId) -> Result<(), AllocError>
    ensures ok { OnOk result (out.new.items ≡ out.old.items ++ (name.now ++ (32 ∷ (part_text part ++ 32 ∷ [])))) }
    ensures err { OnErr result (Begins out.old.items out.new.items) }
{
    put(out, name.as_bytes())?;
    put_byte(out, b' ')?;
    put_part(out, part)?;
    put_byte(out, b' ')
}

/// Adds a transaction, with the space behind it.
#[inline(always)]
#[tactic(auto, using(crate::specs::Words::begins_same, crate::specs::Words::begins_after))]
fn put_tx_space(out: &mut Vec<u8>, tx: TxId) -> Result<(), AllocError>
    ensures ok { OnOk result (out.new.items ≡ out.old.items ++ (tx_text tx ++ 32 ∷ [])) }
    ensures err { OnErr result (Begins out.old.items out.new.items) }
{
    put_tx(out, tx)?;
    put_byte(out, b' ')
}

/// Adds a transaction, with the line feed behind it.
#[inline(always)]
#[tactic(auto, using(crate::specs::Words::begins_same, crate::specs::Words::begins_after))]
fn put_last_tx(out: &mut Vec<u8>, tx: TxId) -> Result<(), AllocError>
    ensures ok { OnOk result (out.new.items ≡ out.old.items ++ (tx_text tx ++ 10 ∷ [])) }
    ensures err { OnErr result (Begins out.old.items out.new.items) }
{
    put_tx(out, tx)?;
    put_byte(out, b'\n')
}

/// Adds a number, with the line feed behind it.
#[inline(always)]
#[tactic(auto, using(crate::specs::Words::begins_same, crate::specs::Words::begins_after))]
fn put_last_number(out: &mut Vec<u8>, n: u64) -> Result<(), AllocError>
    ensures ok { OnOk result (out.new.items ≡ out.old.items ++ (decimal n ++ 10 ∷ [])) }
    ensures err { OnErr result (Begins out.old.items out.new.items) }
{
    put_number(out, n)?;
    put_byte(out, b'\n')
}

/// Adds a vector, with the line feed behind it.
#[inline(always)]
#[tactic(auto, using(crate::specs::Words::begins_same, crate::specs::Words::begins_after))]
fn put_last_vector(out: &mut Vec<u8>, v: &VTime) -> Result<(), AllocError>
    ensures ok { OnOk result (out.new.items ≡ out.old.items ++ (vector_text v.now ++ 10 ∷ [])) }
    ensures err { OnErr result (Begins out.old.items out.new.items) }
{
    put_vector(out, v)?;
    put_byte(out, b'\n')
}

/// Adds a name and the number of a message, each with the space behind it.
#[inline(always)]
#[tactic(auto, using(crate::specs::Words::begins_same, crate::specs::Words::begins_after))]
fn put_named_message(out: &mut Vec<u8>, name: &str, number: u64) -> Result<(), AllocError>
    ensures ok { OnOk result (out.new.items ≡ out.old.items ++ (name.now ++ (32 ∷ (message_text number ++ 32 ∷ [])))) }
    ensures err { OnErr result (Begins out.old.items out.new.items) }
{
    put(out, name.as_bytes())?;
    put(out, b" m")?;
    put_number(out, number)?;
    put_byte(out, b' ')
}

/// Adds a line of these words. With no list of them, since most lines of many scripts are those of clocks.
#[tactic(auto, using(crate::specs::Words::begins_same, crate::specs::Words::begins_after, crate::proofs::Front::three_words))]
pub fn put_part_number(
    out: &mut Vec<u8>,
    name: &str,
    part: PartId,
    n: u64,
) -> Result<(), AllocError>
    ensures ok { OnOk result (out.new.items ≡ out.old.items ++ line_of (name.now ∷ part_text part ∷ decimal n ∷ [])) }
    ensures err { OnErr result (Begins out.old.items out.new.items) }
{
    put_named_part(out, name, part)?;
    put_last_number(out, n)
}

/// Adds a line of these words.
pub fn put_text_number<'x>(
    alloc: Global,
    out: &mut Vec<u8>,
    name: &'x str,
    text: &'x Text,
    n: u64,
) -> Result<(), AllocError>
    ensures ok { OnOk result (out.new.items ≡ out.old.items ++ line_of (name.now ∷ word_text text.now ∷ decimal n ∷ [])) }
    ensures err { OnErr result (Begins out.old.items out.new.items) }
{
    put_line(
        alloc,
        out,
        &[Word::Name(name), Word::Text(text), Word::Number(n)],
    )
}

/// Adds a line of these words.
#[tactic(auto, using(crate::specs::Words::begins_same, crate::specs::Words::begins_after))]
pub fn put_one_text(
    alloc: Global,
    out: &mut Vec<u8>,
    name: &str,
    text: &Text,
) -> Result<(), AllocError>
    ensures ok { OnOk result (out.new.items ≡ out.old.items ++ line_of (name.now ∷ word_text text.now ∷ [])) }
    ensures err { OnErr result (Begins out.old.items out.new.items) }
{
    put(out, name.as_bytes())?;
    put_byte(out, b' ')?;
    put_text(alloc, out, text)?;
    put_byte(out, b'\n')
}

/// Adds a line of these words.
#[tactic(auto, using(crate::specs::Words::begins_same, crate::specs::Words::begins_after, crate::proofs::Front::four_words))]
pub fn put_text_tx_vector(
    alloc: Global,
    out: &mut Vec<u8>,
    name: &str,
    text: &Text,
    tx: TxId,
    v: &VTime,
) -> Result<(), AllocError>
    ensures ok { OnOk result (out.new.items ≡ out.old.items ++ line_of (name.now ∷ word_text text.now ∷ tx_text tx ∷ vector_text v.now ∷ [])) }
    ensures err { OnErr result (Begins out.old.items out.new.items) }
{
    put_named_text(alloc, out, name, text)?;
    put_tx_space(out, tx)?;
    put_last_vector(out, v)
}

/// Adds a name and a text, each with the space behind it.
#[inline(always)]
#[tactic(auto, using(crate::specs::Words::begins_same, crate::specs::Words::begins_after))]
fn put_named_text(
    alloc: Global,
    out: &mut Vec<u8>,
    name: &str,
    text: &Text,
) -> Result<(), AllocError>
    ensures ok { OnOk result (out.new.items ≡ out.old.items ++ (name.now ++ (32 ∷ (word_text text.now ++ 32 ∷ [])))) }
    ensures err { OnErr result (Begins out.old.items out.new.items) }
{
    put(out, name.as_bytes())?;
    put_byte(out, b' ')?;
    put_text(alloc, out, text)?;
    put_byte(out, b' ')
}

/// Adds a value between a space and a line feed.
#[inline(always)]
#[tactic(auto, using(crate::specs::Words::begins_same, crate::specs::Words::begins_after))]
fn put_last_value(alloc: Global, out: &mut Vec<u8>, value: &Value) -> Result<(), AllocError>
    ensures ok { OnOk result (out.new.items ≡ out.old.items ++ (32 ∷ (value_text value.now ++ 10 ∷ []))) }
    ensures err { OnErr result (Begins out.old.items out.new.items) }
{
    put_byte(out, b' ')?;
    put_value(alloc, out, value)?;
    put_byte(out, b'\n')
}

/// Adds a line of these words. With no list of them, since most lines of many scripts are those of reads.
#[tactic(auto, using(crate::specs::Words::begins_same, crate::specs::Words::begins_after, crate::proofs::Front::value_is))]
pub fn put_text_object_value(
    alloc: Global,
    out: &mut Vec<u8>,
    name: &str,
    text: &Text,
    object: &ObjectId,
    value: &Value,
) -> Result<(), AllocError>
    ensures ok { OnOk result (out.new.items ≡ out.old.items ++ line_of (name.now ∷ word_text text.now ∷ object_text object.now ∷ value_text value.now ∷ [])) }
    ensures err { OnErr result (Begins out.old.items out.new.items) }
{
    put_named_text(alloc, out, name, text)?;
    put_object(alloc, out, object)?;
    put_last_value(alloc, out, value)
}

/// Adds a line of these words.
#[tactic(auto, using(crate::specs::Words::begins_same, crate::specs::Words::begins_after, crate::proofs::Front::four_words))]
pub fn put_part_tx_number(
    out: &mut Vec<u8>,
    name: &str,
    part: PartId,
    tx: TxId,
    n: u64,
) -> Result<(), AllocError>
    ensures ok { OnOk result (out.new.items ≡ out.old.items ++ line_of (name.now ∷ part_text part ∷ tx_text tx ∷ decimal n ∷ [])) }
    ensures err { OnErr result (Begins out.old.items out.new.items) }
{
    put_named_part(out, name, part)?;
    put_tx_space(out, tx)?;
    put_last_number(out, n)
}

/// Adds a line of these words.
#[tactic(auto, using(crate::specs::Words::begins_same, crate::specs::Words::begins_after, crate::proofs::Front::four_words))]
pub fn put_part_tx_vector(
    out: &mut Vec<u8>,
    name: &str,
    part: PartId,
    tx: TxId,
    v: &VTime,
) -> Result<(), AllocError>
    ensures ok { OnOk result (out.new.items ≡ out.old.items ++ line_of (name.now ∷ part_text part ∷ tx_text tx ∷ vector_text v.now ∷ [])) }
    ensures err { OnErr result (Begins out.old.items out.new.items) }
{
    put_named_part(out, name, part)?;
    put_tx_space(out, tx)?;
    put_last_vector(out, v)
}

/// Adds a line of these words.
#[tactic(auto, using(crate::specs::Words::begins_same, crate::specs::Words::begins_after, crate::proofs::Front::three_words))]
pub fn put_part_tx(out: &mut Vec<u8>, name: &str, part: PartId, tx: TxId) -> Result<(), AllocError>
    ensures ok { OnOk result (out.new.items ≡ out.old.items ++ line_of (name.now ∷ part_text part ∷ tx_text tx ∷ [])) }
    ensures err { OnErr result (Begins out.old.items out.new.items) }
{
    put_named_part(out, name, part)?;
    put_last_tx(out, tx)
}

/// Adds a line of these words.
#[tactic(auto, using(crate::specs::Words::begins_same, crate::specs::Words::begins_after))]
pub fn put_one_part(out: &mut Vec<u8>, name: &str, part: PartId) -> Result<(), AllocError>
    ensures ok { OnOk result (out.new.items ≡ out.old.items ++ line_of (name.now ∷ part_text part ∷ [])) }
    ensures err { OnErr result (Begins out.old.items out.new.items) }
{
    put(out, name.as_bytes())?;
    put_byte(out, b' ')?;
    put_part(out, part)?;
    put_byte(out, b'\n')
}

/// Adds a line of these words.
#[tactic(auto, using(crate::specs::Words::begins_same, crate::specs::Words::begins_after, crate::proofs::Front::three_words))]
pub fn put_message_number(
    out: &mut Vec<u8>,
    name: &str,
    number: u64,
    n: u64,
) -> Result<(), AllocError>
    ensures ok { OnOk result (out.new.items ≡ out.old.items ++ line_of (name.now ∷ message_text number ∷ decimal n ∷ [])) }
    ensures err { OnErr result (Begins out.old.items out.new.items) }
{
    put_named_message(out, name, number)?;
    put_last_number(out, n)
}

/// Adds a line of these words.
pub fn put_message<'x>(
    alloc: Global,
    out: &mut Vec<u8>,
    name: &'x str,
    number: u64,
) -> Result<(), AllocError>
    ensures ok { OnOk result (out.new.items ≡ out.old.items ++ line_of (name.now ∷ message_text number ∷ [])) }
    ensures err { OnErr result (Begins out.old.items out.new.items) }
{
    put_line(alloc, out, &[Word::Name(name), Word::Message(number)])
}

/// Adds a line of these words.
pub fn put_report<'x>(
    alloc: Global,
    out: &mut Vec<u8>,
    name: &'x str,
    number: u64,
) -> Result<(), AllocError>
    ensures ok { OnOk result (out.new.items ≡ out.old.items ++ line_of (name.now ∷ report_text number ∷ [])) }
    ensures err { OnErr result (Begins out.old.items out.new.items) }
{
    put_line(alloc, out, &[Word::Name(name), Word::Report(number)])
}

/// Adds a line of these words.
pub fn put_report_part_vector<'x>(
    alloc: Global,
    out: &mut Vec<u8>,
    name: &'x str,
    number: u64,
    part: PartId,
    v: &'x VTime,
) -> Result<(), AllocError>
    ensures ok { OnOk result (out.new.items ≡ out.old.items ++ line_of (name.now ∷ report_text number ∷ part_text part ∷ vector_text v.now ∷ [])) }
    ensures err { OnErr result (Begins out.old.items out.new.items) }
{
    put_line(
        alloc,
        out,
        &[
            Word::Name(name),
            Word::Report(number),
            Word::Part(part),
            Word::Vector(v),
        ],
    )
}

/// Adds a line of these words.
pub fn put_part_number_number<'x>(
    alloc: Global,
    out: &mut Vec<u8>,
    name: &'x str,
    part: PartId,
    n: u64,
    m: u64,
) -> Result<(), AllocError>
    ensures ok { OnOk result (out.new.items ≡ out.old.items ++ line_of (name.now ∷ part_text part ∷ decimal n ∷ decimal m ∷ [])) }
    ensures err { OnErr result (Begins out.old.items out.new.items) }
{
    put_line(
        alloc,
        out,
        &[
            Word::Name(name),
            Word::Part(part),
            Word::Number(n),
            Word::Number(m),
        ],
    )
}

/// Adds a line of these words.
pub fn put_name<'x>(alloc: Global, out: &mut Vec<u8>, name: &'x str) -> Result<(), AllocError>
    ensures ok { OnOk result (out.new.items ≡ out.old.items ++ line_of (name.now ∷ [])) }
    ensures err { OnErr result (Begins out.old.items out.new.items) }
{
    put_line(alloc, out, &[Word::Name(name)])
}

/// Adds a line of these words.
pub fn put_one_tx<'x>(
    alloc: Global,
    out: &mut Vec<u8>,
    name: &'x str,
    tx: TxId,
) -> Result<(), AllocError>
    ensures ok { OnOk result (out.new.items ≡ out.old.items ++ line_of (name.now ∷ tx_text tx ∷ [])) }
    ensures err { OnErr result (Begins out.old.items out.new.items) }
{
    put_line(alloc, out, &[Word::Name(name), Word::Tx(tx)])
}

/// Adds a line of these words.
pub fn put_one_number<'x>(
    alloc: Global,
    out: &mut Vec<u8>,
    name: &'x str,
    n: u64,
) -> Result<(), AllocError>
    ensures ok { OnOk result (out.new.items ≡ out.old.items ++ line_of (name.now ∷ decimal n ∷ [])) }
    ensures err { OnErr result (Begins out.old.items out.new.items) }
{
    put_line(alloc, out, &[Word::Name(name), Word::Number(n)])
}

/// Adds the line of a sent message.
pub fn put_sent(
    alloc: Global,
    out: &mut Vec<u8>,
    number: u64,
    part: PartId,
    to: u8,
    lo: u64,
    hi: u64,
    count: u64,
) -> Result<(), AllocError>
    ensures ok { OnOk result (out.new.items ≡ out.old.items ++ line_of (codes "sent" ∷ message_text number ∷ part_text part ∷ decimal to ∷ interval_text lo hi ∷ decimal count ∷ [])) }
    ensures err { OnErr result (Begins out.old.items out.new.items) }
{
    put_line(
        alloc,
        out,
        &[
            Word::Name("sent"),
            Word::Message(number),
            Word::Part(part),
            Word::Number(to as u64),
            Word::Interval(lo, hi),
            Word::Number(count),
        ],
    )
}

/// Adds the stamp of an assign, where there is one, and a line feed.
#[tactic(auto, using(crate::specs::Words::begins_same, crate::specs::Words::begins_after))]
fn put_stamp(out: &mut Vec<u8>, stamp: Option<u64>) -> Result<(), AllocError>
    ensures ok { OnOk result (out.new.items ≡ out.old.items ++ (stamp_text stamp ++ 10 ∷ [])) }
    ensures err { OnErr result (Begins out.old.items out.new.items) }
{
    match stamp {
        None => put_byte(out, b'\n'),
        Some(n) => {
            put(out, b" stamp ")?;
            put_number(out, n)?;
            put_byte(out, b'\n')
        }
    }
}

/// Adds the first words of an update's line, with the space behind them.
fn put_updated_name(alloc: Global, out: &mut Vec<u8>, name: &Text) -> Result<(), AllocError>
    ensures ok { OnOk result (out.new.items ≡ out.old.items ++ (codes "updated " ++ (word_text name.now ++ 32 ∷ []))) }
    ensures err { OnErr result (Begins out.old.items out.new.items) }
{
    put(out, b"updated ")?;
    put_text(alloc, out, name)?;
    put_byte(out, b' ')
}

/// Adds the line of an update, with the stamp where there is one. Most lines of a script are updates, so no list of
/// words is made.
#[tactic(auto, using(crate::specs::Words::begins_same, crate::specs::Words::begins_after, crate::proofs::Front::updated_is))]
pub fn put_updated(
    alloc: Global,
    out: &mut Vec<u8>,
    name: &Text,
    object: &ObjectId,
    stamp: Option<u64>,
) -> Result<(), AllocError>
    ensures ok { OnOk result (out.new.items ≡ out.old.items ++ updated_text name.now object.now stamp) }
    ensures err { OnErr result (Begins out.old.items out.new.items) }
{
    put_updated_name(alloc, out, name)?;
    put_object(alloc, out, object)?;
    put_stamp(out, stamp)
}
