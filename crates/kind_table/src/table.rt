// The table. A line is answered by what its words are:
//
//   vectors U V               two vectors of one width: join, meet, sums, which is at most which, and their order
//   ids SITE PART TIME        a place and a transaction, as they are printed
//   texts A B                 whether a copy of a text equals another
//   place PARTS KEY [BUCKET]  the partition of an object
//   kind CODE                 the kind with this code, and whether its updates read the state
//   fits KIND PATH ACT ..     whether the kind has the operation
//   kept NUMBER:VALUE,..      values at dots
//   form NAME AT BYTES        what stands at a place, put again
//   bytes KIND AT BYTES       the effect at a place, put again, and what it shows
//   history KIND PIECE|..     updates `SITE SEEN CLOCK PATH ACT ..`, answered by their effects' bytes, and reads
//
// Effects are answered by the type of their kind, where maps have fat counters alone, and by the type of all kinds.
// Other lines are copied.
use crate::acts::op_of;
use crate::words::{bytes_of, number_of, words_of};
use crate::{effects, forms, histories, kept, vectors};
use crdt_any::Any;
use crdt_core::{Crdt, Kind, ObjectId, fits, partition_of, reads_state};
use crdt_counters::{CounterFat, CounterPn};
use crdt_flags::{FlagDw, FlagEw};
use crdt_maps::{MapGo, MapRr};
use crdt_registers::{RegisterLww, RegisterMv};
use crdt_sets::{SetAw, SetGo, SetRw};
use field_codec::{ListOf, Text};
use script_words::{kind_name, kind_named};
use std::alloc::{AllocError, Global};

/// What is asked of effects of a kind.
#[derive(Clone, Copy)]
enum Question<'a> {
    History(&'a str),
    Bytes(usize, &'a [u8]),
}

fn answered<C: Crdt>(
    alloc: Global,
    kind: Kind,
    question: Question<'_>,
) -> Result<String, AllocError> {
    if !C::has(kind) {
        return String::from_str(alloc, "the type has no such kind\n");
    }
    match question {
        Question::History(history) => histories::played::<C>(alloc, kind, history),
        Question::Bytes(at, bytes) => effects::taken::<C>(alloc, kind, at, bytes),
    }
}

/// What the type of the kind answers.
fn answered_by_own(
    alloc: Global,
    kind: Kind,
    question: Question<'_>,
) -> Result<String, AllocError> {
    match kind {
        Kind::CounterPn => answered::<CounterPn>(alloc, kind, question),
        Kind::CounterFat => answered::<CounterFat>(alloc, kind, question),
        Kind::SetGo => answered::<SetGo>(alloc, kind, question),
        Kind::SetAw => answered::<SetAw>(alloc, kind, question),
        Kind::SetRw => answered::<SetRw>(alloc, kind, question),
        Kind::FlagEw => answered::<FlagEw>(alloc, kind, question),
        Kind::FlagDw => answered::<FlagDw>(alloc, kind, question),
        Kind::RegisterLww => answered::<RegisterLww>(alloc, kind, question),
        Kind::RegisterMv => answered::<RegisterMv>(alloc, kind, question),
        Kind::MapGo => answered::<MapGo<CounterFat>>(alloc, kind, question),
        Kind::MapRr => answered::<MapRr<CounterFat>>(alloc, kind, question),
    }
}

/// Adds what both types answer, once where it is the same.
fn put_answers(
    alloc: Global,
    out: &mut String,
    kind: Kind,
    question: Question<'_>,
) -> Result<(), AllocError> {
    let own = answered_by_own(alloc, kind, question)?;
    let any = answered::<Any>(alloc, kind, question)?;
    out.push_str(own.as_str())?;
    if own.as_str() == any.as_str() {
        return out.push_str("  the same in the type of all kinds\n");
    }
    out.push_str("  in the type of all kinds:\n")?;
    out.push_str(any.as_str())
}

/// Answers each line of a text.
pub(crate) fn run(alloc: Global, text: &str) -> Result<String, AllocError> {
    let mut out = String::new(alloc);
    for line in text.lines() {
        answer(alloc, &mut out, line)?;
    }
    Ok(out)
}

fn answer_history(alloc: Global, out: &mut String, words: &str) -> Result<(), AllocError> {
    let (kind, history) = words.split_once(' ').unwrap_or((words, ""));
    match kind_named(kind.as_bytes()) {
        Some(kind) => {
            writeln!(out, "history {}", kind_name(kind))?;
            put_answers(alloc, out, kind, Question::History(history))
        }
        None => out.push_str("no kind\n"),
    }
}

fn answer(alloc: Global, out: &mut String, line: &str) -> Result<(), AllocError> {
    if let Some(words) = line.strip_prefix("history ") {
        return answer_history(alloc, out, words);
    }
    let words = words_of(alloc, line.as_bytes())?;
    match words.as_slice() {
        [] | ["#", ..] => writeln!(out, "{line}"),
        words => {
            write!(out, "{line}: ")?;
            answer_words(alloc, out, words)
        }
    }
}

fn answer_words(alloc: Global, out: &mut String, words: &[&str]) -> Result<(), AllocError> {
    match words {
        ["vectors", one, other] => vectors::answer(alloc, out, one, other),
        ["ids", site, part, time] => vectors::answer_ids(out, site, part, time),
        ["kept", word] => kept::answer(alloc, out, word),
        ["texts", one, other] => answer_texts(alloc, out, one, other),
        ["place", parts, key] => answer_place(alloc, out, parts, key, ""),
        ["place", parts, key, bucket] => answer_place(alloc, out, parts, key, bucket),
        ["kind", code] => answer_kind(out, code),
        ["fits", kind, op @ ..] => answer_fits(alloc, out, kind, op),
        [question, name, at, digits @ ..] => {
            answer_digits(alloc, out, question, name, number_of(at) as usize, digits)
        }
        _ => out.push_str("no line\n"),
    }
}

/// Answers a line of bytes.
fn answer_digits(
    alloc: Global,
    out: &mut String,
    question: &str,
    name: &str,
    at: usize,
    digits: &[&str],
) -> Result<(), AllocError> {
    let bytes = bytes_of(alloc, digits)?;
    match question {
        "form" => forms::answer(alloc, out, name, at, bytes.as_slice()),
        "bytes" => answer_bytes(alloc, out, name, at, bytes.as_slice()),
        _ => out.push_str("no line\n"),
    }
}

fn answer_bytes(
    alloc: Global,
    out: &mut String,
    kind: &str,
    at: usize,
    bytes: &[u8],
) -> Result<(), AllocError> {
    match kind_named(kind.as_bytes()) {
        Some(kind) => put_answers(alloc, out, kind, Question::Bytes(at, bytes)),
        None => out.push_str("no kind\n"),
    }
}

fn answer_texts(alloc: Global, out: &mut String, one: &str, other: &str) -> Result<(), AllocError> {
    let (Some(one), Some(other)) = (Text::of(alloc, one)?, Text::of(alloc, other)?) else {
        return out.push_str("no texts\n");
    };
    let mut list = ListOf::new(alloc);
    list.push(one.copy(alloc)?)?;
    let equal = list.as_slice() == [other].as_slice();
    writeln!(out, "equal: {equal}")
}

fn answer_place(
    alloc: Global,
    out: &mut String,
    parts: &str,
    key: &str,
    bucket: &str,
) -> Result<(), AllocError> {
    let (Some(key), Some(bucket)) = (Text::of(alloc, key)?, Text::of(alloc, bucket)?) else {
        return out.push_str("no texts\n");
    };
    let object = ObjectId {
        bucket,
        key,
        kind: Kind::CounterPn,
    };
    let parts = parts.parse::<u8>().unwrap_or(0);
    if parts == 0 {
        return out.push_str("no partitions\n");
    }
    writeln!(out, "{}", partition_of(&object.copy(alloc)?, parts))
}

fn answer_kind(out: &mut String, code: &str) -> Result<(), AllocError> {
    let Some(kind) = Kind::of_code(code.parse::<u8>().unwrap_or(0)) else {
        return out.push_str("no kind\n");
    };
    let name = kind_name(kind);
    let code = kind.code();
    writeln!(
        out,
        "{name}, code {code}, reads the state: {}",
        reads_state(kind)
    )
}

fn answer_fits(
    alloc: Global,
    out: &mut String,
    kind: &str,
    words: &[&str],
) -> Result<(), AllocError> {
    let Some(op) = op_of(alloc, words)? else {
        return out.push_str("no operation\n");
    };
    match kind_named(kind.as_bytes()) {
        Some(kind) => writeln!(out, "{}", fits(kind, &op)),
        None => out.push_str("no kind\n"),
    }
}
