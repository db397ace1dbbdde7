// Operations, as `x:map_rr/y:set_aw add milk tea`. The path `.` has no field.
use crate::words::field_of;
use crdt_core::{Act, Field, Op};
use field_codec::{ListOf, Text};
use std::alloc::{AllocError, Global};

fn path_of(alloc: Global, word: &str) -> Result<Option<ListOf<Field>>, AllocError> {
    let mut path = ListOf::new(alloc);
    if word == "." {
        return Ok(Some(path));
    }
    for piece in word.as_bytes().split(|byte| *byte == b'/') {
        let Some(field) = field_of(alloc, str::from_utf8(piece).unwrap_or(""))? else {
            return Ok(None);
        };
        path.push(field)?;
    }
    Ok(Some(path))
}

/// The texts, which may be none, as no script can say.
fn texts_of(alloc: Global, words: &[&str]) -> Result<Option<ListOf<Text>>, AllocError> {
    let mut texts = ListOf::new(alloc);
    for word in words {
        let Some(text) = Text::of(alloc, word)? else {
            return Ok(None);
        };
        texts.push(text)?;
    }
    Ok(Some(texts))
}

/// An act without a text.
fn plain(name: &str, words: &[&str]) -> Option<Act> {
    match (name, words) {
        ("increment", [amount]) => Some(Act::Increment(amount.parse::<i32>().ok()?)),
        ("decrement", [amount]) => Some(Act::Decrement(amount.parse::<i32>().ok()?)),
        ("reset", []) => Some(Act::Reset),
        ("enable", []) => Some(Act::Enable),
        ("disable", []) => Some(Act::Disable),
        _ => None,
    }
}

/// An act with texts.
fn act_of(alloc: Global, name: &str, words: &[&str]) -> Result<Option<Act>, AllocError> {
    match (name, words) {
        ("add", _) => Ok(texts_of(alloc, words)?.map(Act::Add)),
        ("remove", _) => Ok(texts_of(alloc, words)?.map(Act::Remove)),
        ("assign", [text]) => Ok(Text::of(alloc, text)?.map(Act::Assign)),
        ("drop", [field]) => Ok(field_of(alloc, field)?.map(Act::DropField)),
        _ => Ok(plain(name, words)),
    }
}

/// The operation of these words.
pub(crate) fn op_of(alloc: Global, words: &[&str]) -> Result<Option<Op>, AllocError> {
    let [path, name, words @ ..] = words else {
        return Ok(None);
    };
    let Some(path) = path_of(alloc, path)? else {
        return Ok(None);
    };
    let Some(act) = act_of(alloc, name, words)? else {
        return Ok(None);
    };
    Ok(Some(Op { path, act }))
}
