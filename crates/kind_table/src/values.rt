// What a read shows.
use crdt_core::{Field, Value};
use field_codec::Text;
use script_words::kind_name;
use std::alloc::AllocError;
use std::collections::LinkedList;

fn put_words(out: &mut String, words: &[Text]) -> Result<(), AllocError> {
    out.push('[')?;
    for (i, word) in words.iter().enumerate() {
        if i > 0 {
            out.push(' ')?;
        }
        out.push_str(word.as_str())?;
    }
    out.push(']')
}

#[cycle(shown)]
fn put_fields(out: &mut String, fields: &LinkedList<(Field, Value)>) -> Result<(), AllocError> {
    out.push('{')?;
    let mut later = false;
    for (field, value) in fields {
        if later {
            out.push(' ')?;
        }
        later = true;
        write!(out, "{}:{} ", field.name.as_str(), kind_name(field.kind))?;
        put_value(out, value)?;
    }
    out.push('}')
}

/// Adds the value: a number, `true` or `false`, a text, `[texts]` or `{name:kind value ..}`.
#[cycle(shown)]
pub(crate) fn put_value(out: &mut String, value: &Value) -> Result<(), AllocError> {
    match value {
        Value::Int(n) => write!(out, "{n}"),
        Value::Flag(on) => write!(out, "{on}"),
        Value::Word(word) => out.push_str(word.as_str()),
        Value::Words(words) => put_words(out, words.as_slice()),
        Value::Fields(fields) => put_fields(out, fields),
    }
}
