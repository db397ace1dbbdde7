use crdt_core::{Field, Kind, Value};
use field_codec::{ListOf, Text};
use std::alloc::{AllocError, Global};
use std::collections::LinkedList;

/// The text, which has at most 256 bytes.
fn text_of(alloc: Global, text: &str) -> Result<Text, AllocError> {
    match Text::of(alloc, text)? {
        Some(text) => Ok(text),
        None => Err(AllocError),
    }
}

/// A quote, a line feed, and two texts that need quotes or not.
fn words(alloc: Global) -> Result<Value, AllocError> {
    let mut all = ListOf::new(alloc);
    all.push(text_of(alloc, "\n")?)?;
    all.push(text_of(alloc, "\"")?)?;
    all.push(text_of(alloc, "oat milk")?)?;
    all.push(text_of(alloc, "tea")?)?;
    Ok(Value::Words(all))
}

/// A value of a kind that is no map.
fn leaf(alloc: Global, kind: Kind) -> Result<Value, AllocError> {
    match kind {
        Kind::CounterPn => Ok(Value::Int(1_000_000)),
        Kind::CounterFat => Ok(Value::Int(-5)),
        Kind::FlagEw => Ok(Value::Flag(true)),
        Kind::FlagDw => Ok(Value::Flag(false)),
        Kind::RegisterLww => Ok(Value::Word(text_of(alloc, "a\\b")?)),
        _ => words(alloc),
    }
}

/// Adds a field to a map's value.
fn push_field(
    alloc: Global,
    fields: &mut LinkedList<(Field, Value)>,
    name: &str,
    kind: Kind,
) -> Result<(), AllocError> {
    let name = text_of(alloc, name)?;
    let value = leaf(alloc, kind)?;
    fields.push_back((Field { name, kind }, value))?;
    Ok(())
}

/// The value of a map of three fields, in another order than that of their members' names.
fn fields(alloc: Global) -> Result<Value, AllocError> {
    let mut fields = LinkedList::new(alloc);
    push_field(alloc, &mut fields, "b", Kind::SetAw)?;
    push_field(alloc, &mut fields, "a \"", Kind::SetRw)?;
    push_field(alloc, &mut fields, "c", Kind::CounterFat)?;
    Ok(Value::Fields(fields))
}

/// A value of the kind.
pub fn value_of(alloc: Global, kind: Kind) -> Result<Value, AllocError> {
    match kind {
        Kind::MapGo => Ok(Value::Fields(LinkedList::new(alloc))),
        Kind::MapRr => fields(alloc),
        _ => leaf(alloc, kind),
    }
}
