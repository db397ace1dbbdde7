ghost use Rattle.std.specs.Prelude.{◌≡◌, ◌++◌, ◌∷◌, [], true, IfOk};
ghost use Rattle.crdt_meanings.specs.Maps as spec;

use crate::Fields;
use crdt_core::{Crdt, Field, Kind, Value};
use std::alloc::{AllocError, Global};
use std::collections::LinkedList;

/// The kind of the maps whose fields can be dropped, or stay.
pub(crate) fn kind_of(drops: bool) -> Kind
    ensures { result ≡ spec.map_kind drops }
{
    if drops { Kind::MapRr } else { Kind::MapGo }
}

/// The fields with their values, in order: where fields can be dropped, only those whose values aren't empty.
///
/// # Errors
///
/// `AllocError` where memory runs out.
pub fn shown<I: Crdt>(
    alloc: Global,
    drops: bool,
    fields: &Fields<I::State>,
) -> Result<LinkedList<(Field, Value)>, AllocError>
    ensures { IfOk result (λ l. l ≡ spec.shown drops (spec.members I.value_of fields.now)) }
{
    let mut all = LinkedList::new(alloc);
    for (field, state) in fields.iter() {
        let value = I::value(alloc, state)?;
        if !(drops && is_empty(&value)) {
            all.push_back((field.copy(alloc)?, value))?;
        }
    }
    Ok(all)
}

/// Whether it is the value of an object that nothing updated.
fn is_empty(value: &Value) -> bool
    ensures { result ≡ spec.is_empty value.now }
{
    match value {
        Value::Int(n) => *n == 0,
        Value::Flag(b) => !*b,
        Value::Word(word) => word.as_str().is_empty(),
        Value::Words(words) => words.as_slice().is_empty(),
        Value::Fields(members) => members.is_empty(),
    }
}

/// Whether nothing is left of any field.
pub fn all_blank<I: Crdt>(fields: &Fields<I::State>) -> bool
    ensures { result ≡ spec.map_blank true I.is_blank fields.now }
{
    for (_field, state) in fields.iter() {
        if !I::is_blank(state) {
            return false;
        }
    }
    true
}
