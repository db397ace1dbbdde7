ghost use Rattle.std.specs.Prelude.{◌≡◌, IfOk};

use crate::Field;
use field_codec::{ListOf, Text};
use std::alloc::{AllocError, Global};
use std::collections::LinkedList;

/// What a read shows.
#[derive(Debug, Drop)]
pub enum Value {
    /// Of a counter.
    Int(i128),
    /// Of a flag.
    Flag(bool),
    /// Of a register of one text.
    Word(Text),
    /// Of a set or a register of several texts, sorted by their bytes.
    Words(ListOf<Text>),
    /// Of a map: its fields and their values, sorted as [`Field`] is. Contracts see the list itself.
    Fields(LinkedList<(Field, Value)>),
}

/// Equal texts.
fn copy_words(alloc: Global, words: &[Text]) -> Result<ListOf<Text>, AllocError>
    ensures { IfOk result (λ w. w ≡ words.now) }
{
    let mut all = ListOf::new(alloc);
    for word in words {
        all.push(word.copy(alloc)?)?;
    }
    Ok(all)
}

impl Value {
    /// An equal value.
    ///
    /// # Errors
    ///
    /// `AllocError` where memory runs out.
    #[cycle(copy)]
    pub fn copy(&self, alloc: Global) -> Result<Value, AllocError>
        ensures { IfOk result (λ v. v ≡ self.now) }
    {
        match self {
            Value::Int(n) => Ok(Value::Int(*n)),
            Value::Flag(b) => Ok(Value::Flag(*b)),
            Value::Word(word) => Ok(Value::Word(word.copy(alloc)?)),
            Value::Words(words) => Ok(Value::Words(copy_words(alloc, words.as_slice())?)),
            Value::Fields(members) => Ok(Value::Fields(copy_members(alloc, members)?)),
        }
    }
}

/// Equal fields with equal values.
#[cycle(copy)]
fn copy_members(
    alloc: Global,
    members: &LinkedList<(Field, Value)>,
) -> Result<LinkedList<(Field, Value)>, AllocError>
    ensures { IfOk result (λ v. v ≡ members.now) }
{
    let mut all = LinkedList::new(alloc);
    for (field, value) in members {
        let field = field.copy(alloc)?;
        let value = value.copy(alloc)?;
        all.push_back((field, value))?;
    }
    Ok(all)
}
