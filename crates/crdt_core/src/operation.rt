use crate::Field;
use field_codec::{ListOf, Text};

/// What an operation does to the object or field that its path leads to.
#[derive(Debug, Drop)]
pub enum Act {
    /// Of a counter, by this amount.
    Increment(i32),
    /// Of a counter, by this amount.
    Decrement(i32),
    /// Of a set.
    Add(ListOf<Text>),
    /// Of a set.
    Remove(ListOf<Text>),
    /// Undoes the updates that were seen.
    Reset,
    /// Of a flag.
    Enable,
    /// Of a flag.
    Disable,
    /// Of a register.
    Assign(Text),
    /// Of a map: undoes the updates of the field that were seen.
    DropField(Field),
}

/// An operation on an object: the fields that lead to what it changes, and the act there.
#[derive(Debug, Drop)]
pub struct Op {
    pub path: ListOf<Field>,
    pub act: Act,
}
