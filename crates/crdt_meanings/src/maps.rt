ghost use Rattle.std.specs.Prelude.{◌≡◌, IfOk};

use crdt_core::Field;
use field_codec::ListOf;
use std::alloc::{AllocError, Global};
use std::marker::Model;

/// What an update of a map does, where `E` are the effects of its fields.
#[derive(Drop)]
pub enum MapEffect<E> {
    /// An update of one field.
    At(Field, E),
    /// A reset or a drop: what it undoes of each field, ascending by field.
    Resets(ListOf<(Field, E)>),
}

/// A value in memory of its own, which contracts see as the value.
#[derive(Drop)]
pub struct Boxed<T> {
    inner: Box<T>,
}

impl<T> Model for Boxed<T> {
    ghost Value = { T };

    ghost coded = { T.code };

    ghost view = { λ b. b.inner.value };
}

impl<T> Boxed<T> {
    /// The value.
    pub fn get(&self) -> &T
        ensures { result.now ≡ self.now }
    {
        &self.inner
    }
}

impl<T: Drop> Boxed<T> {
    /// The value in memory of its own.
    ///
    /// # Errors
    ///
    /// `AllocError` where memory runs out. The value is dropped then.
    pub fn new(alloc: Global, value: T) -> Result<Boxed<T>, AllocError>
        ensures { IfOk result (λ b. b ≡ value) }
    {
        Ok(Boxed {
            inner: Box::new(alloc, value)?,
        })
    }
}
