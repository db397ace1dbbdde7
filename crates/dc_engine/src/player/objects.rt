use crdt_any::Any;

/// The kinds of objects that the program has. To the contracts they are the `kinds` of specs/ObjectKinds.
pub(crate) type Objects = Any;
