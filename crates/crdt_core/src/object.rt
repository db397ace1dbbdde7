ghost use Rattle.std.specs.Prelude.{◌≡◌, IfOk};
ghost use Rattle.std.specs.Ordering.{as_partial_cmp};
ghost use Rattle.std.specs.Cmp.{partial_order_from_own_ties};
ghost use Rattle.std.specs.Cmp.Rules.{comparing};
ghost use Rattle.std.proofs.Common.{rules};
ghost use Rattle.crdt_core.specs.Kinds.{same_field};
ghost use Rattle.crdt_core.specs.FieldOrder.{field_cmp, field_order};

use crate::Kind;
use field_codec::Text;
use std::alloc::{AllocError, Global};
use std::cmp::Ordering;

/// A field of a map. Two fields that differ in name or kind are different fields.
#[derive(Debug, Drop)]
pub struct Field {
    pub name: Text,
    pub kind: Kind,
}

impl Field {
    /// An equal field.
    ///
    /// # Errors
    ///
    /// `AllocError` where memory runs out.
    pub fn copy(&self, alloc: Global) -> Result<Field, AllocError>
        ensures { IfOk result (λ f. f ≡ self.now) }
    {
        let name = self.name.copy(alloc)?;
        Ok(Field {
            name,
            kind: self.kind,
        })
    }
}

impl PartialEq for Field {
    ghost eq = { same_field };

    ghost laws = { Prim.search (comparing, rules, field_order) };

    fn eq(&self, other: &Field) -> bool {
        self.name == other.name && self.kind.code() == other.kind.code()
    }
}

impl Eq for Field {
    ghost laws = { Prim.search (comparing, rules, field_order) };
}

impl Ord for Field {
    ghost cmp = { field_cmp };

    ghost total = { Prim.search (comparing, rules, field_order) };

    ghost matches_partial_cmp = { Prim.search (comparing, rules, field_order) };

    ghost matches_eq = { Prim.search (comparing, rules, field_order) };

    /// By name, and then by the kinds' codes.
    fn cmp(&self, other: &Field) -> Ordering {
        let by_kind = self.kind.code().cmp(&other.kind.code());
        self.name.cmp(&other.name).then(by_kind)
    }
}

impl PartialOrd for Field {
    ghost partial_cmp = { as_partial_cmp field_cmp };

    ghost laws = { partial_order_from_own_ties (Prim.search (comparing, rules, field_order)) (Prim.search (comparing, rules, field_order)) };

    fn partial_cmp(&self, other: &Field) -> Option<Ordering> {
        Some(self.cmp(other))
    }
}

/// The name of an object. Objects that differ in bucket, key or kind are different objects. Keys, which differ most often, are
/// compared first.
#[derive(Debug, PartialEq, Eq, Hash, Drop)]
pub struct ObjectId {
    pub key: Text,
    pub bucket: Text,
    pub kind: Kind,
}

impl ObjectId {
    /// An equal name.
    ///
    /// # Errors
    ///
    /// `AllocError` where memory runs out.
    pub fn copy(&self, alloc: Global) -> Result<ObjectId, AllocError>
        ensures { IfOk result (λ o. o ≡ self.now) }
    {
        let bucket = self.bucket.copy(alloc)?;
        let key = self.key.copy(alloc)?;
        Ok(ObjectId {
            bucket,
            key,
            kind: self.kind,
        })
    }
}
