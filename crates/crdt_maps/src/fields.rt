ghost use Rattle.std.specs.Prelude.{◌≡◌, ◌==◌, Option, OnOk, OnErr, IfOk};
ghost use Rattle.std.specs.Option.{option_copied};
ghost use Rattle.std.specs.FinMap as map;
ghost use Rattle.std.specs.Map.Iter.{ShowsInOrder, deref_pair};
ghost use Rattle.std.specs.BTreeMap.{IsFromIterResult};
ghost use Rattle.crdt_core.specs.declared.object.Field.{Field};
ghost use Rattle.crdt_core.specs.FieldOrder.{field_cmp};
ghost use Rattle.crdt_maps.specs.Filled.{filled};

use crdt_core::Field;
use std::alloc::{AllocError, Global};
use std::collections::BTreeMap;
use std::collections::btree_map::Iter;
use std::marker::Model;

/// The updated fields of a map, each with its state. Contracts see it as a finite map from fields in their order.
#[derive(Drop)]
pub struct Fields<S> {
    fields: BTreeMap<Field, S>,
}

impl<S> Model for Fields<S> {
    ghost use Rattle.std.specs.FinMap as map;
    ghost use Rattle.crdt_core.specs.FieldOrder.{field_cmp, coded_field};

    ghost Value = { map.FinMap field_cmp S };

    ghost coded = { map.code coded_field S.code };

    ghost view = { λ a. map.from_entries a.fields.entries };
}

impl<S> Fields<S> {
    /// No field. Takes no memory.
    pub fn new(alloc: Global) -> Fields<S>
        ensures { result ≡ map.empty }
    {
        Fields {
            fields: BTreeMap::new(alloc),
        }
    }

    /// How many fields there are.
    pub fn len(&self) -> usize
        ensures { result ≡ map.len self.now }
    {
        self.fields.len()
    }

    /// Whether there is no field.
    pub fn is_empty(&self) -> bool
        ensures { result ≡ (map.len self.now == 0) }
    {
        self.fields.len() == 0
    }

    /// The fields with their states, in order.
    pub fn iter(&self) -> Iter<'_, Field, S>
        ensures rest { result ≡ map.entries self.now }
        ensures runs { ShowsInOrder (deref_pair {K = Field} {X = S}) }
    {
        self.fields.iter()
    }

    /// The state of a field, if it has one.
    pub fn get(&self, field: &Field) -> Option<&S>
        ensures { option_copied result ≡ map.get self.now field.now }
    {
        self.fields.get(field)
    }
}

impl<S: Drop> Fields<S> {
    /// The listed fields with their states: of a field that is listed twice, the state that is listed last. Takes a time
    /// that is linear in the list where it ascends.
    ///
    /// # Errors
    ///
    /// `AllocError` where memory runs out.
    pub fn of_list(alloc: Global, listed: Vec<(Field, S)>) -> Result<Fields<S>, AllocError>
        ensures { IfOk result (λ f. f ≡ filled map.empty listed.items) }
    {
        let fields = tree_of(alloc, listed)?;
        Ok(Fields { fields })
    }

    /// Puts a field with its state.
    ///
    /// # Errors
    ///
    /// `AllocError` where memory runs out. The fields are as before then.
    pub fn put(&mut self, field: Field, state: S) -> Result<(), AllocError>
        ensures ok { OnOk result (self.new ≡ map.insert self.old field state) }
        ensures err { OnErr result (self.new ≡ self.old) }
    {
        self.fields.insert(field, state)?;
        Ok(())
    }

    /// Takes a field out, and gives its state if it had one.
    pub fn take(&mut self, field: &Field) -> Option<S>
        ensures state { result ≡ map.get self.old field.now }
        ensures gone { self.new ≡ map.remove self.old field.now }
    {
        self.fields.remove(field)
    }
}

/// A tree made of a list at once.
fn tree_of<S: Drop>(
    alloc: Global,
    listed: Vec<(Field, S)>,
) -> Result<BTreeMap<Field, S>, AllocError>
    ensures { IfOk result (IsFromIterResult field_cmp listed.items) }
{
    listed.into_iter().collect(alloc)
}
