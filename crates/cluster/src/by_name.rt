ghost use Rattle.std.specs.Prelude.{◌≡◌, ◌<◌, ◌+◌, ℕ, List, Some, None, IfSome, OnOk, is_some, true, [], length, if◌then◌else◌, position};
ghost use Rattle.std.specs.Str.{bytes_eq};
ghost use Rattle.std.specs.Map.{lookup, keys_of};
ghost use Rattle.std.specs.Option.{option_copied, option_copied_mut};

use field_codec::Text;
use indexmap::IndexMap;
use std::alloc::{AllocError, Global};
use std::marker::Model;

/// Values by their names.
///
/// Most look-ups are of the name that was written last, so its place is tried before a name is hashed.
#[derive(Drop)]
pub(crate) struct ByName<V> {
    all: IndexMap<Text, V>,
    /// A place to try first: any will do, since the name there is compared.
    recent: usize,
}

impl<V> Model for ByName<V> {
    ghost use Rattle.cluster.specs.Named.{Named};

    ghost Value = { Named V };

    ghost view = { λ s. record { entries = s.all.entries } };
}

impl<V: Drop> ByName<V> {
    ghost use Rattle.std.specs.Borrow.{sem};
    ghost use Rattle.cluster.specs.Lends.{lends};

    /// None. Takes no memory.
    pub(crate) fn new(alloc: Global) -> ByName<V>
        ensures { result.entries ≡ [] }
    {
        ByName {
            all: IndexMap::new(alloc),
            recent: 0,
        }
    }

    /// How many there are.
    pub(crate) fn len(&self) -> usize
        ensures { result ≡ length self.now.entries }
    {
        self.all.len()
    }

    /// Whether there is one of this name.
    #[tactic(auto, using(crate::proofs::Places::is_there))]
    pub(crate) fn contains_key(&self, name: &Text) -> bool
        ensures { result ≡ is_some (lookup (bytes_eq name.now) self.now.entries) }
    {
        self.place_of(name).is_some()
    }

    /// The value of this name.
    #[tactic(auto, using(crate::proofs::Places::found, crate::proofs::Places::missing))]
    pub(crate) fn get(&self, name: &Text) -> Option<&V>
        ensures { option_copied result ≡ lookup (bytes_eq name.now) self.now.entries }
    {
        match self.place_of(name) {
            Some(place) => Some(&self.all[place]),
            None => None,
        }
    }

    /// The value of this name, to write. Its place is remembered.
    pub(crate) fn get_mut(&mut self, name: &Text) -> Option<&mut V>
        ensures* writes_back { sem 𝓛 (lends V.row self.entry name.now result) }
        ensures value { option_copied_mut result ≡ lookup (bytes_eq name.now) self.old.entries }
    {
        match self.place_of(name) {
            Some(place) => {
                self.recent = place;
                Some(&mut self.all[place])
            }
            None => None,
        }
    }

    /// Adds a value whose name is new.
    pub(crate) fn insert(&mut self, name: Text, value: V) -> Result<(), AllocError>
        requires { lookup (bytes_eq name) self.old.entries ≡ None }
        ensures find { OnOk result ((who : List ℕ) → lookup (bytes_eq who) self.new.entries ≡ (if bytes_eq name who then Some value else lookup (bytes_eq who) self.old.entries)) }
        ensures count { OnOk result (length self.new.entries ≡ length self.old.entries + 1) }
    {
        self.all.insert(name, value)?;
        Ok(())
    }

    /// Removes a value that is there.
    pub(crate) fn remove(&mut self, name: &Text)
        requires { is_some (lookup (bytes_eq name.now) self.old.entries) ≡ true }
        ensures find { (who : List ℕ) → lookup (bytes_eq who) self.new.entries ≡ (if bytes_eq name.now who then None else lookup (bytes_eq who) self.old.entries) }
        ensures count { length self.new.entries + 1 ≡ length self.old.entries }
    {
        let _ = self.all.shift_remove(name);
    }

    /// Where the value of this name stands.
    fn place_of(&self, name: &Text) -> Option<usize>
        ensures place { result ≡ position (bytes_eq name.now) (keys_of self.now.entries) }
        ensures within { IfSome result (λ i. i < length self.now.entries) }
    {
        place_from(&self.all, self.recent, name)
    }
}

/// Where the value of this name stands, if a place is tried first.
#[tactic(auto, using(crate::proofs::Places::placed))]
fn place_from<V>(all: &IndexMap<Text, V>, first: usize, name: &Text) -> Option<usize>
    ensures place { result ≡ position (bytes_eq name.now) (keys_of all.now.entries) }
    ensures within { IfSome result (λ i. i < length all.now.entries) }
{
    if let Some((key, _)) = all.as_slice().get_index(first) {
        if key == name {
            return Some(first);
        }
    }
    all.get_index_of(name)
}
