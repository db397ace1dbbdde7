ghost use Rattle.std.specs.Prelude.{◌≡◌, ◌==◌, List, true, OnOk, OnErr, IfOk};
ghost use Rattle.std.specs.FinMap as map;
ghost use Rattle.std.specs.Map.Iter.{ShowsInOrder, deref_pair};
ghost use Rattle.site_vector.specs.declared.ids.Dot.{Dot};
ghost use Rattle.site_vector.specs.Order.{dot_cmp};
ghost use Rattle.crdt_core.specs.Kept.{without, dots_of, has_marked, has_unmarked};

use crate::{Copied, Dots};
use site_vector::Dot;
use std::alloc::{AllocError, Global};
use std::collections::BTreeMap;
use std::collections::btree_map::Iter;
use std::marker::Model;

/// Values that updates put, each at the dot of its update, as long as no later update takes it out.
/// Contracts see it as a finite map from dots in their order.
#[derive(Drop)]
pub struct Kept<V> {
    entries: BTreeMap<Dot, V>,
}

impl<V> Model for Kept<V> {
    ghost use Rattle.std.specs.FinMap as map;
    ghost use Rattle.site_vector.specs.Order.{dot_cmp};
    ghost use Rattle.crdt_core.specs.DotCode.{coded_dot};

    ghost Value = { map.FinMap dot_cmp V };

    ghost coded = { map.code coded_dot V.code };

    ghost view = { λ a. map.from_entries a.entries.entries };
}

impl<V> Kept<V> {
    /// Nothing kept. Takes no memory.
    pub fn new(alloc: Global) -> Kept<V>
        ensures { result ≡ map.empty }
    {
        Kept {
            entries: BTreeMap::new(alloc),
        }
    }

    /// The values with their dots, in the order of the dots.
    pub fn iter(&self) -> Iter<'_, Dot, V>
        ensures rest { result ≡ map.entries self.now }
        ensures runs { ShowsInOrder (deref_pair {K = Dot} {X = V}) }
    {
        self.entries.iter()
    }

    /// Whether nothing is kept.
    pub fn is_empty(&self) -> bool
        ensures { result ≡ (map.len self.now == 0) }
    {
        self.entries.len() == 0
    }

    /// The dots, in order.
    ///
    /// # Errors
    ///
    /// `AllocError` where memory runs out.
    pub fn dots(&self, alloc: Global) -> Result<Dots, AllocError>
        ensures { IfOk result (λ d. d ≡ dots_of self.now) }
    {
        dots_in(alloc, &self.entries)
    }
}

impl<V: Drop> Kept<V> {
    /// Puts a value at a dot.
    ///
    /// # Errors
    ///
    /// `AllocError` where memory runs out. What is kept is as before then.
    pub fn put(&mut self, dot: Dot, value: V) -> Result<(), AllocError>
        ensures ok { OnOk result (self.new ≡ map.insert self.old dot value) }
        ensures err { OnErr result (self.new ≡ self.old) }
    {
        self.entries.insert(dot, value)?;
        Ok(())
    }

    /// Takes out what stands at these dots.
    pub fn take_out(&mut self, dots: &[Dot])
        ensures { self.new ≡ without self.old dots.now }
    {
        take_each(&mut self.entries, dots);
    }
}

impl Kept<bool> {
    /// Whether a mark is kept. Mostly the first of few is one, so that no more are gone through.
    pub fn has_marked(&self) -> bool
        ensures { result ≡ has_marked self.now }
    {
        if is_first_marked(&self.entries) {
            return true;
        }
        self.iter().any(|entry| *entry.1)
    }

    /// Whether something is kept without a mark.
    pub fn has_unmarked(&self) -> bool
        ensures { result ≡ has_unmarked self.now }
    {
        self.iter().any(|entry| !*entry.1)
    }
}

impl<V: Copied> Kept<V> {
    /// An equal map.
    ///
    /// # Errors
    ///
    /// `AllocError` where memory runs out.
    pub fn copy(&self) -> Result<Kept<V>, AllocError>
        ensures { IfOk result (λ k. k ≡ self.now) }
    {
        self.clone()
    }
}

/// A clone is an equal map.
impl<V: Copied> Clone for Kept<V> {
    ghost is_clone = { λ kept clone. clone ≡ kept };

    fn clone(&self) -> Result<Kept<V>, AllocError> {
        let entries = copy_entries(&self.entries)?;
        Ok(Kept { entries })
    }
}

fn dots_in<V>(alloc: Global, entries: &BTreeMap<Dot, V>) -> Result<Dots, AllocError>
    ensures { IfOk result (λ d. d ≡ dots_of (map.from_entries entries.now.entries)) }
{
    let dots: Vec<Dot> = entries.keys().copied().collect(alloc)?;
    Ok(Dots::of_ascending(dots))
}

/// Whether the first is a mark.
#[inline(always)]
fn is_first_marked(entries: &BTreeMap<Dot, bool>) -> bool
    ensures { result ≡ true → has_marked (map.from_entries entries.now.entries) ≡ true }
{
    if entries.len() == 0 {
        return false;
    }
    match entries.first_key_value() {
        Some((_dot, mark)) => *mark,
        None => false,
    }
}

fn take_each<V: Drop>(entries: &mut BTreeMap<Dot, V>, dots: &[Dot])
    ensures { map.from_entries {R = dot_cmp} entries.new.entries ≡ without (map.from_entries entries.old.entries) dots.now }
{
    for dot in dots {
        entries.remove(dot);
    }
}

/// An equal tree, made node by node.
fn copy_entries<V: Copied>(entries: &BTreeMap<Dot, V>) -> Result<BTreeMap<Dot, V>, AllocError>
    ensures { IfOk result (λ m. m.entries ≡ entries.now.entries) }
{
    let copied = entries.clone()?;
    Ok(copied)
}
