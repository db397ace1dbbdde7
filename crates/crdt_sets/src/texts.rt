ghost use Rattle.std.specs.Prelude.{◌≡◌, OnOk, OnErr, IfOk};
ghost use Rattle.std.specs.FinMap as map;
ghost use Rattle.std.specs.List.Sorted.{IsStrictlySortedBy};
ghost use Rattle.crdt_core.specs.Texts.{text_cmp, ascending};
ghost use Rattle.crdt_meanings.specs.SetGo.{has_none, with_each};

use field_codec::{ListOf, Text};
use std::alloc::{AllocError, Global};
use std::collections::BTreeSet;
use std::marker::Model;

/// A set of texts, in the order of their bytes. Contracts see it as a finite map to nothing.
#[derive(Drop)]
pub struct TextSet {
    texts: BTreeSet<Text>,
}

impl Model for TextSet {
    ghost use Rattle.std.specs.FinMap as map;
    ghost use Rattle.crdt_sets.specs.TextCode.{coded_text, coded_nothing};
    ghost use Rattle.crdt_core.specs.Texts.{text_cmp, marked};

    ghost Value = { map.FinMap text_cmp (Unit {0}) };

    ghost coded = { map.code coded_text coded_nothing };

    ghost view = { λ a. map.from_entries (marked a.texts.keys) };
}

impl TextSet {
    /// The empty set. Takes no memory.
    pub fn new(alloc: Global) -> TextSet
        ensures { result ≡ map.empty }
    {
        TextSet {
            texts: BTreeSet::new(alloc),
        }
    }

    /// Puts a text in.
    ///
    /// # Errors
    ///
    /// `AllocError` where memory runs out. The set is as before then.
    pub fn insert(&mut self, text: Text) -> Result<(), AllocError>
        ensures ok { OnOk result (self.new ≡ map.insert self.old text tt) }
        ensures err { OnErr result (self.new ≡ self.old) }
    {
        self.texts.insert(text)?;
        Ok(())
    }

    /// Whether no text is in.
    pub fn is_empty(&self) -> bool
        ensures { result ≡ has_none self.now }
    {
        self.texts.len() == 0
    }

    /// The texts, in order.
    ///
    /// # Errors
    ///
    /// `AllocError` where memory runs out.
    pub fn to_list(&self, alloc: Global) -> Result<ListOf<Text>, AllocError>
        ensures { IfOk result (λ l. l ≡ map.keys self.now) }
    {
        list_of(alloc, &self.texts)
    }

    /// An equal set.
    ///
    /// # Errors
    ///
    /// `AllocError` where memory runs out.
    pub fn copy(&self) -> Result<TextSet, AllocError>
        ensures { IfOk result (λ s. s ≡ self.now) }
    {
        let texts = copy_tree(&self.texts)?;
        Ok(TextSet { texts })
    }
}

/// Puts each of the texts in.
///
/// # Errors
///
/// `AllocError` where memory runs out.
pub fn insert_each(alloc: Global, set: &mut TextSet, texts: &[Text]) -> Result<(), AllocError>
    ensures { OnOk result (set.new ≡ with_each set.old texts.now) }
{
    for text in texts {
        set.insert(text.copy(alloc)?)?;
    }
    Ok(())
}

/// The texts of a list, each once, in order.
///
/// # Errors
///
/// `AllocError` where memory runs out.
#[tactic(auto, using(crate::proofs::Lists::each_ascending))]
pub fn in_order(alloc: Global, texts: &[Text]) -> Result<ListOf<Text>, AllocError>
    ensures { IfOk result (λ l. l ≡ ascending texts.now) }
{
    let mut set = TextSet::new(alloc);
    insert_each(alloc, &mut set, texts)?;
    set.to_list(alloc)
}

/// An equal list.
///
/// # Errors
///
/// `AllocError` where memory runs out.
pub fn copy_texts(alloc: Global, texts: &[Text]) -> Result<ListOf<Text>, AllocError>
    ensures { IfOk result (λ l. l ≡ texts.now) }
{
    let mut copied = ListOf::with_capacity(alloc, texts.len())?;
    for text in texts {
        copied.push(text.copy(alloc)?)?;
    }
    Ok(copied)
}

fn list_of(alloc: Global, texts: &BTreeSet<Text>) -> Result<ListOf<Text>, AllocError>
    ensures { IfOk result (λ l. l ≡ ascending texts.now.keys) }
{
    let mut list = ListOf::with_capacity(alloc, texts.len())?;
    for text in texts.iter() {
        list.push(text.copy(alloc)?)?;
    }
    Ok(list)
}

/// An equal tree, made node by node.
fn copy_tree(texts: &BTreeSet<Text>) -> Result<BTreeSet<Text>, AllocError>
    ensures { IfOk result (λ t. t.keys ≡ texts.now.keys) }
{
    let copied = texts.clone()?;
    Ok(copied)
}
