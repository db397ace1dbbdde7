ghost use Rattle.std.specs.Prelude.{◌≡◌, ◌++◌, Option, Bool, OnOk, IfOk};
ghost use Rattle.std.specs.FinMap as map;
ghost use Rattle.crdt_core.specs.Texts.{text_cmp};
ghost use Rattle.crdt_core.specs.Kept.{kept_step, dots_of};
ghost use Rattle.crdt_meanings.specs.Elements as spec;

use crate::Named;
use crdt_core::{Dots, Kept};
use field_codec::{ListOf, Text};
use site_vector::Dot;
use std::alloc::{AllocError, Global};
use std::collections::BTreeMap;
use std::marker::Model;

/// Of each element, what no later update has taken out. An element of which nothing is kept doesn't stand.
#[derive(Drop)]
pub struct Elements {
    elements: BTreeMap<Text, Kept<bool>>,
}

impl Model for Elements {
    ghost use Rattle.std.specs.Prelude.{Bool};
    ghost use Rattle.std.specs.FinMap as map;
    ghost use Rattle.std.specs.Coded.{coded_bool};
    ghost use Rattle.site_vector.specs.Order.{dot_cmp};
    ghost use Rattle.crdt_core.specs.DotCode.{coded_dot};
    ghost use Rattle.crdt_sets.specs.TextCode.{coded_text};
    ghost use Rattle.crdt_core.specs.Texts.{text_cmp};

    ghost Value = { map.FinMap text_cmp (map.FinMap dot_cmp Bool) };

    ghost coded = { map.code coded_text (map.code coded_dot coded_bool) };

    ghost view = { λ a. map.from_entries a.elements.entries };
}

impl Elements {
    /// No element. Takes no memory.
    pub fn new(alloc: Global) -> Elements
        ensures { result ≡ map.empty }
    {
        Elements {
            elements: BTreeMap::new(alloc),
        }
    }

    /// Whether no element stands.
    pub fn is_empty(&self) -> bool
        ensures { result ≡ spec.lacks_all self.now }
    {
        self.elements.len() == 0
    }

    /// Of each named element, takes out what stands at its dots and puts a value at this one, where there is one.
    ///
    /// # Errors
    ///
    /// `AllocError` where memory runs out. The elements may only be dropped then.
    pub fn take_named(
        &mut self,
        alloc: Global,
        dot: Dot,
        own: Option<bool>,
        named: &[Named],
    ) -> Result<(), AllocError>
        ensures { OnOk result (self.new ≡ spec.take_named self.old dot own named.now) }
    {
        take_each(alloc, &mut self.elements, dot, own, named)
    }

    /// The texts with the dots that are kept of them.
    ///
    /// # Errors
    ///
    /// `AllocError` where memory runs out.
    pub fn named_at(&self, alloc: Global, texts: &[Text]) -> Result<ListOf<Named>, AllocError>
        ensures { IfOk result (λ l. l ≡ spec.named_at self.now texts.now) }
    {
        named_in(alloc, &self.elements, texts)
    }

    /// The elements, in order.
    ///
    /// # Errors
    ///
    /// `AllocError` where memory runs out.
    pub fn texts(&self, alloc: Global) -> Result<ListOf<Text>, AllocError>
        ensures { IfOk result (λ l. l ≡ map.keys self.now) }
    {
        texts_in(alloc, &self.elements)
    }

    /// The elements that are shown, in order. Where removes win, one of which a remove is kept isn't.
    ///
    /// # Errors
    ///
    /// `AllocError` where memory runs out.
    pub fn shown(&self, alloc: Global, removes_win: bool) -> Result<ListOf<Text>, AllocError>
        ensures { IfOk result (λ l. l ≡ spec.passing (spec.shows removes_win) self.now) }
    {
        shown_in(alloc, &self.elements, removes_win)
    }

    /// Equal elements.
    ///
    /// # Errors
    ///
    /// `AllocError` where memory runs out.
    pub fn copy(&self) -> Result<Elements, AllocError>
        ensures { IfOk result (λ e. e ≡ self.now) }
    {
        let elements = copy_elements(&self.elements)?;
        Ok(Elements { elements })
    }
}

fn take_each(
    alloc: Global,
    elements: &mut BTreeMap<Text, Kept<bool>>,
    dot: Dot,
    own: Option<bool>,
    named: &[Named],
) -> Result<(), AllocError>
    ensures { OnOk result (map.from_entries {R = text_cmp} elements.new.entries ≡ spec.take_named (map.from_entries elements.old.entries) dot own named.now) }
{
    for one in named {
        take_one(alloc, elements, dot, own, one)?;
    }
    Ok(())
}

fn take_one(
    alloc: Global,
    elements: &mut BTreeMap<Text, Kept<bool>>,
    dot: Dot,
    own: Option<bool>,
    named: &Named,
) -> Result<(), AllocError>
    ensures { OnOk result (map.from_entries {R = text_cmp} elements.new.entries ≡ spec.take_one (map.from_entries elements.old.entries) dot own named.now) }
{
    let mut kept = taken(alloc, elements, &named.text);
    step(alloc, &mut kept, dot, own, named.dots.as_slice())?;
    put_back(alloc, elements, &named.text, kept)
}

/// What is kept of an element, which no longer stands.
fn taken(alloc: Global, elements: &mut BTreeMap<Text, Kept<bool>>, text: &Text) -> Kept<bool>
    ensures kept { result ≡ spec.at (map.from_entries elements.old.entries) text.now }
    ensures gone { map.from_entries {R = text_cmp} elements.new.entries ≡ map.remove (map.from_entries elements.old.entries) text.now }
{
    match elements.remove(text) {
        Some(kept) => kept,
        None => Kept::new(alloc),
    }
}

fn step(
    alloc: Global,
    kept: &mut Kept<bool>,
    dot: Dot,
    own: Option<bool>,
    dots: &[Dot],
) -> Result<(), AllocError>
    ensures { OnOk result (kept.new ≡ kept_step kept.old dot dots.now own) }
{
    kept.take_out(dots);
    match own {
        Some(mark) => kept.put(dot, mark),
        None => Ok(()),
    }
}

/// Puts what is kept of an element back, where something is.
fn put_back(
    alloc: Global,
    elements: &mut BTreeMap<Text, Kept<bool>>,
    text: &Text,
    kept: Kept<bool>,
) -> Result<(), AllocError>
    ensures { (m : spec.Elements) → map.from_entries elements.old.entries ≡ map.remove m text.now → OnOk result (map.from_entries elements.new.entries ≡ spec.put_back m text.now kept) }
{
    if kept.is_empty() {
        return Ok(());
    }
    elements.insert(text.copy(alloc)?, kept)?;
    Ok(())
}

fn named_in(
    alloc: Global,
    elements: &BTreeMap<Text, Kept<bool>>,
    texts: &[Text],
) -> Result<ListOf<Named>, AllocError>
    ensures { IfOk result (λ l. l ≡ spec.named_at (map.from_entries elements.now.entries) texts.now) }
{
    let mut named = ListOf::new(alloc);
    for text in texts {
        named.push(Named {
            text: text.copy(alloc)?,
            dots: dots_in(alloc, elements, text)?,
        })?;
    }
    Ok(named)
}

fn dots_in(
    alloc: Global,
    elements: &BTreeMap<Text, Kept<bool>>,
    text: &Text,
) -> Result<Dots, AllocError>
    ensures { IfOk result (λ d. d ≡ dots_of (spec.at (map.from_entries elements.now.entries) text.now)) }
{
    match elements.get(text) {
        Some(kept) => kept.dots(alloc),
        None => Ok(Dots::new(alloc)),
    }
}

fn texts_in(
    alloc: Global,
    elements: &BTreeMap<Text, Kept<bool>>,
) -> Result<ListOf<Text>, AllocError>
    ensures { IfOk result (λ l. l ≡ map.keys (map.from_entries {R = text_cmp} elements.now.entries)) }
{
    let mut texts = ListOf::with_capacity(alloc, elements.len())?;
    for text in elements.keys() {
        texts.push(text.copy(alloc)?)?;
    }
    Ok(texts)
}

fn shown_in(
    alloc: Global,
    elements: &BTreeMap<Text, Kept<bool>>,
    removes_win: bool,
) -> Result<ListOf<Text>, AllocError>
    ensures { IfOk result (λ l. l ≡ spec.passing (spec.shows removes_win) (map.from_entries elements.now.entries)) }
{
    let mut texts = ListOf::with_capacity(alloc, elements.len())?;
    for (text, kept) in elements.iter() {
        if shows(removes_win, kept) {
            texts.push(text.copy(alloc)?)?;
        }
    }
    Ok(texts)
}

fn shows(removes_win: bool, kept: &Kept<bool>) -> bool
    ensures { result ≡ spec.shows removes_win kept.now }
{
    if removes_win {
        kept.has_marked() && !kept.has_unmarked()
    } else {
        kept.has_marked()
    }
}

/// An equal tree, made node by node.
fn copy_elements(
    elements: &BTreeMap<Text, Kept<bool>>,
) -> Result<BTreeMap<Text, Kept<bool>>, AllocError>
    ensures { IfOk result (λ m. m.entries ≡ elements.now.entries) }
{
    let copied = elements.clone()?;
    Ok(copied)
}
