ghost use Rattle.std.specs.Prelude.{◌≡◌, ◌==◌, IfOk, OnOk, OnErr};
ghost use Rattle.std.specs.FinMap.{empty, len, insert, remove};
ghost use Rattle.crdt_core.specs.Kept.{without, dots_of};
ghost use Rattle.crdt_counters.specs.Total.{amounts_in, sum_of, held_at};

use crate::amounts::{less, sum};
use crdt_core::Dots;
use site_vector::Dot;
use std::alloc::{AllocError, Global};
use std::collections::BTreeMap;
use std::marker::Model;

/// Amounts that no reset has taken, each at its dot, with their sum beside them, so that no read goes over them.
/// Contracts see it as a finite map from dots in their order.
#[derive(Drop)]
pub struct Summed {
    amounts: BTreeMap<Dot, i64>,
    total: i128,
}

impl Model for Summed {
    ghost use Rattle.std.specs.Prelude.{◌≡◌, ℤ};
    ghost use Rattle.std.specs.Coded.{coded_ℤ};
    ghost use Rattle.std.specs.FinMap as map;
    ghost use Rattle.site_vector.specs.Order.{dot_cmp};
    ghost use Rattle.crdt_core.specs.DotCode.{coded_dot};
    ghost use Rattle.crdt_counters.specs.Total.{amounts_in, sum_of};

    ghost Value = { map.FinMap dot_cmp ℤ };

    ghost coded = { map.code coded_dot coded_ℤ };

    ghost view = { λ a. amounts_in a.amounts.entries };

    ghost invariant = { λ a. a.total ≡ sum_of (amounts_in a.amounts.entries) };
}

impl Summed {
    /// No amounts. Takes no memory.
    pub fn new(alloc: Global) -> Summed
        ensures { result ≡ empty }
    {
        Summed {
            amounts: BTreeMap::new(alloc),
            total: 0,
        }
    }

    /// Whether no amount is kept.
    pub fn is_empty(&self) -> bool
        ensures { result ≡ (len self.now == 0) }
    {
        self.amounts.len() == 0
    }

    /// The dots, in order.
    ///
    /// # Errors
    ///
    /// `AllocError` where memory runs out.
    pub fn dots(&self, alloc: Global) -> Result<Dots, AllocError>
        ensures { IfOk result (λ d. d ≡ dots_of self.now) }
    {
        dots_in(alloc, &self.amounts)
    }

    /// The sum of the amounts, in 128 bits that wrap.
    pub fn total(&self) -> i128
        ensures { result ≡ sum_of self.now }
    {
        self.total
    }

    /// Puts an amount at a dot.
    ///
    /// # Errors
    ///
    /// `AllocError` where memory runs out. What is kept is as before then.
    pub fn put(&mut self, dot: Dot, amount: i64) -> Result<(), AllocError>
        ensures ok { OnOk result (self.new ≡ insert self.old dot amount) }
        ensures err { OnErr result (self.new ≡ self.old) }
    {
        let before = replace(&mut self.amounts, dot, amount)?;
        self.total = sum(less(self.total, before), amount);
        Ok(())
    }

    /// Takes out the amounts at these dots.
    pub fn take_out(&mut self, dots: &[Dot])
        ensures { self.new ≡ without self.old dots.now }
    {
        self.total = take_each(&mut self.amounts, self.total, dots);
    }

    /// Equal amounts.
    ///
    /// # Errors
    ///
    /// `AllocError` where memory runs out.
    pub fn copy(&self) -> Result<Summed, AllocError>
        ensures { IfOk result (λ s. s ≡ self.now) }
    {
        let amounts = copy_amounts(&self.amounts)?;
        Ok(Summed {
            amounts,
            total: self.total,
        })
    }
}

fn dots_in(alloc: Global, amounts: &BTreeMap<Dot, i64>) -> Result<Dots, AllocError>
    ensures { IfOk result (λ d. d ≡ dots_of (amounts_in amounts.now.entries)) }
{
    let mut dots = Dots::new(alloc);
    for dot in amounts.keys() {
        dots.insert(*dot)?;
    }
    Ok(dots)
}

/// Puts an amount at a dot, and answers the one that stood there, 0 where none did.
fn replace(amounts: &mut BTreeMap<Dot, i64>, dot: Dot, amount: i64) -> Result<i64, AllocError>
    ensures ok { OnOk result (amounts_in amounts.new.entries ≡ insert (amounts_in amounts.old.entries) dot amount) }
    ensures before { IfOk result (λ n. n ≡ held_at (amounts_in amounts.old.entries) dot) }
    ensures err { OnErr result (amounts.new.entries ≡ amounts.old.entries) }
{
    let before = amounts.insert(dot, amount)?;
    Ok(before.unwrap_or(0))
}

/// Takes out the amounts at these dots, and answers what is left of the total.
fn take_each(amounts: &mut BTreeMap<Dot, i64>, total: i128, dots: &[Dot]) -> i128
    requires { total ≡ sum_of (amounts_in amounts.old.entries) }
    ensures rest { amounts_in amounts.new.entries ≡ without (amounts_in amounts.old.entries) dots.now }
    ensures total { result ≡ sum_of (amounts_in amounts.new.entries) }
{
    let mut left = total;
    for dot in dots {
        let gone = take(amounts, *dot);
        left = less(left, gone);
    }
    left
}

/// Takes out the amount at a dot, and answers it, 0 where none stood there.
fn take(amounts: &mut BTreeMap<Dot, i64>, dot: Dot) -> i64
    ensures rest { amounts_in amounts.new.entries ≡ remove (amounts_in amounts.old.entries) dot }
    ensures gone { result ≡ held_at (amounts_in amounts.old.entries) dot }
{
    amounts.remove(&dot).unwrap_or(0)
}

/// An equal tree, made node by node.
fn copy_amounts(amounts: &BTreeMap<Dot, i64>) -> Result<BTreeMap<Dot, i64>, AllocError>
    ensures { IfOk result (λ m. m.entries ≡ amounts.now.entries) }
{
    let copied = amounts.clone()?;
    Ok(copied)
}
