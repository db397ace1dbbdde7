ghost use Rattle.std.specs.Prelude.{◌≡◌, ◌≤◌, Bool, true, false, [], IfOk, IfErr, OnOk, OnErr, length};
ghost use Rattle.std.specs.List.{insert};
ghost use Rattle.crdt_core.specs.DotSet.{has_dot, with_dot, without, IsAscending};

use site_vector::Dot;
use std::alloc::{AllocError, Global};
use std::marker::Model;

/// A set of updates. Contracts see it as the list of them in ascending order.
#[derive(Debug, Drop)]
pub struct Dots {
    items: Vec<Dot>,
}

impl Model for Dots {
    ghost use Rattle.std.specs.Prelude.{List};
    ghost use Rattle.site_vector.specs.declared.ids.Dot.{Dot};
    ghost use Rattle.crdt_core.specs.DotSet.{IsAscending};

    ghost Value = { List Dot };

    ghost view = { λ d. d.items.items };

    ghost invariant = { λ d. IsAscending d.items.items };
}

impl Dots {
    /// The empty set. Takes no memory.
    #[tactic(auto, using(crate::proofs::DotSet::ascending_none))]
    pub fn new(alloc: Global) -> Dots
        ensures { result ≡ [] }
    {
        Dots {
            items: Vec::new(alloc),
        }
    }

    /// The set of these updates.
    pub(crate) fn of_ascending(items: Vec<Dot>) -> Dots
        requires { IsAscending items.items }
        ensures { result ≡ items.items }
    {
        Dots { items }
    }

    /// The updates, in ascending order.
    pub fn as_slice(&self) -> &[Dot]
        ensures value { result.now ≡ self.now }
        ensures ascending { IsAscending self.now }
    {
        self.items.as_slice()
    }

    /// An equal set.
    ///
    /// # Errors
    ///
    /// `AllocError` where memory runs out.
    pub fn copy(&self, alloc: Global) -> Result<Dots, AllocError>
        ensures { IfOk result (λ d. d ≡ self.now) }
    {
        let items = Vec::from_slice(alloc, self.as_slice())?;
        Ok(Dots { items })
    }

    /// Whether the update is one of them.
    pub fn contains(&self, dot: Dot) -> bool
        ensures { result ≡ has_dot self.now dot }
    {
        place(&self.items, dot).is_ok()
    }

    /// Puts an update in, unless it is there.
    ///
    /// # Errors
    ///
    /// `AllocError` where memory runs out. The set is as before then.
    pub fn insert(&mut self, dot: Dot) -> Result<(), AllocError>
        ensures ok { OnOk result (self.new ≡ with_dot self.old dot) }
        ensures err { OnErr result (self.new ≡ self.old) }
    {
        put(&mut self.items, dot)
    }

    /// Takes out the updates of another set. Takes no memory.
    pub fn remove_all(&mut self, gone: &Dots)
        ensures { self.new ≡ without self.old gone.now }
    {
        drop_gone(&mut self.items, gone);
    }
}

fn drop_gone(items: &mut Vec<Dot>, gone: &Dots)
    requires { IsAscending items.old.items }
    ensures remaining { items.new.items ≡ without items.old.items gone.now }
    ensures ascending { IsAscending items.new.items }
{
    items.retain(|dot| !gone.contains(*dot));
}

/// Where the update is, or where it would go.
fn place(items: &[Dot], dot: Dot) -> Result<usize, usize>
    requires { IsAscending items.now }
    ensures found { IfOk result (λ i. has_dot items.now dot ≡ true) }
    ensures same { IfOk result (λ i. with_dot items.now dot ≡ items.now) }
    ensures in_range { IfErr result (λ i. i ≤ length items.now) }
    ensures absent { IfErr result (λ i. has_dot items.now dot ≡ false) }
    ensures gap { IfErr result (λ i. insert items.now i dot ≡ with_dot items.now dot) }
{
    items.binary_search(&dot)
}

#[tactic(auto, using(crate::proofs::DotSet::ascending_with))]
fn put(items: &mut Vec<Dot>, dot: Dot) -> Result<(), AllocError>
    requires { IsAscending items.old.items }
    ensures ok { OnOk result (items.new.items ≡ with_dot items.old.items dot) }
    ensures err { OnErr result (items.new.items ≡ items.old.items) }
    ensures ascending { IsAscending items.new.items }
{
    match place(items, dot) {
        Ok(_) => Ok(()),
        Err(at) => Ok(items.insert(at, dot)?),
    }
}
