ghost use Rattle.std.specs.Prelude.{◌≡◌, ◌≤◌, ◌++◌, ◌∷◌, [], length, IfOk, OnOk};

use crate::chosen::copy_all;
use crdt_core::{Crdt, Upd, UpdateList};
use std::alloc::{AllocError, Global};
use std::marker::Model;

/// The updates of an open transaction, ascending by number: a list of its own, until its first vote shares it. Its memory
/// serves the next transaction, and what is shared takes no more than it needs.
#[derive(Drop)]
pub struct Draft<C: Crdt> {
    own: Vec<Upd<C::Effect>>,
    shared: Option<UpdateList<C::Effect>>,
}

impl<C: Crdt> Model for Draft<C> {
    ghost use Rattle.std.specs.Prelude.{◌-◌, vec_len, vec_capacity};
    ghost use Rattle.txn_session.specs.Draft.{Drafted, items_of, room_of};

    ghost Value = { Drafted C.Effect };

    ghost view = { λ d. record { items = items_of d.shared d.own.items; room = room_of d.shared (vec_capacity d.own - vec_len d.own) } };
}

impl<C: Crdt> Draft<C> {
    /// No updates. Takes no memory.
    pub fn new(alloc: Global) -> Draft<C>
        ensures { result.items ≡ [] }
    {
        Draft {
            own: Vec::new(alloc),
            shared: None,
        }
    }

    /// The updates, ascending by number.
    pub fn as_slice(&self) -> &[Upd<C::Effect>]
        ensures { result.now ≡ self.now.items }
    {
        match &self.shared {
            Some(list) => list.as_slice(),
            None => self.own.as_slice(),
        }
    }

    /// How many updates there are.
    pub fn len(&self) -> usize
        ensures { result ≡ length self.now.items }
    {
        self.as_slice().len()
    }

    /// Makes it empty. Its memory stays.
    pub fn clear(&mut self)
        ensures { self.new.items ≡ [] }
    {
        self.shared = None;
        self.own.clear();
    }

    /// Takes memory for one update more. A list that is shared is copied for it.
    ///
    /// # Errors
    ///
    /// `AllocError` where memory runs out.
    pub fn reserve(&mut self, alloc: Global) -> Result<(), AllocError>
        ensures same { self.new.items ≡ self.old.items }
        ensures room { OnOk result (1 ≤ self.new.room) }
    {
        if let Some(list) = &self.shared {
            self.own = copy_all::<C>(alloc, list.as_slice())?;
            self.shared = None;
        }
        self.own.reserve(1)
    }

    /// Adds an update at the end. There is room.
    pub fn push(&mut self, update: Upd<C::Effect>)
        requires room { 1 ≤ self.old.room }
        ensures { self.new.items ≡ self.old.items ++ update ∷ [] }
    {
        self.own.push_reserved(update);
    }

    /// The updates as a list that others hold too.
    ///
    /// # Errors
    ///
    /// `AllocError` where memory runs out, or the list has 2^63 owners.
    pub fn share(&mut self, alloc: Global) -> Result<UpdateList<C::Effect>, AllocError>
        ensures same { self.new.items ≡ self.old.items }
        ensures shared { IfOk result (λ l. l ≡ self.old.items) }
    {
        if let Some(list) = &self.shared {
            return list.share();
        }
        let mut list = Vec::with_capacity(alloc, self.own.len())?;
        list.append(&mut self.own)?;
        match UpdateList::new(alloc, list) {
            Ok(list) => {
                let shared = list.share();
                self.shared = Some(list);
                shared
            }
            Err(failed) => {
                self.own = failed.value;
                Err(AllocError)
            }
        }
    }
}
