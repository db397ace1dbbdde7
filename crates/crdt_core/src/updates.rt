ghost use Rattle.std.specs.Prelude.{◌≡◌, IfOk, IfErr};

use crate::record::Upd;
use std::alloc::{AllocError, AllocFailed, Global};
use std::marker::Model;
use std::sync::Arc;

/// The updates of a transaction at a partition, which all that hold them share: it is counted, and not copied.
#[derive(Drop)]
pub struct UpdateList<E> {
    all: Arc<Vec<Upd<E>>, Global>,
}

impl<E> Model for UpdateList<E> {
    ghost use Rattle.std.specs.Prelude.{List};
    ghost use Rattle.std.specs.Arc.{arc_value};
    ghost use Rattle.crdt_core.specs.declared.record.Upd.{Upd};

    ghost Value = { List (Upd E) };

    ghost view = { λ l. (arc_value l.all).items };
}

impl<E: Drop> UpdateList<E> {
    /// A list of these updates, with one owner.
    ///
    /// # Errors
    ///
    /// `AllocFailed`, with the updates, where memory runs out.
    pub fn new(
        alloc: Global,
        updates: Vec<Upd<E>>,
    ) -> Result<UpdateList<E>, AllocFailed<Vec<Upd<E>>>>
        ensures ok { IfOk result (λ l. l ≡ updates.items) }
        ensures given_back { IfErr result (λ failed. failed.value ≡ updates) }
    {
        match Arc::new(alloc, updates) {
            Ok(all) => Ok(UpdateList { all }),
            Err(failed) => Err(failed),
        }
    }
}

impl<E> UpdateList<E> {
    /// The updates, ascending by number.
    pub fn as_slice(&self) -> &[Upd<E>]
        ensures { result.now ≡ self.now }
    {
        self.all.as_slice()
    }

    /// The same list, with one owner more.
    ///
    /// # Errors
    ///
    /// `AllocError` where it has 2^63 owners.
    pub fn share(&self) -> Result<UpdateList<E>, AllocError>
        ensures { IfOk result (λ l. l ≡ self.now) }
    {
        let all = Arc::try_clone(&self.all)?;
        Ok(UpdateList { all })
    }
}
