ghost use Rattle.std.specs.Prelude.{◌≡◌, ◌≤◌, ◌++◌, true, length, OnOk, OnErr, IfOk};
ghost use Rattle.field_codec.specs.Reading.{Gives, list_at};
ghost use Rattle.crdt_core.specs.Spelled.{between_at};
ghost use Rattle.log_records.specs.Updates.{can_put_update, keeps_update, is_update_spelled, update as update_bytes, update_at, index_below, can_put_updates, are_updates_spelled, updates as updates_bytes, updates_at, update_form};

use crdt_core::{Crdt, Upd, UpdateList, put_object, take_object};
use field_codec::{Form, ListOf, TakeError, put_list, put_u16, take_list, take_u16};
use std::alloc::{AllocError, Global};
use std::marker::PhantomData;

/// The most updates of a transaction.
const MOST_INDEX: u16 = 256;

/// The form of updates. Lists of them ascend by their numbers.
#[derive(Drop)]
pub(crate) struct UpdateForm<C: Crdt> {
    pub(crate) kinds: PhantomData<C>,
}

impl<C: Crdt> Form for UpdateForm<C> {
    type Value = Upd<C::Effect>;

    ghost fits = { λ _ u. can_put_update C.has C.is_of C.can_put u };

    ghost keeps = { λ _ u. keeps_update C.keeps u };

    ghost is_spelled = { λ _ u. is_update_spelled C.has C.is_of C.is_spelled u };

    ghost spelling = { λ _ u. update_bytes C.spelling u };

    ghost reading = { λ _ bytes at. update_at C.has C.reading bytes at };

    ghost follows = { λ _ before u. index_below before u };

    fn put(&self, out: &mut Vec<u8>, value: &Upd<C::Effect>) -> Result<(), AllocError> {
        put_u16(out, value.index)?;
        put_object(out, &value.object)?;
        C::put_effect(out, &value.effect)
    }

    #[tactic(auto, unfolding(crate::specs::Updates::update_at))]
    fn take(
        &self,
        alloc: Global,
        bytes: &[u8],
        at: usize,
    ) -> Result<(Upd<C::Effect>, usize), TakeError> {
        let (index, object_at) = take_index(bytes, at)?;
        let (object, effect_at) = take_object::<C>(alloc, bytes, object_at)?;
        let (effect, end) = C::take_effect(alloc, object.kind, bytes, effect_at)?;
        let update = Upd {
            object,
            index,
            effect,
        };
        Ok((update, end))
    }

    fn may_follow(&self, before: &Upd<C::Effect>, value: &Upd<C::Effect>) -> bool {
        before.index < value.index
    }

    ghost laws = { λ _. update_form C.spells };
}

/// The number of an update at a place, and the place after it.
///
/// # Errors
///
/// At the place: `Short` where it is cut off, `Bad` where it isn't from 1 to 256.
fn take_index(bytes: &[u8], at: usize) -> Result<(u16, usize), TakeError>
    ensures answer { result ≡ between_at 2 1 256 bytes.now at }
    ensures within { IfOk result (λ x. x.1 ≤ length bytes.now) }
{
    let (index, end) = take_u16(bytes, at)?;
    if index < 1 || index > MOST_INDEX {
        return Err(TakeError::Bad { at });
    }
    Ok((index, end))
}

/// Appends the updates of a transaction.
///
/// # Errors
///
/// `AllocError` where memory runs out, or where a list has 2^32 members or more. `out` is as before then.
pub(crate) fn put_updates<C: Crdt>(
    out: &mut Vec<u8>,
    updates: &UpdateList<C::Effect>,
) -> Result<(), AllocError>
    requires { can_put_updates C.has C.is_of C.can_put updates.now ≡ true }
    ensures spelled { OnOk result (are_updates_spelled C.has C.is_of C.is_spelled updates.now ≡ true) }
    ensures ok { OnOk result (out.new.items ≡ out.old.items ++ updates_bytes C.spelling updates.now) }
    ensures err { OnErr result (out.new.items ≡ out.old.items) }
{
    let form: UpdateForm<C> = UpdateForm { kinds: PhantomData };
    put_list(&form, out, updates.as_slice())
}

/// The updates of a transaction at a place, and the place after them.
///
/// # Errors
///
/// The first field that fails: `Short` where it is cut off, `Bad` where it is whole. The count of no update is `Bad`.
#[tactic(auto, unfolding(crate::specs::Updates::updates_at))]
pub(crate) fn take_updates<C: Crdt>(
    alloc: Global,
    bytes: &[u8],
    at: usize,
) -> Result<(UpdateList<C::Effect>, usize), TakeError>
    ensures answer { Gives result (updates_at C.has C.reading bytes.now at) }
    ensures within { IfOk result (λ x. x.1 ≤ length bytes.now) }
{
    let (updates, end) = take_any_updates::<C>(alloc, bytes, at)?;
    if updates.as_slice().is_empty() {
        return Err(TakeError::Bad { at });
    }
    match UpdateList::new(alloc, updates.into_vec()) {
        Ok(shared) => Ok((shared, end)),
        Err(_) => Err(TakeError::NoMemory),
    }
}

fn take_any_updates<C: Crdt>(
    alloc: Global,
    bytes: &[u8],
    at: usize,
) -> Result<(ListOf<Upd<C::Effect>>, usize), TakeError>
    ensures answer { Gives result (list_at index_below (update_at C.has C.reading) bytes.now at) }
    ensures within { IfOk result (λ x. x.1 ≤ length bytes.now) }
{
    let form: UpdateForm<C> = UpdateForm { kinds: PhantomData };
    take_list(&form, alloc, bytes, at)
}
