ghost use Rattle.std.specs.Prelude.{◌≡◌, ◌≤◌, ◌++◌, true, length, OnOk, OnErr, IfOk};
ghost use Rattle.field_codec.specs.Spelling.{is_below};
ghost use Rattle.field_codec.specs.Reading.{Gives, checked_at};
ghost use Rattle.log_records.specs.Updates.{has_some};
ghost use Rattle.log_records.specs.Parts.{time_at, can_put_part, keeps_part, is_part_spelled, part as part_bytes, part_at, part_cmp, can_put_parts, are_parts_spelled, parts as parts_bytes, parts_at, part_form};

use crate::update_form::{put_updates, take_updates};
use crdt_core::{Crdt, Part, put_tx, put_vector, take_tx, take_vector};
use field_codec::{Form, ListOf, TakeError, put_list, take_list};
use site_vector::VTime;
use std::alloc::{AllocError, Global};
use std::marker::PhantomData;

/// The form of parts in a message from a site. Lists of them ascend by commit time, and then by transaction.
#[derive(Drop)]
pub(crate) struct PartForm<C: Crdt> {
    pub(crate) from: u8,
    pub(crate) kinds: PhantomData<C>,
}

impl<C: Crdt> Form for PartForm<C> {
    type Value = Part<C::Effect>;

    ghost fits = { λ _ p. can_put_part C.has C.is_of C.can_put p };

    ghost keeps = { λ _ p. keeps_part C.keeps p };

    ghost is_spelled = { λ _ p. is_part_spelled C.has C.is_of C.is_spelled p };

    ghost spelling = { λ _ p. part_bytes C.spelling p };

    ghost reading = { λ _ bytes at. part_at C.has C.reading bytes at };

    ghost follows = { λ f before p. is_below (part_cmp f.from) before p };

    fn put(&self, out: &mut Vec<u8>, value: &Part<C::Effect>) -> Result<(), AllocError> {
        put_tx(out, value.tx)?;
        put_vector(out, &value.c)?;
        put_updates::<C>(out, &value.updates)
    }

    #[tactic(auto, unfolding(crate::specs::Parts::part_at))]
    fn take(
        &self,
        alloc: Global,
        bytes: &[u8],
        at: usize,
    ) -> Result<(Part<C::Effect>, usize), TakeError> {
        let (tx, c_at) = take_tx(bytes, at)?;
        let (c, updates_at) = take_vector(bytes, c_at)?;
        let (updates, end) = take_updates::<C>(alloc, bytes, updates_at)?;
        Ok((Part { tx, c, updates }, end))
    }

    fn may_follow(&self, before: &Part<C::Effect>, value: &Part<C::Effect>) -> bool {
        let by_time = time_of(self.from, &before.c).cmp(&time_of(self.from, &value.c));
        by_time.then(before.tx.cmp(&value.tx)).is_lt()
    }

    ghost laws = { λ _. part_form C.spells };
}

/// The commit time at a site, or 0 where the vector has no entry for it.
fn time_of(site: u8, c: &VTime) -> u64
    ensures { result ≡ time_at site c.now }
{
    if site == 0 || site > c.width() {
        return 0;
    }
    c.get(site)
}

/// Appends the parts of a message from a site.
///
/// # Errors
///
/// `AllocError` where memory runs out, or where a list has 2^32 members or more. `out` is as before then.
pub(crate) fn put_parts<C: Crdt>(
    out: &mut Vec<u8>,
    from: u8,
    parts: &ListOf<Part<C::Effect>>,
) -> Result<(), AllocError>
    requires { can_put_parts C.has C.is_of C.can_put from parts.now ≡ true }
    ensures spelled { OnOk result (are_parts_spelled C.has C.is_of C.is_spelled from parts.now ≡ true) }
    ensures ok { OnOk result (out.new.items ≡ out.old.items ++ parts_bytes C.spelling parts.now) }
    ensures err { OnErr result (out.new.items ≡ out.old.items) }
{
    let form: PartForm<C> = PartForm {
        from,
        kinds: PhantomData,
    };
    put_list(&form, out, parts.as_slice())
}

/// The parts of a message from a site at a place, and the place after them.
///
/// # Errors
///
/// The first field that fails: `Short` where it is cut off, `Bad` where it is whole.
pub(crate) fn take_parts<C: Crdt>(
    alloc: Global,
    from: u8,
    bytes: &[u8],
    at: usize,
) -> Result<(ListOf<Part<C::Effect>>, usize), TakeError>
    ensures answer { Gives result (parts_at C.has C.reading from bytes.now at) }
    ensures within { IfOk result (λ x. x.1 ≤ length bytes.now) }
{
    let form: PartForm<C> = PartForm {
        from,
        kinds: PhantomData,
    };
    take_list(&form, alloc, bytes, at)
}

/// The same of the parts of a Batch.
///
/// # Errors
///
/// As `take_parts`. The count of no part is `Bad`.
pub(crate) fn take_some_parts<C: Crdt>(
    alloc: Global,
    from: u8,
    bytes: &[u8],
    at: usize,
) -> Result<(ListOf<Part<C::Effect>>, usize), TakeError>
    ensures answer { Gives result (checked_at has_some (parts_at C.has C.reading from) bytes.now at) }
    ensures within { IfOk result (λ x. x.1 ≤ length bytes.now) }
{
    let (parts, end) = take_parts::<C>(alloc, from, bytes, at)?;
    if parts.as_slice().is_empty() {
        return Err(TakeError::Bad { at });
    }
    Ok((parts, end))
}
