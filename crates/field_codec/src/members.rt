ghost use Rattle.std.specs.Prelude.{◌≡◌, ◌≤◌, ◌++◌, true, length, OnOk, OnErr, IfOk};
ghost use Rattle.field_codec.specs.Spelling.{list, are_members, is_list, last_of, may_follow, Keeps};
ghost use Rattle.field_codec.specs.Reading.{Gives, list_at, members_at};

use crate::form::Form;
use crate::{ListOf, TakeError, put_u32, take_u32};
use std::alloc::{AllocError, Global};

/// Appends the count in four bytes, and the members.
///
/// # Errors
///
/// `AllocError` where memory runs out, or where a list has 2^32 members or more. `out` is as before then.
pub fn put_list<F: Form>(
    form: &F,
    out: &mut Vec<u8>,
    members: &[F::Value],
) -> Result<(), AllocError>
    requires { are_members (F.follows form.now) (F.fits form.now) members.now ≡ true }
    ensures spelled { OnOk result (is_list (F.follows form.now) (F.is_spelled form.now) members.now ≡ true) }
    ensures ok { OnOk result (out.new.items ≡ out.old.items ++ list (F.spelling form.now) members.now) }
    ensures err { OnErr result (out.new.items ≡ out.old.items) }
{
    let start = out.len();
    let put = put_members(form, out, members);
    if put.is_err() {
        out.truncate(start);
    }
    put
}

fn put_members<F: Form>(form: &F, out: &mut Vec<u8>, members: &[F::Value]) -> Result<(), AllocError>
    requires { are_members (F.follows form.now) (F.fits form.now) members.now ≡ true }
    ensures spelled { OnOk result (is_list (F.follows form.now) (F.is_spelled form.now) members.now ≡ true) }
    ensures ok { OnOk result (out.new.items ≡ out.old.items ++ list (F.spelling form.now) members.now) }
    ensures err { OnErr result (Keeps out.old.items out.new.items) }
{
    let Ok(count) = u32::try_from(members.len()) else {
        return Err(AllocError);
    };
    put_u32(out, count)?;
    for member in members {
        form.put(out, member)?;
    }
    Ok(())
}

/// The list at a place, and the place after it. Takes memory for what is read, whatever the count says.
///
/// # Errors
///
/// The first field that fails: `Short` where it is cut off, `Bad` where it is whole. A member that may
/// not come next after the one before it is `Bad` at its own first byte, once it is read.
#[tactic(auto, unfolding(crate::specs::Reading::list_at))]
pub fn take_list<F: Form>(
    form: &F,
    alloc: Global,
    bytes: &[u8],
    at: usize,
) -> Result<(ListOf<F::Value>, usize), TakeError>
    ensures answer { Gives result (list_at (F.follows form.now) (F.reading form.now) bytes.now at) }
    ensures within { IfOk result (λ x. x.1 ≤ length bytes.now) }
{
    let (count, start) = take_u32(bytes, at)?;
    take_members(form, alloc, count, bytes, start)
}

fn take_members<F: Form>(
    form: &F,
    alloc: Global,
    count: u32,
    bytes: &[u8],
    at: usize,
) -> Result<(ListOf<F::Value>, usize), TakeError>
    requires { at ≤ length bytes.now }
    ensures answer { Gives result (members_at (F.follows form.now) (F.reading form.now) None count bytes.now at) }
    ensures within { IfOk result (λ x. x.1 ≤ length bytes.now) }
{
    let mut members = ListOf::with_room(alloc, count)?;
    let mut place = at;
    for _ in 0..count {
        let (member, end) = form.take(alloc, bytes, place)?;
        if !goes_on(form, members.as_slice(), &member) {
            return Err(TakeError::Bad { at: place });
        }
        members.push(member)?;
        place = end;
    }
    Ok((members, place))
}

/// Whether the member may come next after these.
fn goes_on<F: Form>(form: &F, members: &[F::Value], member: &F::Value) -> bool
    ensures { result ≡ may_follow (F.follows form.now) (last_of members.now) member.now }
{
    match members.last() {
        Some(before) => form.may_follow(before, member),
        None => true,
    }
}
