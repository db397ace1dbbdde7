ghost use Rattle.std.specs.Prelude.{◌≡◌, ◌≤◌, ◌++◌, true, length, OnOk, OnErr, IfOk};
ghost use Rattle.field_codec.specs.Spelling.{Keeps};
ghost use Rattle.field_codec.specs.Reading.{number_at, members_at};
ghost use Rattle.crdt_core.specs.Spelled.{vector, is_vector, vector_at};

use crate::forms::take_small;
use field_codec::{TakeError, put_u8, put_u64, take_u64};
use site_vector::VTime;
use std::alloc::AllocError;

/// Appends the number of entries, and the entries.
///
/// # Errors
///
/// `AllocError` where memory runs out. `out` is as before then.
pub fn put_vector(out: &mut Vec<u8>, v: &VTime) -> Result<(), AllocError>
    ensures spelled { OnOk result (is_vector v.now ≡ true) }
    ensures ok { OnOk result (out.new.items ≡ out.old.items ++ vector v.now) }
    ensures err { OnErr result (out.new.items ≡ out.old.items) }
{
    let start = out.len();
    let put = put_entries(out, v.width(), v.as_slice());
    if put.is_err() {
        out.truncate(start);
    }
    put
}

fn put_entries(out: &mut Vec<u8>, width: u8, v: &[u64]) -> Result<(), AllocError>
    requires width { width ≡ length v.now }
    requires least { 1 ≤ length v.now }
    requires most { length v.now ≤ 8 }
    ensures spelled { OnOk result (is_vector v.now ≡ true) }
    ensures ok { OnOk result (out.new.items ≡ out.old.items ++ vector v.now) }
    ensures err { OnErr result (Keeps out.old.items out.new.items) }
{
    put_u8(out, width)?;
    for n in v {
        put_u64(out, *n)?;
    }
    Ok(())
}

/// The vector at a place, and the place after it.
///
/// # Errors
///
/// The first field that fails: `Short` where it is cut off, `Bad` where it is whole: a width that isn't
/// from 1 to 8.
#[tactic(auto, unfolding(crate::specs::Spelled::vector_at))]
pub fn take_vector(bytes: &[u8], at: usize) -> Result<(VTime, usize), TakeError>
    ensures answer { result ≡ vector_at bytes.now at }
    ensures within { IfOk result (λ x. x.1 ≤ length bytes.now) }
{
    let (width, start) = take_small(bytes, at, 1, 8)?;
    take_entries(width, bytes, start)
}

fn take_entries(width: u8, bytes: &[u8], at: usize) -> Result<(VTime, usize), TakeError>
    requires least { 1 ≤ width }
    requires most { width ≤ 8 }
    requires within { at ≤ length bytes.now }
    ensures answer { result ≡ members_at (λ _ _. true) (number_at 8) None width bytes.now at }
    ensures within { IfOk result (λ x. x.1 ≤ length bytes.now) }
{
    let mut v = VTime::zero(width);
    let mut place = at;
    for i in 0..width {
        let (n, end) = take_u64(bytes, place)?;
        v = v.with(i + 1, n);
        place = end;
    }
    Ok((v, place))
}
