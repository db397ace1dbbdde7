ghost use Rattle.std.specs.Prelude.{◌≡◌, ◌≤◌, ◌++◌, true, length, OnOk, OnErr, IfOk};
ghost use Rattle.field_codec.specs.Spelling.{Keeps};
ghost use Rattle.log_records.specs.Heads.{is_head, head as head_bytes, head_at};

use field_codec::{TakeError, put_u8, put_u64, take_u8, take_u64};
use std::alloc::AllocError;

/// What stands before the parts of a message: the sites of its sender and of its receiver, the number of both
/// partitions, and the bounds of its commit times.
#[derive(Clone, Copy, Debug)]
pub(crate) struct Head {
    pub(crate) from: u8,
    pub(crate) to: u8,
    pub(crate) part: u8,
    pub(crate) lo: u64,
    pub(crate) hi: u64,
}

pub(crate) fn put_head(out: &mut Vec<u8>, head: Head) -> Result<(), AllocError>
    ensures spelled { OnOk result (is_head head ≡ true) }
    ensures ok { OnOk result (out.new.items ≡ out.old.items ++ head_bytes head) }
    ensures err { OnErr result (Keeps out.old.items out.new.items) }
{
    put_u8(out, head.from)?;
    put_u8(out, head.to)?;
    put_u8(out, head.part)?;
    put_u64(out, head.lo)?;
    put_u64(out, head.hi)
}

#[tactic(auto, unfolding(crate::specs::Heads::head_at))]
pub(crate) fn take_head(bytes: &[u8], at: usize) -> Result<(Head, usize), TakeError>
    ensures answer { result ≡ head_at bytes.now at }
    ensures within { IfOk result (λ x. x.1 ≤ length bytes.now) }
{
    let (from, to_at) = take_u8(bytes, at)?;
    let (to, part_at) = take_u8(bytes, to_at)?;
    let (part, lo_at) = take_u8(bytes, part_at)?;
    let (lo, hi_at) = take_u64(bytes, lo_at)?;
    let (hi, end) = take_u64(bytes, hi_at)?;
    let head = Head {
        from,
        to,
        part,
        lo,
        hi,
    };
    Ok((head, end))
}
