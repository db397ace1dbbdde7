#![tactic(auto, using(crate::specs::Words::begins_same, crate::specs::Words::begins_after))]

ghost use Rattle.std.specs.Prelude.{◌≡◌, ◌++◌, OnOk, OnErr};
ghost use Rattle.std.specs.List.{flat_map};
ghost use Rattle.reply_text.specs.Updated.{restarted_text, decided_text, pending_text};
ghost use Rattle.reply_text.specs.Words.{Begins};

use crate::bytes::put_byte;
use crate::words::{Word, put_words};
use site_vector::{PartId, TxId, VTime};
use std::alloc::{AllocError, Global};

/// Adds the last decision after a space, where there is one.
fn put_decided(alloc: Global, out: &mut Vec<u8>, decided: Option<TxId>) -> Result<(), AllocError>
    ensures ok { OnOk result (out.new.items ≡ out.old.items ++ decided_text decided) }
    ensures err { OnErr result (Begins out.old.items out.new.items) }
{
    match decided {
        None => Ok(()),
        Some(tx) => {
            put_byte(out, b' ')?;
            put_words(alloc, out, &[Word::Name("decided"), Word::Tx(tx)])
        }
    }
}

/// Adds a pending transaction and its time after a space.
fn put_one_pending(alloc: Global, out: &mut Vec<u8>, tx: TxId, time: u64) -> Result<(), AllocError>
    ensures ok { OnOk result (out.new.items ≡ out.old.items ++ pending_text (tx, time)) }
    ensures err { OnErr result (Begins out.old.items out.new.items) }
{
    put_byte(out, b' ')?;
    put_words(
        alloc,
        out,
        &[Word::Name("pending"), Word::Tx(tx), Word::Number(time)],
    )
}

/// Adds the pending transactions, each after a space.
fn put_pending(alloc: Global, out: &mut Vec<u8>, pending: &[(TxId, u64)]) -> Result<(), AllocError>
    ensures ok { OnOk result (out.new.items ≡ out.old.items ++ flat_map pending_text pending.now) }
    ensures err { OnErr result (Begins out.old.items out.new.items) }
{
    for (tx, time) in pending {
        put_one_pending(alloc, out, *tx, *time)?;
    }
    Ok(())
}

/// Adds the line of a restart.
#[tactic(auto, using(crate::specs::Words::begins_same, crate::specs::Words::begins_after, crate::proofs::Front::restarted_is))]
pub fn put_restarted(
    alloc: Global,
    out: &mut Vec<u8>,
    part: PartId,
    now: u64,
    bounds: &VTime,
    decided: Option<TxId>,
    pending: &[(TxId, u64)],
) -> Result<(), AllocError>
    ensures ok { OnOk result (out.new.items ≡ out.old.items ++ restarted_text part now bounds.now decided pending.now) }
    ensures err { OnErr result (Begins out.old.items out.new.items) }
{
    put_words(
        alloc,
        out,
        &[
            Word::Name("restarted"),
            Word::Part(part),
            Word::Number(now),
            Word::Vector(bounds),
        ],
    )?;
    put_decided(alloc, out, decided)?;
    put_pending(alloc, out, pending)?;
    put_byte(out, b'\n')?;
    Ok(())
}
