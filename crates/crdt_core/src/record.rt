ghost use Rattle.std.specs.Prelude.{◌≡◌, IfOk};

use crate::updates::UpdateList;
use crate::{Crdt, ObjectId};
use field_codec::ListOf;
use site_vector::{TxId, VTime};
use std::alloc::{AllocError, Global};

/// One update of a transaction, as it is stored and sent: the effect `E` that it was generated to.
#[derive(Drop)]
pub struct Upd<E> {
    pub object: ObjectId,
    /// The number of the update in its transaction, from 1 to 256.
    pub index: u16,
    pub effect: E,
}

/// What a committed transaction changed at one partition.
#[derive(Drop)]
pub struct Part<E> {
    pub tx: TxId,
    /// The commit vector.
    pub c: VTime,
    /// Ascending by number.
    pub updates: UpdateList<E>,
}

/// A stretch of a partition's stream to the partition with its number at another site: all parts of the sender's site
/// whose commit time is above `lo` and at most `hi`.
#[derive(Drop)]
pub struct Message<E> {
    /// The sender's site.
    pub from: u8,
    /// The receiver's site.
    pub to: u8,
    /// The number of both partitions.
    pub part: u8,
    pub lo: u64,
    pub hi: u64,
    /// Ascending by commit time, and then by transaction.
    pub parts: ListOf<Part<E>>,
}

/// A record of a partition's log.
#[derive(Drop)]
pub enum Record<E> {
    /// The clock shows no time above `ceil` before the next lease.
    Lease {
        ceil: u64,
    },
    /// A vote for a transaction, at a time: its snapshot, the number of its lead, and what it changes here.
    Prepare {
        tx: TxId,
        lead: u8,
        time: u64,
        s: VTime,
        updates: UpdateList<E>,
    },
    /// The commit point, at the lead, with the commit vector.
    Decide {
        tx: TxId,
        c: VTime,
    },
    /// The commit at another participant.
    Finish {
        tx: TxId,
        c: VTime,
    },
    Abort {
        tx: TxId,
    },
    /// What a message brought that was not here yet.
    Batch {
        message: Message<E>,
    },
}

/// An equal update.
///
/// # Errors
///
/// `AllocError` where memory runs out.
pub fn copy_update<C: Crdt>(
    alloc: Global,
    update: &Upd<C::Effect>,
) -> Result<Upd<C::Effect>, AllocError>
    ensures { IfOk result (λ u. u ≡ update.now) }
{
    let object = update.object.copy(alloc)?;
    let effect = C::copy_effect(alloc, &update.effect)?;
    Ok(Upd {
        object,
        index: update.index,
        effect,
    })
}

/// The same part, whose updates have one more owner.
///
/// # Errors
///
/// `AllocError` where its updates have 2^63 owners.
pub fn share_part<E>(part: &Part<E>) -> Result<Part<E>, AllocError>
    ensures { IfOk result (λ p. p ≡ part.now) }
{
    let updates = part.updates.share()?;
    Ok(Part {
        tx: part.tx,
        c: part.c,
        updates,
    })
}
