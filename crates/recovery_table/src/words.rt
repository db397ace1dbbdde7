// Records and messages as their bytes tell them, so that each has a spelling.
ghost use Rattle.std.specs.Prelude.{IfOk, IfSome};
ghost use Rattle.recovery_table.specs.Places.{CanPut, CanPutMessage};

use crdt_core::{Message, Record};
use crdt_counters::CounterPn;
use field_codec::{put_u8, put_u16, put_u32, put_u64};
use log_records::{take, take_message};
use std::alloc::{AllocError, Global};

/// The key of the only counter that stands at a partition with this number, of two.
pub(crate) fn key_of(part: u8) -> &'static str {
    if part == 2 { "tea" } else { "milk" }
}

fn put_tx(out: &mut Vec<u8>, site: u8, part: u8, time: u64) -> Result<(), AllocError> {
    put_u8(out, site)?;
    put_u8(out, part)?;
    put_u64(out, time)
}

fn put_vector(out: &mut Vec<u8>, first: u64, second: u64) -> Result<(), AllocError> {
    put_u8(out, 2)?;
    put_u64(out, first)?;
    put_u64(out, second)
}

/// A transaction's only update, which adds to the counter.
fn put_addition(out: &mut Vec<u8>, key: &str, amount: u64) -> Result<(), AllocError> {
    put_u32(out, 1)?;
    put_u16(out, 1)?;
    put_u16(out, 1)?;
    out.extend_from_slice(b"b")?;
    put_u16(out, key.len().min(256) as u16)?;
    out.extend_from_slice(key.as_bytes())?;
    put_u8(out, 1)?;
    put_u64(out, amount)
}

/// The record that these bytes are.
fn record_of(alloc: Global, bytes: &[u8]) -> Option<Record<i64>>
    ensures { IfSome result CanPut }
{
    take::<CounterPn>(alloc, bytes).ok()
}

/// A vote for a transaction of site 1, which adds to the counter.
#[derive(Clone, Copy)]
pub(crate) struct Vote {
    /// The number of the partition that votes.
    pub(crate) at: u8,
    /// Where the transaction began, and when.
    pub(crate) part: u8,
    pub(crate) begun: u64,
    /// The number of the lead.
    pub(crate) lead: u8,
    pub(crate) time: u64,
    pub(crate) amount: u64,
}

/// The record of a vote.
pub(crate) fn vote_record(alloc: Global, vote: &Vote) -> Result<Option<Record<i64>>, AllocError>
    ensures { IfOk result (λ o. IfSome o CanPut) }
{
    let mut bytes = Vec::new(alloc);
    put_u8(&mut bytes, 2)?;
    put_tx(&mut bytes, 1, vote.part, vote.begun)?;
    put_u8(&mut bytes, vote.lead)?;
    put_u64(&mut bytes, vote.time)?;
    put_vector(&mut bytes, vote.begun, 0)?;
    put_addition(&mut bytes, key_of(vote.at), vote.amount)?;
    Ok(record_of(alloc, bytes.as_slice()))
}

/// A message of site 2 that brings one transaction, which adds to the counter and was committed at its end.
#[derive(Clone, Copy)]
pub(crate) struct Brought {
    /// The number of both partitions.
    pub(crate) part: u8,
    pub(crate) lo: u64,
    pub(crate) hi: u64,
    /// When the transaction began and was committed.
    pub(crate) begun: u64,
    pub(crate) time: u64,
    pub(crate) amount: u64,
}

/// The message.
pub(crate) fn batch_message(
    alloc: Global,
    brought: &Brought,
) -> Result<Option<Message<i64>>, AllocError>
    ensures { IfOk result (λ o. IfSome o CanPutMessage) }
{
    let mut bytes = Vec::new(alloc);
    put_u8(&mut bytes, 2)?;
    put_u8(&mut bytes, 1)?;
    put_u8(&mut bytes, brought.part)?;
    put_u64(&mut bytes, brought.lo)?;
    put_u64(&mut bytes, brought.hi)?;
    put_u32(&mut bytes, 1)?;
    put_tx(&mut bytes, 2, 1, brought.begun)?;
    put_vector(&mut bytes, 0, brought.time)?;
    put_addition(&mut bytes, key_of(brought.part), brought.amount)?;
    match take_message::<CounterPn>(alloc, bytes.as_slice(), 0) {
        Ok((message, _)) => Ok(Some(message)),
        Err(_) => Ok(None),
    }
}
