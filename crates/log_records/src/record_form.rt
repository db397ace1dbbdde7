ghost use Rattle.std.specs.Prelude.{◌≡◌, ◌≤◌, ◌++◌, ◌&&◌, true, length, OnOk, OnErr, IfOk};
ghost use Rattle.field_codec.specs.Spelling.{number, is_number, Keeps};
ghost use Rattle.field_codec.specs.Reading.{Gives, mapped_at};
ghost use Rattle.crdt_core.specs.Spelled.{is_tx, tx as tx_bytes, vector, is_vector};
ghost use Rattle.log_records.specs.Messages.{can_put_batch, is_batch_spelled, message as message_bytes};
ghost use Rattle.log_records.specs.Records.{ended_at, can_put_record, keeps_record, is_record_spelled, record_bytes, prepare_of, prepared_at, behind_code_at, record_at, record_form};

use crate::message_form::{put_fields, take_batch};
use crate::update_form::{put_updates, take_updates};
use crdt_core::{Crdt, Message, Record, put_tx, put_vector, take_small, take_tx, take_vector};
use field_codec::{Form, TakeError, put_u8, put_u64, take_u8, take_u64};
use site_vector::{TxId, VTime};
use std::alloc::{AllocError, Global};
use std::marker::PhantomData;

pub(crate) const LEASE: u8 = 1;

const PREPARE: u8 = 2;

pub(crate) const DECIDE: u8 = 3;

pub(crate) const FINISH: u8 = 4;

pub(crate) const ABORT: u8 = 5;

const BATCH: u8 = 6;

/// The form of records.
#[derive(Drop)]
pub(crate) struct RecordForm<C: Crdt> {
    pub(crate) kinds: PhantomData<C>,
}

impl<C: Crdt> Form for RecordForm<C> {
    type Value = Record<C::Effect>;

    ghost fits = { λ _ r. can_put_record C.has C.is_of C.can_put r };

    ghost keeps = { λ _ r. keeps_record C.keeps r };

    ghost is_spelled = { λ _ r. is_record_spelled C.has C.is_of C.is_spelled r };

    ghost spelling = { λ _ r. record_bytes C.spelling r };

    ghost reading = { λ _ bytes at. record_at C.has C.reading bytes at };

    ghost follows = { λ _ before r. true };

    fn put(&self, out: &mut Vec<u8>, value: &Record<C::Effect>) -> Result<(), AllocError> {
        match value {
            Record::Lease { ceil } => put_lease(out, *ceil),
            Record::Prepare {
                tx,
                lead,
                time,
                s,
                updates,
            } => {
                put_prepared(out, *tx, *lead, *time, s)?;
                put_updates::<C>(out, updates)
            }
            Record::Decide { tx, c } => put_ended(out, DECIDE, *tx, c),
            Record::Finish { tx, c } => put_ended(out, FINISH, *tx, c),
            Record::Abort { tx } => put_abort(out, *tx),
            Record::Batch { message } => put_batch_fields::<C>(out, message),
        }
    }

    fn take(
        &self,
        alloc: Global,
        bytes: &[u8],
        at: usize,
    ) -> Result<(Record<C::Effect>, usize), TakeError> {
        take_record::<C>(alloc, bytes, at)
    }

    fn may_follow(&self, before: &Record<C::Effect>, value: &Record<C::Effect>) -> bool {
        true
    }

    ghost laws = { λ _. record_form C.spells };
}

fn put_lease(out: &mut Vec<u8>, ceil: u64) -> Result<(), AllocError>
    ensures spelled { OnOk result (is_number 8 ceil ≡ true) }
    ensures ok { OnOk result (out.new.items ≡ out.old.items ++ (number 1 1 ++ number 8 ceil)) }
    ensures err { OnErr result (Keeps out.old.items out.new.items) }
{
    put_u8(out, LEASE)?;
    put_u64(out, ceil)
}

/// Appends what stands before the updates of a Prepare.
fn put_prepared(
    out: &mut Vec<u8>,
    tx: TxId,
    lead: u8,
    time: u64,
    s: &VTime,
) -> Result<(), AllocError>
    requires { is_tx tx ≡ true }
    ensures spelled { OnOk result ((is_number 1 lead && (is_number 8 time && is_vector s.now)) ≡ true) }
    ensures ok { OnOk result (out.new.items ≡ out.old.items ++ (number 1 2 ++ (tx_bytes tx ++ (number 1 lead ++ (number 8 time ++ vector s.now))))) }
    ensures err { OnErr result (Keeps out.old.items out.new.items) }
{
    put_u8(out, PREPARE)?;
    put_tx(out, tx)?;
    put_u8(out, lead)?;
    put_u64(out, time)?;
    put_vector(out, s)
}

/// Appends a code, a transaction and its commit vector.
fn put_ended(out: &mut Vec<u8>, code: u8, tx: TxId, c: &VTime) -> Result<(), AllocError>
    requires { is_tx tx ≡ true }
    ensures spelled { OnOk result (is_vector c.now ≡ true) }
    ensures ok { OnOk result (out.new.items ≡ out.old.items ++ (number 1 code ++ (tx_bytes tx ++ vector c.now))) }
    ensures err { OnErr result (Keeps out.old.items out.new.items) }
{
    put_u8(out, code)?;
    put_tx(out, tx)?;
    put_vector(out, c)
}

fn put_abort(out: &mut Vec<u8>, tx: TxId) -> Result<(), AllocError>
    requires { is_tx tx ≡ true }
    ensures ok { OnOk result (out.new.items ≡ out.old.items ++ (number 1 5 ++ tx_bytes tx)) }
    ensures err { OnErr result (Keeps out.old.items out.new.items) }
{
    put_u8(out, ABORT)?;
    put_tx(out, tx)
}

/// Appends the code of a Batch, and its message.
pub(crate) fn put_batch_fields<C: Crdt>(
    out: &mut Vec<u8>,
    message: &Message<C::Effect>,
) -> Result<(), AllocError>
    requires { can_put_batch C.has C.is_of C.can_put message.now ≡ true }
    ensures spelled { OnOk result (is_batch_spelled C.has C.is_of C.is_spelled message.now ≡ true) }
    ensures ok { OnOk result (out.new.items ≡ out.old.items ++ (number 1 6 ++ message_bytes C.spelling message.now)) }
    ensures err { OnErr result (Keeps out.old.items out.new.items) }
{
    put_u8(out, BATCH)?;
    put_fields::<C>(out, message)
}

#[tactic(auto, unfolding(crate::specs::Records::record_at))]
pub(crate) fn take_record<C: Crdt>(
    alloc: Global,
    bytes: &[u8],
    at: usize,
) -> Result<(Record<C::Effect>, usize), TakeError>
    ensures answer { Gives result (record_at C.has C.reading bytes.now at) }
    ensures within { IfOk result (λ x. x.1 ≤ length bytes.now) }
{
    let (code, rest_at) = take_small(bytes, at, LEASE, BATCH)?;
    take_behind_code::<C>(alloc, code, bytes, rest_at)
}

#[tactic(auto, unfolding(crate::specs::Records::behind_code_at))]
fn take_behind_code<C: Crdt>(
    alloc: Global,
    code: u8,
    bytes: &[u8],
    at: usize,
) -> Result<(Record<C::Effect>, usize), TakeError>
    ensures answer { Gives result (behind_code_at C.has C.reading code bytes.now at) }
    ensures within { IfOk result (λ x. x.1 ≤ length bytes.now) }
{
    if code == LEASE {
        let (ceil, end) = take_u64(bytes, at)?;
        return Ok((Record::Lease { ceil }, end));
    }
    if code == PREPARE {
        return take_prepare::<C>(alloc, bytes, at);
    }
    if code == DECIDE {
        let (ended, end) = take_ended(bytes, at)?;
        let (tx, c) = ended;
        return Ok((Record::Decide { tx, c }, end));
    }
    if code == FINISH {
        let (ended, end) = take_ended(bytes, at)?;
        let (tx, c) = ended;
        return Ok((Record::Finish { tx, c }, end));
    }
    if code == ABORT {
        let (tx, end) = take_tx(bytes, at)?;
        return Ok((Record::Abort { tx }, end));
    }
    let (message, end) = take_batch::<C>(alloc, bytes, at)?;
    Ok((Record::Batch { message }, end))
}

fn take_prepare<C: Crdt>(
    alloc: Global,
    bytes: &[u8],
    at: usize,
) -> Result<(Record<C::Effect>, usize), TakeError>
    ensures answer { Gives result (mapped_at prepare_of (prepared_at C.has C.reading) bytes.now at) }
    ensures within { IfOk result (λ x. x.1 ≤ length bytes.now) }
{
    let (tx, lead_at) = take_tx(bytes, at)?;
    let (lead, time_at) = take_u8(bytes, lead_at)?;
    let (time, s_at) = take_u64(bytes, time_at)?;
    let (s, updates_at) = take_vector(bytes, s_at)?;
    let (updates, end) = take_updates::<C>(alloc, bytes, updates_at)?;
    let prepare = Record::Prepare {
        tx,
        lead,
        time,
        s,
        updates,
    };
    Ok((prepare, end))
}

/// The transaction and the commit vector at a place, and the place after them.
fn take_ended(bytes: &[u8], at: usize) -> Result<((TxId, VTime), usize), TakeError>
    ensures answer { result ≡ ended_at bytes.now at }
    ensures within { IfOk result (λ x. x.1 ≤ length bytes.now) }
{
    let (tx, c_at) = take_tx(bytes, at)?;
    let (c, end) = take_vector(bytes, c_at)?;
    Ok(((tx, c), end))
}
