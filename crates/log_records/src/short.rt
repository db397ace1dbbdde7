ghost use Rattle.std.specs.Prelude.{◌≡◌, ◌≤◌, ◌<◌, ◌+◌, ◌++◌, true, length, take};
ghost use Rattle.field_codec.specs.Spelling.{number};
ghost use Rattle.crdt_core.specs.declared.record.Record.TheVariants.{Lease, Decide, Finish, Abort};
ghost use Rattle.crdt_core.specs.Spelled.{is_tx, tx as tx_bytes, is_vector, vector};
ghost use Rattle.log_records.specs.Records.{is_record_spelled, record_bytes};

use crate::record_form::{ABORT, DECIDE, FINISH, LEASE};
use crdt_core::Crdt;
use site_vector::{TxId, VTime};
use std::marker::Model;

/// A code, a transaction, a number of entries, and eight entries.
const MOST: usize = 76;

/// The bytes of a record that has no list. They take no memory. Contracts see them as a list.
#[derive(Debug, Drop)]
pub struct Short {
    bytes: [u8; MOST],
    len: usize,
}

impl Model for Short {
    ghost use Rattle.std.specs.Prelude.{List, ℕ, ◌≤◌, take};

    ghost Value = { List ℕ };

    ghost view = { λ s. take s.len s.bytes };

    ghost invariant = { λ s. s.len ≤ 76 };
}

impl Short {
    /// The bytes.
    pub fn as_slice(&self) -> &[u8]
        ensures { result.now ≡ self.now }
    {
        &self.bytes[..self.len]
    }

    /// Those of a Lease.
    pub fn lease<C: Crdt>(ceil: u64) -> Short
        ensures spelled { is_record_spelled C.has C.is_of C.is_spelled (Lease ceil) ≡ true }
        ensures bytes { result ≡ record_bytes C.spelling (Lease ceil) }
    {
        let mut bytes = [0; MOST];
        put_byte(&mut bytes, 0, LEASE);
        put_word(&mut bytes, 1, ceil);
        Short { bytes, len: 9 }
    }

    /// Those of a Decide.
    pub fn decide<C: Crdt>(tx: TxId, c: &VTime) -> Short
        requires { is_tx tx ≡ true }
        ensures spelled { is_record_spelled C.has C.is_of C.is_spelled (Decide tx c.now) ≡ true }
        ensures bytes { result ≡ record_bytes C.spelling (Decide tx c.now) }
    {
        Short::ended(DECIDE, tx, c)
    }

    /// Those of a Finish.
    pub fn finish<C: Crdt>(tx: TxId, c: &VTime) -> Short
        requires { is_tx tx ≡ true }
        ensures spelled { is_record_spelled C.has C.is_of C.is_spelled (Finish tx c.now) ≡ true }
        ensures bytes { result ≡ record_bytes C.spelling (Finish tx c.now) }
    {
        Short::ended(FINISH, tx, c)
    }

    fn ended(code: u8, tx: TxId, c: &VTime) -> Short
        requires { is_tx tx ≡ true }
        ensures spelled { is_vector c.now ≡ true }
        ensures bytes { result ≡ number 1 code ++ (tx_bytes tx ++ vector c.now) }
    {
        let mut bytes = [0; MOST];
        put_byte(&mut bytes, 0, code);
        put_tx_at(&mut bytes, 1, tx);
        let len = put_vector_at(&mut bytes, 11, c.width(), c.as_slice());
        Short { bytes, len }
    }

    /// Those of an Abort.
    pub fn abort<C: Crdt>(tx: TxId) -> Short
        requires { is_tx tx ≡ true }
        ensures spelled { is_record_spelled C.has C.is_of C.is_spelled (Abort tx) ≡ true }
        ensures bytes { result ≡ record_bytes C.spelling (Abort tx) }
    {
        let mut bytes = [0; MOST];
        put_byte(&mut bytes, 0, ABORT);
        put_tx_at(&mut bytes, 1, tx);
        Short { bytes, len: 11 }
    }
}

/// Puts a byte at a place.
fn put_byte(bytes: &mut [u8; MOST], at: usize, byte: u8)
    requires { at < 76 }
    ensures { take (at + 1) bytes.new ≡ take at bytes.old ++ number 1 byte }
{
    bytes[at] = byte;
}

/// Puts bytes from a place on.
fn put_bytes(bytes: &mut [u8; MOST], at: usize, put: &[u8])
    requires { at + length put.now ≤ 76 }
    ensures { take (at + length put.now) bytes.new ≡ take at bytes.old ++ put.now }
{
    for i in 0..put.len() {
        bytes[at + i] = put[i];
    }
}

/// Puts a number in the eight bytes from a place on.
fn put_word(bytes: &mut [u8; MOST], at: usize, n: u64)
    requires { at + 8 ≤ 76 }
    ensures { take (at + 8) bytes.new ≡ take at bytes.old ++ number 8 n }
{
    put_bytes(bytes, at, &n.to_be_bytes());
}

/// Puts a transaction in the ten bytes from a place on.
fn put_tx_at(bytes: &mut [u8; MOST], at: usize, tx: TxId)
    requires { at + 10 ≤ 76 }
    ensures { take (at + 10) bytes.new ≡ take at bytes.old ++ tx_bytes tx }
{
    put_byte(bytes, at, tx.site);
    put_byte(bytes, at + 1, tx.part);
    put_word(bytes, at + 2, tx.time);
}

/// Puts a vector in the bytes from a place on, and says which place is behind it.
fn put_vector_at(bytes: &mut [u8; MOST], at: usize, width: u8, v: &[u64]) -> usize
    requires width { width ≡ length v.now }
    requires least { 1 ≤ length v.now }
    requires most { length v.now ≤ 8 }
    requires place { at ≤ 11 }
    ensures spelled { is_vector v.now ≡ true }
    ensures bytes { take result bytes.new ≡ take at bytes.old ++ vector v.now }
    ensures within { result ≤ 76 }
{
    put_byte(bytes, at, width);
    let mut place = at + 1;
    for i in 0..v.len() {
        put_word(bytes, place, v[i]);
        place += 8;
    }
    place
}
