// What stands in the traces of partitions, as seats know it.
use crdt_core::{Message, ObjectId, Op, Part, Upd, Value};
use site_vector::TxId;
use std::collections::LinkedList;

/// What was asked of a partition. No value of it is made.
pub enum Asked<E> {
    Tick {
        clock_time: u64,
    },
    Begin {
        who: LinkedList<u64>,
        past: LinkedList<u64>,
        stable: bool,
    },
    Read {
        tx: TxId,
        s: LinkedList<u64>,
        object: ObjectId,
        own: LinkedList<Upd<E>>,
    },
    Update {
        tx: TxId,
        s: LinkedList<u64>,
        object: ObjectId,
        own: LinkedList<Upd<E>>,
        op: Op,
    },
    Prepare {
        tx: TxId,
        s: LinkedList<u64>,
        lead: u64,
        updates: LinkedList<Upd<E>>,
    },
    Decide {
        tx: TxId,
        c: LinkedList<u64>,
    },
    Finish {
        tx: TxId,
        c: LinkedList<u64>,
    },
    Abort {
        tx: TxId,
    },
    Message {
        to: u64,
        asked: Option<u64>,
    },
    Take {
        number: u64,
        message: Message<E>,
    },
    Report,
    Hear {
        number: u64,
        part: u64,
        bounds: LinkedList<u64>,
    },
}

/// What a partition did. No value of it is made.
pub enum Done<E> {
    Ticked {
        clock_time: u64,
        now: u64,
    },
    Began {
        who: LinkedList<u64>,
        past: LinkedList<u64>,
        stable: bool,
        tx: TxId,
        s: LinkedList<u64>,
    },
    /// With the parts that were read, which the answer doesn't tell.
    Updated {
        tx: TxId,
        s: LinkedList<u64>,
        object: ObjectId,
        own: LinkedList<Upd<E>>,
        op: Op,
        read: LinkedList<Part<E>>,
        change: Upd<E>,
        stamp: Option<u64>,
    },
    Read {
        tx: TxId,
        s: LinkedList<u64>,
        object: ObjectId,
        own: LinkedList<Upd<E>>,
        read: LinkedList<Part<E>>,
        value: Value,
    },
    Prepared {
        tx: TxId,
        s: LinkedList<u64>,
        lead: u64,
        updates: LinkedList<Upd<E>>,
        time: u64,
    },
    Decided {
        tx: TxId,
        c: LinkedList<u64>,
    },
    Finished {
        tx: TxId,
        c: LinkedList<u64>,
    },
    Aborted {
        tx: TxId,
        own: bool,
    },
    Sent {
        asked: Option<u64>,
        message: Message<E>,
    },
    Took {
        number: u64,
        message: Message<E>,
    },
    Reported {
        bounds: LinkedList<u64>,
    },
    Heard {
        number: u64,
        part: u64,
        bounds: LinkedList<u64>,
        stable: LinkedList<u64>,
    },
}

/// Why it didn't. No value of it is made.
pub enum Cause {
    Down,
    ClockBehind { now: u64 },
    TxPending { tx: TxId, time: u64 },
    StableBehind { site: u64, have: u64 },
    ClockAtEnd,
    Gone,
    Gap { have: u64 },
    Repeat { have: u64 },
    BadOp,
    NoRoom { room: u64 },
    Damaged { at: u64 },
}

/// A step of a partition: what it did, what its disk cut off, or what it refused. No value of it is made.
pub enum Told<E> {
    Did { what: Done<E> },
    Cut { what: Done<E> },
    Refused { asked: Asked<E>, why: Cause },
}
