use crate::words::{counter, offer, single};
use crdt_core::{ObjectId, Part};
use crdt_counters::CounterPn;
use effect_store::Store;
use site_vector::{TxId, VTime};
use std::alloc::{AllocError, Global};
use std::io;
use std::time::Instant;

type Counters = Store<CounterPn>;

/// How many counters there are.
const OBJECTS: u64 = 1000;

/// How many places late a late part comes.
const LATE: u64 = 64;

fn object(alloc: Global, i: u64) -> Result<ObjectId, AllocError> {
    let key = format!(in alloc; "k{}", i % OBJECTS)?;
    counter(alloc, key.as_str())?.ok_or(AllocError)
}

/// The snapshot that shows the parts up to a time.
fn snapshot(time: u64) -> VTime {
    VTime::zero(3).with(1, time)
}

/// The part with this time at the first site.
fn part(alloc: Global, time: u64) -> Result<Part<i64>, AllocError> {
    let key = format!(in alloc; "k{}", time % OBJECTS)?;
    let tx = TxId {
        site: 1,
        part: 1,
        time,
    };
    single(alloc, tx, snapshot(time), key.as_str(), 1)
}

/// Fills the store with parts of the times up to `last`, in order but for one in ten, which comes late.
fn fill(alloc: Global, store: &mut Counters, last: u64, late: u64) -> Result<u64, AllocError> {
    let mut taken: u64 = 0;
    for now in 1..last.saturating_add(late).saturating_add(1) {
        let is_late = late > 0 && now % 10 == 0;
        if now <= last && !is_late && offer(store, part(alloc, now)?) {
            taken = taken.saturating_add(1);
        }
        if late > 0
            && now > late
            && (now - late) % 10 == 0
            && offer(store, part(alloc, now - late)?)
        {
            taken = taken.saturating_add(1);
        }
    }
    Ok(taken)
}

/// Reads each of so many counters at a snapshot, and says how many were read.
fn read_all(
    alloc: Global,
    store: &mut Counters,
    first: u64,
    count: u64,
    s: &VTime,
) -> Result<u64, AllocError> {
    let mut read: u64 = 0;
    for i in 0..count {
        let object = object(alloc, first.saturating_add(i))?;
        if s.width() == store.sites() {
            let _shown = store.value(alloc, &object, s)?;
            read = read.saturating_add(1);
        }
    }
    Ok(read)
}

/// How many parts a stretch of time has.
fn count_between(store: &Counters, lo: u64, hi: u64) -> u64 {
    let mut count: u64 = 0;
    if store.sites() == 0 {
        return count;
    }
    for _part in store.between(1, lo, hi) {
        count = count.saturating_add(1);
    }
    count
}

/// Says how many of something were done, and in how many microseconds.
fn tell(rt: &HostRuntime, what: &str, count: u64, start: &Instant) -> io::Result<()> {
    let spent = start.elapsed(rt)?.as_micros();
    println!(rt; "{what} {count} {spent}")
}

/// Fills a store, and reads it: newest states twice, states at a snapshot that lacks the last hundred parts, and the last hundred parts.
fn measure_one(rt: &HostRuntime, what: &str, last: u64, late: u64) -> io::Result<()> {
    let alloc = rt.alloc();
    let mut store = Store::new(alloc, 3);
    let most = usize::try_from(last).unwrap_or(0);
    store.reserve(most, most)?;
    let start = Instant::now(rt)?;
    let taken = fill(alloc, &mut store, last, late)?;
    tell(rt, what, taken, &start)?;
    let start = Instant::now(rt)?;
    let read = read_all(alloc, &mut store, 0, OBJECTS, &snapshot(last))?;
    tell(rt, "  first reads", read, &start)?;
    let start = Instant::now(rt)?;
    let mut again: u64 = 0;
    for _pass in 0..100 {
        again = again.saturating_add(read_all(alloc, &mut store, 0, OBJECTS, &snapshot(last))?);
    }
    tell(rt, "  newest reads", again, &start)?;
    let behind = last.saturating_sub(100);
    let start = Instant::now(rt)?;
    let read = read_all(alloc, &mut store, behind, 100, &snapshot(behind))?;
    tell(rt, "  reads 100 parts back", read, &start)?;
    let start = Instant::now(rt)?;
    let mut listed: u64 = 0;
    for pass in 0..1000 {
        listed = listed.saturating_add(count_between(
            &store,
            behind.saturating_add(pass % 2),
            last,
        ));
    }
    tell(
        rt,
        "  parts of the last 100 or 99, 1000 times",
        listed,
        &start,
    )
}

/// Measures so many parts in order, and as many with one in ten 64 places late.
pub(crate) fn measure(rt: &HostRuntime, parts: u32) -> io::Result<()> {
    let last = u64::from(parts);
    measure_one(rt, "parts in order", last, 0)?;
    measure_one(rt, "parts, one in ten late", last, LATE)
}

/// Makes so many parts and only holds them, to tell what memory they take themselves.
pub(crate) fn hold(rt: &HostRuntime, parts: u32) -> io::Result<()> {
    let alloc = rt.alloc();
    let start = Instant::now(rt)?;
    let mut held = Vec::new(alloc);
    held.reserve(usize::try_from(parts).unwrap_or(0))?;
    for time in 0..u64::from(parts) {
        held.push(part(alloc, time.saturating_add(1))?)?;
    }
    tell(rt, "parts made", held.len() as u64, &start)
}
