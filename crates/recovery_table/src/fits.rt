// Records that a partition may have written or not, and what they tell.
use crate::answers::Failure;
use crate::call::words_of;
use crate::words::{Brought, Vote, batch_message, vote_record};
use crdt_core::Record;
use field_codec::ListOf;
use log_recovery::{Rebuilt, rebuild, unfit};
use site_vector::{PartId, TxId, VTime};
use std::alloc::{AllocError, Global};

/// The partition, of a cluster of two sites with two partitions each.
const HERE: PartId = PartId { site: 1, part: 1 };

/// A transaction that began at the other partition of the site.
fn tx(begun: u64) -> TxId {
    TxId {
        site: 1,
        part: 2,
        time: begun,
    }
}

fn vector(own: u64, other: u64) -> VTime {
    VTime::zero(2).with(1, own).with(2, other)
}

/// A vote for a transaction, one tick after it began.
fn vote_of(alloc: Global, begun: u64, lead: u64) -> Result<Option<Record<i64>>, AllocError> {
    let wanted = Vote {
        at: HERE.part,
        part: 2,
        begun,
        lead: lead.min(255) as u8,
        time: begun.saturating_add(1),
        amount: 1,
    };
    vote_record(alloc, &wanted)
}

/// What a message of the other site brought up to five ticks above its start.
fn batch_of(alloc: Global, lo: u64) -> Result<Option<Record<i64>>, AllocError> {
    let wanted = Brought {
        part: HERE.part,
        lo,
        hi: lo.saturating_add(5),
        begun: lo,
        time: lo.saturating_add(1),
        amount: 1,
    };
    let message = batch_message(alloc, &wanted)?;
    Ok(message.map(|message| Record::Batch { message }))
}

/// The record that some words name.
fn record_of(alloc: Global, text: &str) -> Result<Option<Record<i64>>, AllocError> {
    let words = words_of(text);
    let [first, second, third, _] = words.numbers;
    match words.word {
        "lease" => Ok(Some(Record::Lease { ceil: first })),
        "vote" => vote_of(alloc, first, second),
        "decide" => Ok(Some(Record::Decide {
            tx: tx(first),
            c: vector(second, third),
        })),
        "finish" => Ok(Some(Record::Finish {
            tx: tx(first),
            c: vector(second, third),
        })),
        "abort" => Ok(Some(Record::Abort { tx: tx(first) })),
        "batch" => batch_of(alloc, first),
        _ => Ok(None),
    }
}

/// The records of a line, which commas part. What names none is left out.
fn records_of(alloc: Global, text: &str) -> Result<ListOf<Record<i64>>, AllocError> {
    let mut all = ListOf::new(alloc);
    for part in text.split(", ") {
        if let Some(record) = record_of(alloc, part)? {
            all.push(record)?;
        }
    }
    Ok(all)
}

/// Adds what records tell that fit.
fn put_rebuilt(out: &mut String, told: &Rebuilt<i64>) -> Result<(), AllocError> {
    let bounds = told.bounds.as_slice();
    write!(out, "ceiling {}, bounds {bounds:?}", told.ceiling)?;
    match told.last_decided {
        Some(tx) => write!(out, ", decided {tx}, pending")?,
        None => out.push_str(", decided none, pending")?,
    }
    for entry in told.pending.as_slice() {
        write!(out, " {} at {}", entry.tx, entry.time)?;
    }
    Ok(())
}

/// Adds what was committed.
fn put_committed(out: &mut String, told: &Rebuilt<i64>) -> Result<(), AllocError> {
    out.push_str(", committed")?;
    for part in told.committed.as_slice() {
        write!(out, " {}", part.tx)?;
    }
    out.push_str("\n")
}

/// Adds all that records tell that fit.
fn put_told(out: &mut String, told: &Rebuilt<i64>) -> Result<(), AllocError> {
    out.push_str("  ")?;
    put_rebuilt(out, told)?;
    put_committed(out, told)
}

/// Adds whether the records of a line fit, and what they tell.
pub(crate) fn answer(alloc: Global, out: &mut String, text: &str) -> Result<(), Failure> {
    let records = records_of(alloc, text)?;
    match unfit(alloc, records.as_slice(), HERE, 2, 2)? {
        Some(number) => writeln!(out, "  record {number} doesn't fit")?,
        None => {
            let told = rebuild(alloc, records, 2, HERE)?;
            put_told(out, &told)?;
        }
    }
    Ok(())
}
