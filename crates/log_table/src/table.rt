// The table. A line `record HEX` is answered by what the bytes are; where they are a record, also by whether it is put as the same bytes, what each front of
// them is, what they are with one byte more, and how many wrong values of each byte are refused where any is, the first and the last with their places. A line
// `message HEX` is answered by the message at the start of the bytes; `crash CALL KEPT`, `room ROOM` and `open HEX` as logs.rt says. Other lines are copied.
use crate::logs;
use crate::words::{bytes_of, put_answer, put_hex};
use crdt_counters::CounterPn;
use field_codec::TakeError;
use log_records::{RecordError, put, put_message, take, take_message};
use std::alloc::{AllocError, Global};

/// Answers each line of a text.
pub(crate) fn run(alloc: Global, text: &str) -> Result<String, AllocError> {
    let mut out = String::new(alloc);
    for line in text.lines() {
        answer(alloc, &mut out, line)?;
    }
    Ok(out)
}

fn answer(alloc: Global, out: &mut String, line: &str) -> Result<(), AllocError> {
    match line.split_once(' ') {
        Some(("record", digits)) => {
            let bytes = bytes_of(alloc, digits)?;
            answer_record(alloc, out, bytes.as_slice())
        }
        Some(("message", digits)) => {
            let bytes = bytes_of(alloc, digits)?;
            answer_message(alloc, out, bytes.as_slice())
        }
        Some(("crash", words)) => {
            let (call, cut_length) = words.split_once(' ').unwrap_or((words, ""));
            let call = call.parse::<u64>().unwrap_or(0);
            write!(out, "{line}: ")?;
            logs::crash(alloc, out, call, cut_length.parse::<u64>().unwrap_or(0))
        }
        Some(("room", word)) => {
            write!(out, "{line}: ")?;
            logs::room(alloc, out, word.parse::<u64>().unwrap_or(0))
        }
        Some(("open", digits)) => {
            write!(out, "{line}: ")?;
            logs::open(alloc, out, digits)
        }
        _ => writeln!(out, "{line}"),
    }
}

fn answer_record(alloc: Global, out: &mut String, bytes: &[u8]) -> Result<(), AllocError> {
    put_hex(out, bytes)?;
    out.push_str(": ")?;
    let taken = take::<CounterPn>(alloc, bytes);
    put_answer(out, &taken)?;
    if let Ok(record) = taken {
        let mut again = Vec::new(alloc);
        put::<CounterPn>(&mut again, &record)?;
        let same = again.as_slice() == bytes;
        writeln!(out, ", put as the same: {same}")?;
        answer_fronts(alloc, out, bytes)?;
        return answer_wrong_bytes(alloc, out, bytes);
    }
    out.push_str("\n")
}

/// The fronts of these bytes, and the bytes with one more.
fn answer_fronts(alloc: Global, out: &mut String, bytes: &[u8]) -> Result<(), AllocError> {
    let mut damaged: u64 = 0;
    for len in 0..bytes.len() {
        if let Err(RecordError::Damaged { at: 0 }) = take::<CounterPn>(alloc, &bytes[..len]) {
            damaged = damaged.saturating_add(1);
        }
    }
    let count = bytes.len();
    write!(
        out,
        "  fronts: {damaged} of {count} damaged at 0; with one byte more: "
    )?;
    let mut more = Vec::from_slice(alloc, bytes)?;
    more.push(0)?;
    put_answer(out, &take::<CounterPn>(alloc, more.as_slice()))?;
    out.push_str("\n")
}

/// How many wrong values of a byte are refused, and the first and the last of them with the place of the damage.
#[derive(Clone, Copy)]
struct Refused {
    count: u64,
    first: Option<(u8, usize)>,
    last: Option<(u8, usize)>,
}

/// What becomes of the bytes with each other value of the byte at a place.
fn refusals(alloc: Global, bytes: &[u8], place: usize) -> Result<Refused, AllocError> {
    let mut refused = Refused {
        count: 0,
        first: None,
        last: None,
    };
    for value in 0..=255u8 {
        let mut changed = Vec::from_slice(alloc, bytes)?;
        if place < changed.len() {
            changed[place] = value;
        }
        if let Err(RecordError::Damaged { at }) = take::<CounterPn>(alloc, changed.as_slice()) {
            refused.count = refused.count.saturating_add(1);
            refused.first = refused.first.or(Some((value, at)));
            refused.last = Some((value, at));
        }
    }
    Ok(refused)
}

fn answer_wrong_bytes(alloc: Global, out: &mut String, bytes: &[u8]) -> Result<(), AllocError> {
    for place in 0..bytes.len() {
        let byte = bytes[place];
        let refused = refusals(alloc, bytes, place)?;
        if let (Some((first, at)), Some((last, last_at))) = (refused.first, refused.last) {
            let count = refused.count;
            write!(out, "  byte {place}, {byte:02x}: {count} refused, ")?;
            writeln!(out, "{first:02x} at {at}, {last:02x} at {last_at}")?;
        }
    }
    Ok(())
}

fn answer_message(alloc: Global, out: &mut String, bytes: &[u8]) -> Result<(), AllocError> {
    put_hex(out, bytes)?;
    match take_message::<CounterPn>(alloc, bytes, 0) {
        Ok((message, end)) => {
            let mut again = Vec::new(alloc);
            put_message::<CounterPn>(&mut again, &message)?;
            let same = bytes.starts_with(again.as_slice());
            let parts = message.parts.as_slice().len();
            writeln!(out, ": {parts} parts up to {end}, put as the same: {same}")
        }
        Err(TakeError::Short { at }) => writeln!(out, ": short at {at}"),
        Err(TakeError::Bad { at }) => writeln!(out, ": bad at {at}"),
        Err(TakeError::NoMemory) => out.push_str(": no memory\n"),
    }
}
