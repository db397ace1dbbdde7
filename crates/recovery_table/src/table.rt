ghost use Rattle.std.specs.Prelude.{◌≤◌};

// The table. Each line is copied. `crashes PART ROOM; ` and calls, which commas part, of this partition of the first
// site, over a disk of so much room: what each answers after those before it, and what comes up where it is cut off at
// each call of the disk. `wrong PART ROOM; ` and calls: what comes up where one byte is changed of those that they
// leave. `elsewhere PART ROOM; ` and calls: what comes up over their disk as the second partition. `fits; ` and
// records: whether they fit, and what they tell.
use crate::answers::Failure;
use crate::call::{steps_of, words_of};
use crate::crashes::{Home, bytes_after, try_each, wake};
use crate::fits;
use std::alloc::Global;

/// Answers each line of a text.
pub(crate) fn run(alloc: Global, out: &mut String, text: &str) -> Result<(), Failure> {
    for line in text.lines() {
        writeln!(out, "{line}")?;
        answer(alloc, out, line)?;
    }
    Ok(())
}

fn answer(alloc: Global, out: &mut String, line: &str) -> Result<(), Failure> {
    let Some((front, rest)) = line.split_once("; ") else {
        return Ok(());
    };
    let words = words_of(front);
    let home = Home {
        part: words.numbers[0].min(255) as u8,
        room: words.numbers[1],
    };
    match words.word {
        "crashes" => put_crashes(alloc, out, home, rest),
        "wrong" => put_wrong(alloc, out, home, rest),
        "elsewhere" => put_elsewhere(alloc, out, home, rest),
        "fits" => fits::answer(alloc, out, rest),
        _ => Ok(()),
    }
}

/// Adds what each call of a line answers, and what comes up where it is cut off.
fn put_crashes(alloc: Global, out: &mut String, home: Home, text: &str) -> Result<(), Failure> {
    let steps = steps_of(alloc, text)?;
    try_each(alloc, out, home, steps.as_slice())
}

/// Adds what comes up over the disk that calls leave, with one byte changed.
fn put_wrong(alloc: Global, out: &mut String, home: Home, text: &str) -> Result<(), Failure> {
    let steps = steps_of(alloc, text)?;
    let bytes = bytes_after(alloc, home, steps.as_slice())?;
    change_each(alloc, out, bytes.as_slice())
}

/// Adds what comes up over the disk that calls leave, as the second partition.
fn put_elsewhere(alloc: Global, out: &mut String, home: Home, text: &str) -> Result<(), Failure> {
    let steps = steps_of(alloc, text)?;
    let bytes = bytes_after(alloc, home, steps.as_slice())?;
    out.push_str(" ")?;
    put_waking(alloc, out, 2, bytes.as_slice())
}

/// Adds what comes up over a disk that holds these bytes.
fn put_waking(alloc: Global, out: &mut String, part: u8, bytes: &[u8]) -> Result<(), Failure>
    requires least { 1 ≤ part }
    requires most { part ≤ 2 }
{
    match wake(alloc, part, bytes) {
        Ok(text) => writeln!(out, " {text}")?,
        Err(failure) => writeln!(out, " {failure}")?,
    }
    Ok(())
}

/// Changes each byte, one by one.
fn change_each(alloc: Global, out: &mut String, bytes: &[u8]) -> Result<(), Failure> {
    for place in 0..bytes.len() {
        let mut changed = Vec::from_slice(alloc, bytes)?;
        if place < changed.len() {
            changed[place] ^= 1;
        }
        write!(out, "  byte {place}:")?;
        put_waking(alloc, out, 1, changed.as_slice())?;
    }
    Ok(())
}
