//! A partition on its disk, cut off at each call of the disk and restarted, as a table.
//!
//! `recovery_table table` answers the lines of standard input, as table.rt says: its stored run is the test of the
//! restart of partition_core and of log_recovery. It ends with status 1 where a partition comes up otherwise than the
//! calls before allow. `recovery_table bench N` makes N transactions, and `recovery_table restart N TIMES` restarts
//! their log so many times, for bench/recovery to measure.
#![tactic(auto)]

mod answers;
mod bench;
mod book;
mod call;
mod crashes;
mod fits;
mod place;
mod table;
mod words;

use std::io::{Read, Write};
use std::{env, io};

/// The process's words, its own name left out.
fn words_of(rt: &HostRuntime) -> io::Result<Vec<String>> {
    let mut words = Vec::new(rt.alloc());
    for word in env::args(rt)?.skip(1) {
        words.push(word)?;
    }
    Ok(words)
}

/// Answers the lines of standard input.
fn answer_lines(rt: &HostRuntime) -> io::Result<()> {
    let alloc = rt.alloc();
    let text = io::read_to_string(alloc, rt.stdin())?;
    let mut out = String::new(alloc);
    let answer = table::run(alloc, &mut out, text.as_str());
    rt.stdout().write_all(out.as_bytes())?;
    match answer {
        Ok(()) => Ok(()),
        Err(failure) => {
            println!(rt; "{failure}")?;
            Err(io::Error::from(failure))
        }
    }
}

/// Makes so many transactions, and restarts so many times.
fn measure(rt: &HostRuntime, transactions: u64, restarts: u64) -> io::Result<()> {
    let shown = bench::run(rt.alloc(), transactions, restarts)?;
    println!(rt; "{transactions} transactions, {restarts} restarts, {shown} shown")
}

fn main(rt: HostRuntime) -> io::Result<()> {
    let words = words_of(&rt)?;
    match words.as_slice() {
        [work] if work.as_str() == "table" => answer_lines(&rt),
        [work, count] if work.as_str() == "bench" => {
            measure(&rt, count.parse::<u64>().unwrap_or(0), 0)
        }
        [work, count, times] if work.as_str() == "restart" => measure(
            &rt,
            count.parse::<u64>().unwrap_or(0),
            times.parse::<u64>().unwrap_or(0),
        ),
        _ => eprintln!(rt; "recovery_table table < LINES | bench N | restart N TIMES"),
    }
}
