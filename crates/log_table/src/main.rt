//! Records, messages and partitions' logs as bytes, as a table.
//!
//! `log_table table` answers the lines of standard input, as table.rt says: its stored run is the test of log_records and partition_log.
//! `log_table put N` and `log_table take N` put and take a Batch so many times, for bench/records to measure.
#![tactic(auto)]

mod bench;
mod logs;
mod table;
mod words;

use std::io::{Read, Write};
use std::{env, io};

/// The process's words, its own name left out.
fn words_of(rt: &HostRuntime) -> io::Result<Vec<String>> {
    let mut words = Vec::new(rt.alloc());
    for word in env::args(rt)?.skip(1) {
        words.push(word)?;
    }
    Ok(words)
}

/// Answers the lines of standard input.
fn answer_lines(rt: &HostRuntime) -> io::Result<()> {
    let alloc = rt.alloc();
    let text = io::read_to_string(alloc, rt.stdin())?;
    let out = table::run(alloc, text.as_str())?;
    rt.stdout().write_all(out.as_bytes())
}

fn main(rt: HostRuntime) -> io::Result<()> {
    let words = words_of(&rt)?;
    match words.as_slice() {
        [work] if work.as_str() == "table" => answer_lines(&rt),
        [work, times] if work.as_str() == "put" => {
            bench::put_often(&rt, times.parse::<u64>().unwrap_or(0))
        }
        [work, times] if work.as_str() == "take" => {
            bench::take_often(&rt, times.parse::<u64>().unwrap_or(0))
        }
        _ => eprintln!(rt; "log_table table < LINES | put N | take N"),
    }
}
