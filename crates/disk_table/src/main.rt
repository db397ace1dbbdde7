//! Crashes, full disks and damaged logs, as a table.
//!
//! `disk_table table` prints it: its stored run is the test of disk_core, gate_log, twin_log and disk_makers.
//! `disk_table append N`, `disk_table open N` and `disk_table copy N` do so many appends, openings and copies, for
//! bench/log to measure.
#![tactic(auto)]

mod again;
mod bench;
mod logs;
mod table;
mod twin;
mod words;

use std::{env, io};

/// The process's words, its own name left out.
fn words_of(rt: &HostRuntime) -> io::Result<Vec<String>> {
    let mut words = Vec::new(rt.alloc());
    for word in env::args(rt)?.skip(1) {
        words.push(word)?;
    }
    Ok(words)
}

fn main(rt: HostRuntime) -> io::Result<()> {
    let words = words_of(&rt)?;
    match words.as_slice() {
        [work] if work.as_str() == "table" => table::print(&rt)?,
        [work, times] if work.as_str() == "append" => {
            bench::append(&rt, times.parse::<u64>().unwrap_or(0))?
        }
        [work, times] if work.as_str() == "open" => {
            bench::open(&rt, times.parse::<u64>().unwrap_or(0))?
        }
        [work, times] if work.as_str() == "copy" => {
            bench::copy(&rt, times.parse::<u64>().unwrap_or(0))?
        }
        _ => eprintln!(rt; "disk_table table | append N | open N | copy N")?,
    }
    Ok(())
}
