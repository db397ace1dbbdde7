//! Runs cases of the tables under a partition, and measures them.
//!
//! `table_bench show`, or no word, runs the lines of standard input and prints what each answers: the test of the crates. `table_bench bench PARTS`
//! fills a store with so many parts, in order and with one in ten late, and says how long that and reads of it took; `table_bench hold PARTS` only makes
//! the parts.
#![tactic(auto)]

mod bench;
mod script;
mod words;

use std::io::{Read, Write};
use std::{env, io};

/// The process's words, its own name left out.
fn words_of(rt: &HostRuntime) -> io::Result<Vec<String>> {
    let mut words = Vec::new(rt.alloc());
    for word in env::args(rt)?.skip(1) {
        words.push(word)?;
    }
    Ok(words)
}

/// Runs the lines of standard input.
fn show(rt: &HostRuntime) -> io::Result<()> {
    let alloc = rt.alloc();
    let text = io::read_to_string(alloc, rt.stdin())?;
    let out = script::run(alloc, text.as_str())?;
    rt.stdout().write_all(out.as_bytes())
}

fn main(rt: HostRuntime) -> io::Result<()> {
    let words = words_of(&rt)?;
    match words.as_slice() {
        [] => show(&rt),
        [work] if work.as_str() == "show" => show(&rt),
        [work, parts] if work.as_str() == "bench" => {
            bench::measure(&rt, parts.parse::<u32>().unwrap_or(0))
        }
        [work, parts] if work.as_str() == "hold" => {
            bench::hold(&rt, parts.parse::<u32>().unwrap_or(0))
        }
        _ => eprintln!(rt;
            "table_bench [show] < LINES | table_bench bench PARTS | table_bench hold PARTS"
        ),
    }
}
