//! Scripts and how each ends, as a table.
//!
//! `script_table table` answers standard input, as table.rt says: its stored run is the test of how dc_engine ends a
//! script, whatever its source, its sink and its disks do.
#![tactic(auto)]

mod case;
mod ends;
mod table;

use std::io::{Read, Write};
use std::{env, io};

/// The process's words, its own name left out.
fn words_of(rt: &HostRuntime) -> io::Result<Vec<String>> {
    let mut words = Vec::new(rt.alloc());
    for word in env::args(rt)?.skip(1) {
        words.push(word)?;
    }
    Ok(words)
}

/// Answers the cases of standard input.
fn answer_cases(rt: &HostRuntime) -> io::Result<()> {
    let alloc = rt.alloc();
    let text = io::read_to_string(alloc, rt.stdin())?;
    let mut out = Vec::new(alloc);
    table::run(rt, &mut out, text.as_str())?;
    rt.stdout().write_all(out.as_slice())
}

fn main(rt: HostRuntime) -> io::Result<()> {
    let words = words_of(&rt)?;
    match words.as_slice() {
        [work] if work.as_str() == "table" => answer_cases(&rt),
        _ => eprintln!(rt; "script_table table < CASES"),
    }
}
