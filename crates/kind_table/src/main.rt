//! Vectors, forms and histories of all kinds, as a table.
//!
//! `kind_table table` answers the lines of standard input, as table.rt says: its stored run is the test of site_vector,
//! field_codec, crdt_core and the crates of the kinds.
#![tactic(auto)]

mod acts;
mod effects;
mod forms;
mod histories;
mod kept;
mod table;
mod values;
mod vectors;
mod words;

use std::io::{Read, Write};
use std::{env, io};

/// The process's words, its own name left out.
fn words_of(rt: &HostRuntime) -> io::Result<Vec<String>> {
    let mut words = Vec::new(rt.alloc());
    for word in env::args(rt)?.skip(1) {
        words.push(word)?;
    }
    Ok(words)
}

/// Answers the lines of standard input.
fn answer_lines(rt: &HostRuntime) -> io::Result<()> {
    let alloc = rt.alloc();
    let text = io::read_to_string(alloc, rt.stdin())?;
    let out = table::run(alloc, text.as_str())?;
    rt.stdout().write_all(out.as_bytes())
}

fn main(rt: HostRuntime) -> io::Result<()> {
    let words = words_of(&rt)?;
    match words.as_slice() {
        [work] if work.as_str() == "table" => answer_lines(&rt),
        _ => eprintln!(rt; "kind_table table < LINES"),
    }
}
