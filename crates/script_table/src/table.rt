// The table. What stands before the first `== ` is left out. Behind each stands a case: the rest of its line is a setting,
// and the lines up to the next are a script. It is answered by the setting and the replies, the code that the process ends
// with and the line on standard error, and the partitions whose disks the maker has back. Settings, with numbers from 1:
//
//   plain           the script is a slice, its replies go into memory, and nothing fails
//   bare            without the script's last byte, a line feed
//   words W..       the process's words are W..
//   read N..        the source fails at its calls N..     write N..   the sink fails at its calls N..
//   make N..        the maker of disks fails at these     disk N..    each disk fails at its calls N..
//   room N          the sink has room for N bytes         blank N     the script is N line feeds
//   spaces N        a line has N spaces in its midst      reader      the source is a reader that fails
//   writer          the sink is a writer that fails       full        the sink is a writer that takes nothing
//   blocks N        two blocks of N bytes are read from a reader, and written, and nothing is played
//   hex W..         the process's words are W.., and the script's bytes and the replies' are spelled in hexadecimal
//   files DIR       disks are kept in files of the folder DIR, and the bytes of the first partition's are told too
use crate::case::{
    Faults, copy_by_blocks, play_bytes, play_from, play_in_files, play_into, play_over,
};
use crate::ends::{Broken, Full};
use dc_engine::{ReaderSource, WriterSink};
use std::alloc::{AllocError, Global};
use std::io;
use std::io::Write;

/// Answers each case of a text.
pub(crate) fn run(rt: &HostRuntime, out: &mut Vec<u8>, text: &str) -> io::Result<()> {
    for case in text.split("== ").skip(1) {
        let (setting, script) = case.split_once('\n').unwrap_or((case, ""));
        writeln!(out, "== {setting}")?;
        match setting.strip_prefix("files ") {
            Some(folder) => play_in_files(rt, out, folder, script.as_bytes())?,
            None => answer(rt.alloc(), out, setting, script.as_bytes())?,
        }
    }
    Ok(())
}

/// Answers a case of this setting and script.
fn answer(alloc: Global, out: &mut Vec<u8>, setting: &str, script: &[u8]) -> io::Result<()> {
    let (name, about) = setting.split_once(' ').unwrap_or((setting, ""));
    match name {
        "bare" => play(alloc, out, script.strip_suffix(b"\n").unwrap_or(script)),
        "words" => answer_words(alloc, out, about, script),
        "hex" => answer_hex(alloc, out, about, script),
        "blank" => answer_blank(alloc, out, number_of(about)),
        "spaces" => answer_spaces(alloc, out, number_of(about)),
        "reader" => play_from(alloc, out, &mut ReaderSource::new(Broken)),
        "writer" => play_into(alloc, out, script, &mut WriterSink::new(Broken)),
        "full" => play_into(alloc, out, script, &mut WriterSink::new(Full)),
        "blocks" => copy_by_blocks(alloc, out, script, number_of(about)),
        _ => answer_faults(alloc, out, name, about, script),
    }
}

/// Plays a script where nothing fails.
fn play(alloc: Global, out: &mut Vec<u8>, script: &[u8]) -> io::Result<()> {
    play_over(alloc, out, &["play"], script, Faults::none())
}

/// Plays a script for other words of the process.
fn answer_words(alloc: Global, out: &mut Vec<u8>, words: &str, script: &[u8]) -> io::Result<()> {
    let words = words_of(alloc, words)?;
    play_over(alloc, out, words.as_slice(), script, Faults::none())
}

/// Plays a script of these bytes, spelled in hexadecimal, for these words of the process.
fn answer_hex(alloc: Global, out: &mut Vec<u8>, words: &str, script: &[u8]) -> io::Result<()> {
    let words = words_of(alloc, words)?;
    let script = bytes_of(alloc, script)?;
    play_bytes(alloc, out, words.as_slice(), script.as_slice())
}

/// Plays so many line feeds.
fn answer_blank(alloc: Global, out: &mut Vec<u8>, count: usize) -> io::Result<()> {
    let script = vec![in alloc; b'\n'; count]?;
    play(alloc, out, script.as_slice())
}

/// Plays a script with so many spaces in the midst of a line.
fn answer_spaces(alloc: Global, out: &mut Vec<u8>, count: usize) -> io::Result<()> {
    let script = spaced(alloc, count)?;
    play(alloc, out, script.as_slice())
}

/// Plays a script where what the setting says fails at the calls with these numbers.
fn answer_faults(
    alloc: Global,
    out: &mut Vec<u8>,
    name: &str,
    numbers: &str,
    script: &[u8],
) -> io::Result<()> {
    let numbers = numbers_of(alloc, numbers)?;
    let faults = Faults::of(name, numbers.as_slice());
    play_over(alloc, out, &["play"], script, faults)
}

/// The words of a text.
fn words_of(alloc: Global, text: &str) -> Result<Vec<&str>, AllocError> {
    let mut words = Vec::new(alloc);
    for word in text.split(" ") {
        words.push(word)?;
    }
    Ok(words)
}

/// The numbers that the words of a text spell.
fn numbers_of(alloc: Global, text: &str) -> Result<Vec<u64>, AllocError> {
    let mut numbers = Vec::new(alloc);
    for word in text.split(" ") {
        numbers.push(word.parse::<u64>().unwrap_or(0))?;
    }
    Ok(numbers)
}

/// The bytes that the hexadecimal digits of a text spell, two of them each.
fn bytes_of(alloc: Global, text: &[u8]) -> Result<Vec<u8>, AllocError> {
    let mut bytes = Vec::new(alloc);
    let mut high = None;
    for digit in text {
        let Some(value) = char::from(*digit).to_digit(16) else {
            continue;
        };
        match high {
            None => high = Some(value),
            Some(first) => {
                bytes.push(u8::try_from(first << 4 | value).unwrap_or(0))?;
                high = None;
            }
        }
    }
    Ok(bytes)
}

fn number_of(word: &str) -> usize {
    word.parse::<usize>().unwrap_or(0)
}

/// A script whose last line has so many spaces in its midst, and 10 other bytes.
fn spaced(alloc: Global, count: usize) -> Result<Vec<u8>, AllocError> {
    let mut script = Vec::from_slice(alloc, b"cluster 1 1\nclock 1.1")?;
    script.extend_from_slice(vec![in alloc; b' '; count]?.as_slice())?;
    script.extend_from_slice(b"5\n")?;
    Ok(script)
}
