//! Reads the lines of standard input and prints a step for each command.
//!
//! `text_bench show` prints for each line what it reads as: `nothing`, `bad`, or a step with the words of its command. Its stored run is the test
//! of the crates that read lines, and copy and print steps. `text_bench parse N` parses each line N times, `text_bench line N` prints the steps N times, for
//! bench/text to measure; both end with one line of what they made. A line outside the grammar counts as none.
#![tactic(auto)]

ghost use Rattle.std.specs.Prelude.{◌≡◌, Ok, true, false, length, IfOk, OnOk};
ghost use Rattle.world_model.specs.declared.command.Command.{Command};
ghost use Rattle.script_text.specs.declared.Parsed.TheVariants as parsed;
ghost use Rattle.script_text.specs.Line.{Reads};
ghost use Rattle.text_bench.specs.Printed.{lines, times_over};

mod steps;
mod values;

use reply_text::line;
use script_text::{ParseError, Parsed, parse};
use std::alloc::{AllocError, Global};
use std::io::{Read, Write};
use std::{env, io};
use steps::step_of;
use world_model::{Command, Step};

/// Whether a line has a command, which is read into its place then.
fn is_command(alloc: Global, text: &[u8], place: &mut Parsed) -> Result<bool, AllocError>
    ensures some { result ≡ Ok true → (c : Command) × (place.new ≡ parsed.Command c) × Reads text.now (parsed.Command c) }
    ensures none { result ≡ Ok false → (c : Command) → ¬ (Reads text.now (parsed.Command c)) }
{
    match parse(alloc, text, place) {
        Ok(()) => match place {
            Parsed::Command(_) => Ok(true),
            Parsed::Nothing => Ok(false),
        },
        Err(ParseError::Bad) => Ok(false),
        Err(ParseError::NoMemory) => Err(AllocError),
    }
}

/// Parses each line of the script, and counts the commands.
fn parse_script(alloc: Global, script: &[u8], place: &mut Parsed) -> Result<u64, AllocError> {
    let mut commands: u64 = 0;
    for text in script.split(|byte| *byte == b'\n') {
        if is_command(alloc, text, place)? {
            commands = commands.saturating_add(1);
        }
    }
    Ok(commands)
}

/// The step for what was read, where it is a command that has one here.
fn step_read(alloc: Global, place: &Parsed) -> Result<Option<Step>, AllocError> {
    match place {
        Parsed::Command(command) => step_of(alloc, command),
        Parsed::Nothing => Ok(None),
    }
}

/// The step for a line's command, where it has one here.
fn step_in(alloc: Global, text: &[u8], place: &mut Parsed) -> Result<Option<Step>, AllocError> {
    if is_command(alloc, text, place)? {
        return step_read(alloc, place);
    }
    Ok(None)
}

/// A step for each command of the script that has one here.
fn steps_of(alloc: Global, script: &[u8], place: &mut Parsed) -> Result<Vec<Step>, AllocError> {
    let mut steps = Vec::new(alloc);
    for text in script.split(|byte| *byte == b'\n') {
        if let Some(step) = step_in(alloc, text, place)? {
            steps.push(step)?;
        }
    }
    Ok(steps)
}

/// Adds the line of a step, as its copy shows it.
fn put_copy(alloc: Global, step: &Step, out: &mut Vec<u8>) -> Result<(), AllocError> {
    let copy = step.copy(alloc)?;
    line(alloc, &copy, out)
}

/// Adds the step of the command.
fn put_step(alloc: Global, command: &Command, out: &mut Vec<u8>) -> Result<(), AllocError> {
    match step_of(alloc, command)? {
        Some(step) => put_copy(alloc, &step, out),
        None => out.extend_from_slice(b"no step\n"),
    }
}

/// Adds what was read: `nothing`, or the step of its command.
fn put_read(alloc: Global, place: &Parsed, out: &mut Vec<u8>) -> Result<(), AllocError> {
    match place {
        Parsed::Nothing => out.extend_from_slice(b"nothing\n"),
        Parsed::Command(command) => put_step(alloc, command, out),
    }
}

/// Adds the step of a line that isn't in the grammar.
fn put_bad(alloc: Global, out: &mut Vec<u8>) -> Result<(), AllocError> {
    line(alloc, &Step::Bad, out)
}

/// Adds what the line reads as: `bad`, or what was read into its place.
fn put_reading(
    alloc: Global,
    text: &[u8],
    place: &mut Parsed,
    out: &mut Vec<u8>,
) -> Result<(), AllocError> {
    match parse(alloc, text, place) {
        Ok(()) => put_read(alloc, place, out),
        Err(ParseError::Bad) => put_bad(alloc, out),
        Err(ParseError::NoMemory) => Err(AllocError),
    }
}

/// Prints what each line of the script reads as.
fn show(alloc: Global, script: &[u8], place: &mut Parsed) -> Result<Vec<u8>, AllocError> {
    let mut out = Vec::new(alloc);
    for text in script.split(|byte| *byte == b'\n') {
        put_reading(alloc, text, place, &mut out)?;
    }
    Ok(out)
}

/// Prints each step, and counts the bytes.
fn print_steps(alloc: Global, steps: &[Step], out: &mut Vec<u8>) -> Result<u64, AllocError>
    ensures bytes { OnOk result (out.new.items ≡ lines steps.now) }
    ensures count { IfOk result (λ n. n ≡ length (lines steps.now)) }
{
    out.clear();
    for step in steps {
        line(alloc, step, out)?;
    }
    Ok(out.len() as u64)
}

/// Parses the script so many times, and says how many commands there were.
fn parse_often(
    alloc: Global,
    script: &[u8],
    place: &mut Parsed,
    times: u32,
) -> Result<u64, AllocError> {
    let mut commands: u64 = 0;
    for _ in 0..times {
        commands = commands.saturating_add(parse_script(alloc, script, place)?);
    }
    Ok(commands)
}

/// Prints the steps so many times, and says how many bytes there were.
#[tactic(auto, using(crate::proofs::Passes::pass_more))]
fn print_often(alloc: Global, steps: &[Step], times: u32) -> Result<u64, AllocError>
    ensures { IfOk result (λ n. n ≡ times_over times (length (lines steps.now))) }
{
    let mut out = Vec::new(alloc);
    let mut bytes: u64 = 0;
    for _pass in 0..times {
        bytes = bytes.saturating_add(print_steps(alloc, steps, &mut out)?);
    }
    Ok(bytes)
}

/// The process's words, its own name left out.
fn words_of(rt: &HostRuntime) -> io::Result<Vec<String>> {
    let mut words = Vec::new(rt.alloc());
    for word in env::args(rt)?.skip(1) {
        words.push(word)?;
    }
    Ok(words)
}

/// Prints what each line reads as, and then what two passes over all lines make.
fn show_all(rt: &HostRuntime, script: &[u8], place: &mut Parsed) -> io::Result<()> {
    let alloc = rt.alloc();
    let shown = show(alloc, script, place)?;
    rt.stdout().write_all(&shown)?;
    time_parse(rt, script, place, 2)?;
    time_line(rt, script, place, 2)
}

/// Parses the script so many times.
fn time_parse(rt: &HostRuntime, script: &[u8], place: &mut Parsed, times: u32) -> io::Result<()> {
    let commands = parse_often(rt.alloc(), script, place, times)?;
    println!(rt; "{commands} commands")
}

/// Prints the steps of the script so many times.
fn time_line(rt: &HostRuntime, script: &[u8], place: &mut Parsed, times: u32) -> io::Result<()> {
    let steps = steps_of(rt.alloc(), script, place)?;
    let bytes = print_often(rt.alloc(), &steps, times)?;
    println!(rt; "{bytes} bytes")
}

/// Does what the words say.
fn work(rt: &HostRuntime, script: &[u8], words: &[String], place: &mut Parsed) -> io::Result<()> {
    match words {
        [work] if work.as_str() == "show" => show_all(rt, script, place),
        [work, times] if work.as_str() == "parse" => {
            time_parse(rt, script, place, times.parse::<u32>().unwrap_or(0))
        }
        [work, times] if work.as_str() == "line" => {
            time_line(rt, script, place, times.parse::<u32>().unwrap_or(0))
        }
        _ => eprintln!(rt; "text_bench show | parse TIMES | line TIMES < SCRIPT"),
    }
}

/// One place serves all lines: whoever owns a `Parsed` is dear to prove.
fn work_in_place(rt: &HostRuntime, script: &[u8], words: &[String]) -> io::Result<()> {
    let mut place = Parsed::Nothing;
    work(rt, script, words, &mut place)
}

fn main(rt: HostRuntime) -> io::Result<()> {
    let words = words_of(&rt)?;
    let mut script = Vec::new(rt.alloc());
    rt.stdin().read_to_end(&mut script)?;
    work_in_place(&rt, &script, words.as_slice())
}
