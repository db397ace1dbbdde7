// The table: each script is answered whole and byte by byte.
ghost use Rattle.std.specs.Prelude.{◌<◌};

use crate::pieces::Pieces;
use dc_engine::{ReaderSource, VecSink, run};
use disk_makers::MemDisks;
use frame_session::Frames;
use std::alloc::{AllocError, Global};
use std::io;
use std::io::Write;

/// The bytes that a sink has room for.
const ROOM: u64 = 10_000;

/// The room of each disk, which is the greatest.
const DISK_ROOM: u64 = 2_147_483_648;

/// Answers each line.
pub(crate) fn answer_all(alloc: Global, out: &mut Vec<u8>, text: &str) -> io::Result<()> {
    for line in text.lines() {
        let (name, digits) = line.split_once(' ').unwrap_or((line, ""));
        let script = bytes_of(alloc, digits.as_bytes())?;
        writeln!(out, "== {name}, whole")?;
        answer(alloc, out, script.as_slice(), ROOM as usize)?;
        writeln!(out, "== {name}, byte by byte")?;
        answer(alloc, out, script.as_slice(), 1)?;
    }
    Ok(())
}

/// Answers a script in pieces of so many bytes.
fn answer(alloc: Global, out: &mut Vec<u8>, script: &[u8], size: usize) -> io::Result<()>
    requires { 0 < size }
{
    cut(alloc, out, script, size)?;
    let mut source = ReaderSource::new(Pieces::new(script, size));
    let mut sink = VecSink::new(alloc, ROOM)?;
    let mut disks = MemDisks::new(alloc, DISK_ROOM);
    let status = run(
        alloc,
        &["play", "--frames"],
        &mut source,
        &mut sink,
        &mut disks,
    );
    tell_bytes(out, "replies", sink.held())?;
    let code = status.code();
    writeln!(out, "ends with {code}")
}

/// Tells the frames of the pieces, and how many bytes are held behind them.
fn cut(alloc: Global, out: &mut Vec<u8>, script: &[u8], size: usize) -> io::Result<()>
    requires { 0 < size }
{
    let mut frames = Frames::new(alloc);
    for piece in script.chunks(size) {
        for body in &frames.feed(piece)? {
            tell_bytes(out, "frame", body.as_slice())?;
        }
    }
    let rest = frames.rest();
    writeln!(out, "rest {rest}")
}

/// These bytes, in hexadecimal.
fn tell_bytes(out: &mut Vec<u8>, name: &str, bytes: &[u8]) -> io::Result<()> {
    write!(out, "{name} ")?;
    for byte in bytes {
        write!(out, "{byte:02x}")?;
    }
    writeln!(out)
}

/// The bytes that hexadecimal digits spell, two of them each.
fn bytes_of(alloc: Global, text: &[u8]) -> Result<Vec<u8>, AllocError> {
    let mut bytes = Vec::new(alloc);
    let mut high = None;
    for digit in text {
        let Some(value) = char::from(*digit).to_digit(16) else {
            continue;
        };
        match high {
            None => high = Some(value),
            Some(first) => {
                bytes.push(u8::try_from(first << 4 | value).unwrap_or(0))?;
                high = None;
            }
        }
    }
    Ok(bytes)
}
