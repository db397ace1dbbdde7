// A case of the table: what is played, and how it is told.
use dc_engine::{ReaderSource, Sink, SliceSource, Source, Status, VecSink, WriterSink, run};
use disk_makers::{MemDisks, RealDisks};
use std::alloc::{AllocError, Global};
use std::io::Write;
use std::{fs, io};

/// The bytes that a sink has room for, where a case doesn't say it.
const ROOM: u64 = 10_000;

/// The room of each disk, which is the greatest.
const DISK_ROOM: u64 = 2_147_483_648;

/// What fails in a case, and at which calls.
#[derive(Clone, Copy)]
pub(crate) struct Faults<'a> {
    name: &'a str,
    numbers: &'a [u64],
}

impl<'a> Faults<'a> {
    /// Nothing fails.
    pub(crate) fn none() -> Faults<'a> {
        Faults {
            name: "plain",
            numbers: &[],
        }
    }

    /// What the setting of this name and these numbers lets fail.
    pub(crate) fn of(name: &'a str, numbers: &'a [u64]) -> Faults<'a> {
        Faults { name, numbers }
    }

    /// The room of the sink.
    fn room(self) -> u64 {
        match (self.name, self.numbers) {
            ("room", [room, ..]) => *room,
            _ => ROOM,
        }
    }
}

/// Lets a source, a sink and a maker of disks fail so.
fn set_faults(
    source: &mut SliceSource<'_>,
    sink: &mut VecSink,
    disks: &mut MemDisks,
    faults: Faults<'_>,
) -> Result<(), AllocError> {
    match faults.name {
        "read" => source.fail_at(faults.numbers),
        "write" => sink.fail_at(faults.numbers),
        "make" => disks.fail_at(faults.numbers),
        "disk" => disks.fail_disks_at(faults.numbers),
        _ => Ok(()),
    }
}

/// Plays what a source has into a sink, and tells how it ended.
fn play_with(
    alloc: Global,
    out: &mut Vec<u8>,
    words: &[&str],
    source: &mut SliceSource<'_>,
    sink: &mut VecSink,
    disks: &mut MemDisks,
) -> io::Result<()> {
    let status = run(alloc, words, source, sink, disks);
    out.extend_from_slice(sink.held())?;
    tell(out, status)?;
    tell_disks(out, disks)
}

/// Plays a script from a slice into memory, for these words of the process and with these faults.
pub(crate) fn play_over(
    alloc: Global,
    out: &mut Vec<u8>,
    words: &[&str],
    script: &[u8],
    faults: Faults<'_>,
) -> io::Result<()> {
    let mut source = SliceSource::new(alloc, script);
    let mut sink = VecSink::new(alloc, faults.room())?;
    let mut disks = MemDisks::new(alloc, DISK_ROOM);
    set_faults(&mut source, &mut sink, &mut disks, faults)?;
    play_with(alloc, out, words, &mut source, &mut sink, &mut disks)
}

/// Plays a script of these bytes, for these words of the process, and tells the bytes of the replies.
pub(crate) fn play_bytes(
    alloc: Global,
    out: &mut Vec<u8>,
    words: &[&str],
    script: &[u8],
) -> io::Result<()> {
    let mut source = SliceSource::new(alloc, script);
    let mut sink = VecSink::new(alloc, ROOM)?;
    let mut disks = MemDisks::new(alloc, DISK_ROOM);
    let status = run(alloc, words, &mut source, &mut sink, &mut disks);
    tell_bytes(out, "replies", sink.held())?;
    tell(out, status)
}

/// Plays what this source has into memory.
pub(crate) fn play_from<S: Source>(
    alloc: Global,
    out: &mut Vec<u8>,
    source: &mut S,
) -> io::Result<()> {
    let mut sink = VecSink::new(alloc, ROOM)?;
    let mut disks = MemDisks::new(alloc, DISK_ROOM);
    let status = run(alloc, &["play"], source, &mut sink, &mut disks);
    out.extend_from_slice(sink.held())?;
    tell(out, status)
}

/// Plays a script from a slice into this sink.
pub(crate) fn play_into<K: Sink>(
    alloc: Global,
    out: &mut Vec<u8>,
    script: &[u8],
    sink: &mut K,
) -> io::Result<()> {
    let mut source = SliceSource::new(alloc, script);
    let mut disks = MemDisks::new(alloc, DISK_ROOM);
    let status = run(alloc, &["play"], &mut source, sink, &mut disks);
    tell(out, status)
}

/// Plays a script over disks that are kept in files of this folder, and tells the bytes of the first partition's.
pub(crate) fn play_in_files(
    rt: &HostRuntime,
    out: &mut Vec<u8>,
    folder: &str,
    script: &[u8],
) -> io::Result<()> {
    let alloc = rt.alloc();
    let mut source = SliceSource::new(alloc, script);
    let mut sink = VecSink::new(alloc, ROOM)?;
    let mut disks = RealDisks::new(rt);
    let words = ["play", "--data", folder];
    let status = run(alloc, &words, &mut source, &mut sink, &mut disks);
    out.extend_from_slice(sink.held())?;
    tell(out, status)?;
    let path = format!(in alloc; "{folder}/1.1.log")?;
    match fs::read(rt, path.as_str()) {
        Ok(bytes) => tell_bytes(out, "file", bytes.as_slice()),
        Err(_) => writeln!(out, "no file"),
    }
}

/// These bytes, in hexadecimal.
fn tell_bytes(out: &mut Vec<u8>, name: &str, bytes: &[u8]) -> io::Result<()> {
    write!(out, "{name} ")?;
    for byte in bytes {
        write!(out, "{byte:02x}")?;
    }
    writeln!(out)
}

/// The code that a process ends with, and its line on standard error.
fn tell(out: &mut Vec<u8>, status: Status) -> io::Result<()> {
    let code = status.code();
    writeln!(out, "ends with {code}")?;
    status.end(out).1
}

/// The partitions whose disks the maker has back.
fn tell_disks(out: &mut Vec<u8>, disks: &MemDisks) -> io::Result<()> {
    for (at, _) in disks.disks() {
        let (site, part) = (at.site, at.part);
        writeln!(out, "back {site}.{part}")?;
    }
    Ok(())
}

/// Reads two blocks of so many bytes, and writes each behind the count of what was read.
pub(crate) fn copy_by_blocks(
    alloc: Global,
    out: &mut Vec<u8>,
    script: &[u8],
    size: usize,
) -> io::Result<()> {
    let mut source = ReaderSource::new(script);
    let mut block = vec![in alloc; 0u8; size]?;
    for _ in 0..2 {
        if let Ok(count) = source.read(block.as_mut_slice()) {
            writeln!(out, "read {count}")?;
            let written = WriterSink::new(&mut *out).write(&block[..count]);
            let all = written == Ok(count);
            writeln!(out, ", all written: {all}")?;
        }
    }
    Ok(())
}
