// The table: each line says what was done, and what came of it.
ghost use Rattle.std.specs.Prelude.{◌≡◌, ◌≤◌, ◌^◌, length};
ghost use Rattle.gate_log.specs.Logs.{IsReady};
ghost use Rattle.disk_core.specs.MemDisks.{mem_state};

use crate::logs::new_log;
use crate::{again, twin, words};
use disk_core::{Disk, Fused, MemDisk, SureDisk};
use gate_log::{GateLog, format};
use std::alloc::{AllocError, Global};
use std::io;

/// A lease up to 1100, as the bytes of records will have it.
const LEASE: [u8; 9] = [1, 0, 0, 0, 0, 0, 0, 4, 76];

const FIRST: [u8; 3] = [97, 97, 97];

const SECOND: [u8; 9] = [98, 98, 98, 98, 98, 98, 98, 98, 98];

/// The numbers of bytes that are kept of a write.
const CUT_LENGTHS: [u64; 4] = [0, 1, 7, 255];

/// Bytes that are a log, and bytes that are none.
const LOGS: [&[u8]; 15] = [
    b"",
    b"CURELOG",
    b"CURELOG2\x00",
    b"CURELOG1",
    b"CURELOG1\x00",
    b"CURELOG1\x02junk",
    b"CURELOG1\x01",
    b"CURELOG1\x01\x00\x00\x00",
    b"CURELOG1\x01\x00\x00\x00\x00\x00",
    b"CURELOG1\x01\x00\x00\x00\x02a",
    b"CURELOG1\x01\xff\xff\xff\xffa",
    b"CURELOG1\x01\x00\x00\x00\x02ab",
    b"CURELOG1\x01\x00\x00\x00\x02ab\x01",
    b"CURELOG1\x01\x00\x00\x00\x02ab\x00\x01\x00\x00\x00\x01c\x00",
    b"CURELOG1\x01\x00\x00\x00\x02ab\x01\x00\x00\x00\x01c\xff",
];

/// All that a disk holds, in hexadecimal.
pub(crate) fn bytes_of_disk(alloc: Global, disk: &mut MemDisk) -> io::Result<String> {
    let Ok(len) = disk.len() else {
        return Err(io::ErrorKind::Other.into());
    };
    let mut bytes = vec![in alloc; 0; len as usize]?;
    if disk.read(0, &mut bytes).is_err() {
        return Err(io::ErrorKind::Other.into());
    }
    let mut out = String::new(alloc);
    words::put_hex(&bytes, &mut out)?;
    Ok(out)
}

/// The log of one lease.
fn print_worked(rt: &HostRuntime) -> io::Result<()> {
    let alloc = rt.alloc();
    let mut log = new_log(alloc, MemDisk::new(alloc, 64))?;
    let appended = words::of_append(alloc, log.append(&LEASE))?;
    let mut disk = log.close();
    let bytes = bytes_of_disk(alloc, &mut disk)?;
    println!(rt; "a lease: {appended}, {bytes}")
}

/// A call of a second append that fails, with so many bytes kept of a write, and what is opened then.
fn print_crash(rt: &HostRuntime, call: u64, cut_length: u64) -> io::Result<()> {
    let alloc = rt.alloc();
    let mut log = new_log(alloc, Fused::new(MemDisk::new(alloc, 256)))?;
    let first = words::of_append(alloc, log.append(&FIRST))?;
    log.arm(call, cut_length);
    let second = words::of_append(alloc, log.append(&SECOND))?;
    let third = words::of_append(alloc, log.append(&SECOND))?;
    let opened = words::of_opening(alloc, log.close().into_inner())?;
    println!(rt; "append, call {call} kept {cut_length}: {first}, {second}, {third}; {opened}")
}

/// A call of an opening that fails, and what is opened once the fuse is revived.
fn print_opening(rt: &HostRuntime, call: u64) -> io::Result<()> {
    let alloc = rt.alloc();
    let mut log = new_log(alloc, Fused::new(MemDisk::new(alloc, 256)))?;
    let first = words::of_append(alloc, log.append(&FIRST))?;
    log.arm(call, 0);
    match GateLog::open(alloc, log.close()) {
        Ok(log) => {
            let opened = words::of_payloads(alloc, &log)?;
            let fired = log.close().fired();
            println!(rt; "open, call {call}: {first}, {opened}, fired {fired}")
        }
        Err((mut disk, error)) => {
            let failed = words::of_open_error(alloc, error)?;
            let fired = disk.fired();
            disk.revive();
            let opened = words::of_opening(alloc, disk)?;
            println!(rt; "open, call {call}: {first}, {failed}, fired {fired}; {opened}")
        }
    }
}

/// A call of a formatting that fails, with so many bytes kept of the write, and what is opened then.
fn print_format(rt: &HostRuntime, call: u64, cut_length: u64) -> io::Result<()> {
    let alloc = rt.alloc();
    let mut disk = Fused::new(MemDisk::new(alloc, 256));
    disk.arm(call, cut_length);
    let formatted = words::of_format(format(&mut disk));
    let opened = words::of_opening(alloc, disk.into_inner())?;
    println!(rt; "format, call {call} kept {cut_length}: {formatted}; {opened}")
}

/// The call of a disk in memory with this number fails, counted since it was made.
fn print_listed(rt: &HostRuntime, call: u64) -> io::Result<()> {
    let alloc = rt.alloc();
    let mut disk = MemDisk::new(alloc, 256);
    disk.fail_at(&[call])?;
    let formatted = words::of_format(format(&mut disk));
    match GateLog::open(alloc, disk) {
        Ok(log) => print_listed_appends(rt, call, formatted, log),
        Err((disk, error)) => {
            let failed = words::of_open_error(alloc, error)?;
            let opened = words::of_opening(alloc, disk)?;
            println!(rt; "call {call} of the disk: {formatted}, {failed}; {opened}")
        }
    }
}

fn print_listed_appends(
    rt: &HostRuntime,
    call: u64,
    formatted: &str,
    mut log: GateLog<MemDisk>,
) -> io::Result<()>
    requires { IsReady mem_state log }
{
    let alloc = rt.alloc();
    let first = words::of_append(alloc, log.append(&FIRST))?;
    let second = words::of_append(alloc, log.append(&FIRST))?;
    let starved = log.starved();
    let opened = words::of_opening(alloc, log.close())?;
    println!(rt;
        "call {call} of the disk: {formatted}, {first}, {second}, starved {starved}; {opened}"
    )
}

/// Records up to the room of a disk, of which none fails.
fn print_full(rt: &HostRuntime) -> io::Result<()> {
    let alloc = rt.alloc();
    let mut log = new_log(alloc, SureDisk::new(alloc, 64)?)?;
    let long = words::of_append(alloc, log.append(&[99; 51]))?;
    let fits = words::of_append(alloc, log.append(&[99; 50]))?;
    let one = words::of_append(alloc, log.append(&[99]))?;
    let opened = words::of_opening(alloc, log.close())?;
    println!(rt; "room 64, payloads of 51, 50 and 1: {long}, {fits}, {one}; {opened}")
}

/// What is opened where a disk holds these bytes.
fn print_log(rt: &HostRuntime, bytes: &[u8]) -> io::Result<()>
    requires { length bytes.now ≤ 256 }
{
    let alloc = rt.alloc();
    let mut hex = String::new(alloc);
    words::put_hex(bytes, &mut hex)?;
    let opened = words::of_opening(alloc, MemDisk::of_bytes(alloc, 256, bytes)?)?;
    println!(rt; "bytes {hex}: {opened}")
}

pub(crate) fn print(rt: &HostRuntime) -> io::Result<()> {
    print_worked(rt)?;
    for call in 1..=5 {
        for cut_length in CUT_LENGTHS {
            print_crash(rt, call, cut_length)?;
        }
    }
    print_openings(rt)?;
    print_again(rt)?;
    print_full(rt)?;
    for bytes in LOGS {
        if bytes.len() <= 256 {
            print_log(rt, bytes)?;
        }
    }
    twin::print(rt)
}

fn print_openings(rt: &HostRuntime) -> io::Result<()> {
    for call in 1..=4 {
        print_opening(rt, call)?;
    }
    for cut_length in [0, 7, 8, 255] {
        print_format(rt, 1, cut_length)?;
    }
    print_format(rt, 2, 0)?;
    for call in 1..=11 {
        print_listed(rt, call)?;
    }
    Ok(())
}

fn print_again(rt: &HostRuntime) -> io::Result<()> {
    for call in 1..=5 {
        again::print_append(rt, call)?;
    }
    for call in 1..=4 {
        again::print_opening(rt, call)?;
    }
    again::print_makers(rt)?;
    again::print_files(rt)
}
