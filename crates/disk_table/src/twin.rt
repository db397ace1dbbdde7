// Logs in two areas, in the table.
ghost use Rattle.std.specs.Prelude.{◌≡◌, ◌≤◌, ◌^◌, [], length, IsTrue, IfOk};
ghost use Rattle.disk_core.specs.States.{bytes_of};
ghost use Rattle.twin_log.specs.Logs.{IsReady};
ghost use Rattle.twin_log.specs.Twin.{AreSome};

use crate::{table, words};
use disk_core::{Disk, Fused, MemDisk};
use field_codec::ListOf;
use std::alloc::{AllocError, Global};
use std::io;
use twin_log::{SwitchError, TwinLog, format};

/// Leases up to 1100 and 3000, as the bytes of records have them.
const LEASES: [[u8; 9]; 2] = [[1, 0, 0, 0, 0, 0, 0, 4, 76], [1, 0, 0, 0, 0, 0, 0, 11, 184]];

const FIRST: [u8; 3] = [97, 97, 97];

const SECOND: [u8; 1] = [98];

const THIRD: [u8; 2] = [99, 99];

/// Bytes that are a log in two areas, and bytes that are none: each behind its header.
const AREAS: [&[u8]; 12] = [
    b"\x00\x00\x00\x00\x00\x00\x00\x00\x18\x00\x00\x00\x00\x00\x00\x00\x19\x01\x00\x00\x00\x00\x00",
    b"\x01\x00\x00\x00\x00\x00\x00\x00\x18\x00\x00\x00\x00\x00\x00\x00\x1a\x01\x00\x00\x00\x00\x00",
    b"\x07\x00\x00\x00\x00\x00\x00\x00\x19\x00\x00\x00\x00\x00\x00\x00\x18\x01\x00\x00\x00\x00\x00",
    b"\x01\x00\x00\x00\x00\x00\x00\x00\x18\x00\x00\x00\x00\x00\x00\x00\x19\x02\x00\x00\x00\x00\x00",
    b"\x00\x00\x00\x00\x00\x00\x00\x00\x19\x00\x00\x00\x00\x00\x00\x00\x19\x01\x00\x00\x00\x01\x00",
    b"\x00\x00\x00\x00\x00\x00\x00\x00\x19\x00\x00\x00\x00\x00\x00\x00\x19\x01\x00\x00\x00\x01\x00\x00\x00\x00",
    b"\x00\x00\x00\x00\x00\x00\x00\x00\x19\x00\x00\x00\x00\x00\x00\x00\x19\x01\x00\x00\x00\x01\x00\x00\x00\x02a",
    b"\x00\x00\x00\x00\x00\x00\x00\x00\x19\x00\x00\x00\x00\x00\x00\x00\x19\x01\x00\x00\x00\x01\x00\x00\x00\x01a",
    b"\x00\x00\x00\x00\x00\x00\x00\x00\x19\x00\x00\x00\x00\x00\x00\x00\x19\x01\x00\x00\x00\x01\x00\x00\x00\x01a\x01",
    b"\x00\x00\x00\x00\x00\x00\x00\x00\x19\x00\x00\x00\x00\x00\x00\x00\x19\x01\x00\x00\x00\x01\x00\x00\x00\x01a\x01\x00\x00\x00\x02b",
    b"\x00\x00\x00\x00\x00\x00\x00\x00\x19\x00\x00\x00\x00\x00\x00\x00\x19\x01\x00\x00\x00\x01\x00\x00\x00\x01a\x01\x00\x00\x00\x01b\x00junk",
    b"\x00\x00\x00\x00\x00\x00\x00\x00\x19\x00\x00\x00\x00\x00\x00\x00\x19\x01\xff\xff\xff\xff\x00\x00\x00\x01a",
];

/// A log without a payload on a disk that holds nothing.
fn new_twin<D: Disk + Drop>(alloc: Global, disk: D) -> io::Result<TwinLog<D>>
    requires empty { IsTrue (D.state disk).tells → bytes_of (D.state disk) ≡ [] }
    requires room { 64 ≤ (D.state disk).room }
    ensures { IfOk result (λ log. IsReady D.state log) }
{
    let mut disk = disk;
    if format(&mut disk).is_err() {
        return Err(io::ErrorKind::Other.into());
    }
    match TwinLog::open(alloc, disk) {
        Ok(log) => Ok(log),
        Err(_) => Err(io::ErrorKind::Other.into()),
    }
}

/// A list of this payload alone.
fn one_payload(alloc: Global, bytes: &[u8]) -> Result<ListOf<ListOf<u8>>, AllocError>
    requires { 1 ≤ length bytes.now }
    ensures { IfOk result (λ list. AreSome list) }
{
    let mut payload = ListOf::new(alloc);
    for byte in bytes {
        payload.push(*byte)?;
    }
    let mut list = ListOf::new(alloc);
    list.push(payload)?;
    Ok(list)
}

fn of_switch(alloc: Global, answer: Result<(), SwitchError>) -> Result<String, AllocError> {
    match answer {
        Ok(()) => String::from_str(alloc, "ok"),
        Err(SwitchError::Failed) => String::from_str(alloc, "failed"),
        Err(SwitchError::Full { room }) => format!(in alloc; "full {room}"),
        Err(SwitchError::Closed) => String::from_str(alloc, "closed"),
        Err(SwitchError::NoMemory) => String::from_str(alloc, "no memory"),
    }
}

/// What opening the log of a disk answers: its payloads, each as its place and its bytes in hexadecimal.
fn of_opening<D: Disk + Drop>(alloc: Global, disk: D) -> Result<String, AllocError> {
    match TwinLog::open(alloc, disk) {
        Ok(log) => {
            let mut out = String::from_str(alloc, "opened")?;
            for (place, payload) in log.payloads() {
                write!(out, " {place}:")?;
                words::put_hex(payload, &mut out)?;
            }
            Ok(out)
        }
        Err((_, error)) => words::of_open_error(alloc, error),
    }
}

/// Two leases, and then two switches to the last one: the second goes to the front.
fn print_worked(rt: &HostRuntime) -> io::Result<()> {
    let alloc = rt.alloc();
    let mut log = new_twin(alloc, MemDisk::new(alloc, 256))?;
    let first = words::of_append(alloc, log.append(&LEASES[0]))?;
    let second = words::of_append(alloc, log.append(&LEASES[1]))?;
    let last = one_payload(alloc, &LEASES[1])?;
    let back = of_switch(alloc, log.switch(&last))?;
    let end = log.end();
    let front = of_switch(alloc, log.switch(&last))?;
    let mut disk = log.close();
    let bytes = table::bytes_of_disk(alloc, &mut disk)?;
    let opened = of_opening(alloc, disk)?;
    println!(rt; "two areas: {first}, {second}, {back} up to {end}, {front}, {bytes}; {opened}")
}

/// What a switch before the one that is stopped answers, if there is one.
fn of_turn<D: Disk + Drop>(
    alloc: Global,
    log: &mut TwinLog<D>,
    turns: u64,
) -> Result<String, AllocError>
    requires { IsReady D.state log.old }
    ensures { IsReady D.state log.new }
{
    if turns == 0 {
        return String::from_str(alloc, "none");
    }
    let list = one_payload(alloc, &SECOND)?;
    of_switch(alloc, log.switch(&list))
}

/// A call of the first or the second switch that fails, with so many bytes kept of a write, and what is opened then.
fn print_stop(rt: &HostRuntime, turns: u64, call: u64, cut_length: u64) -> io::Result<()> {
    let alloc = rt.alloc();
    let mut log = new_twin(alloc, Fused::new(MemDisk::new(alloc, 256)))?;
    let appended = words::of_append(alloc, log.append(&FIRST))?;
    let turned = of_turn(alloc, &mut log, turns)?;
    let next = one_payload(alloc, &THIRD)?;
    log.arm(call, cut_length);
    let stopped = of_switch(alloc, log.switch(&next))?;
    let closed = words::of_append(alloc, log.append(&FIRST))?;
    let opened = of_opening(alloc, log.close().into_inner())?;
    println!(rt;
        "switch {turns}, call {call} kept {cut_length}: {appended}, {turned}, {stopped}, {closed}; {opened}"
    )
}

/// What is opened where a disk holds these bytes behind the header.
fn print_area(rt: &HostRuntime, bytes: &[u8]) -> io::Result<()>
    requires { length bytes.now ≤ 100 }
{
    let alloc = rt.alloc();
    let mut all = Vec::from_slice(alloc, b"CURETWN1")?;
    all.extend_from_slice(bytes)?;
    let opened = of_opening(alloc, MemDisk::of_bytes(alloc, 256, &all)?)?;
    let mut hex = String::new(alloc);
    words::put_hex(bytes, &mut hex)?;
    println!(rt; "areas {hex}: {opened}")
}

pub(crate) fn print(rt: &HostRuntime) -> io::Result<()> {
    print_worked(rt)?;
    for turns in 0..=1 {
        for call in 1..=7 {
            for cut_length in [0, 1, 255] {
                print_stop(rt, turns, call, cut_length)?;
            }
        }
    }
    for bytes in AREAS {
        if bytes.len() <= 100 {
            print_area(rt, bytes)?;
        }
    }
    Ok(())
}
