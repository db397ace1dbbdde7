// Logs that are opened again in place, and makers of disks, in the table.
ghost use Rattle.gate_log.specs.Logs.{IsReady};

use crate::logs::new_log;
use crate::words;
use disk_core::{Disk, Fused, MemDisk};
use disk_makers::{Disks, MakeFault, MemDisks, RealDisks};
use gate_log::GateLog;
use site_vector::PartId;
use std::alloc::{AllocError, Global};
use std::{fs, io};

const FIRST: [u8; 3] = [97, 97, 97];

const SECOND: [u8; 9] = [98, 98, 98, 98, 98, 98, 98, 98, 98];

const THIRD: [u8; 1] = [99];

/// What opening a log again answers.
fn of_reopening<D: Disk + Drop>(alloc: Global, log: &mut GateLog<D>) -> Result<String, AllocError>
    requires { IsReady D.state log.old }
    ensures { IsReady D.state log.new }
{
    match log.reopen(alloc) {
        Ok(()) => words::of_payloads(alloc, log),
        Err(error) => words::of_open_error(alloc, error),
    }
}

/// A call of a second append that fails, with all bytes kept of a write. The log is opened again in its place, takes a
/// third record, and forgets what it read.
pub(crate) fn print_append(rt: &HostRuntime, call: u64) -> io::Result<()> {
    let alloc = rt.alloc();
    let mut log = new_log(alloc, Fused::new(MemDisk::new(alloc, 256)))?;
    let first = words::of_append(alloc, log.append(&FIRST))?;
    log.arm(call, 255);
    let second = words::of_append(alloc, log.append(&SECOND))?;
    log.revive();
    let again = of_reopening(alloc, &mut log)?;
    let third = words::of_append(alloc, log.append(&THIRD))?;
    log.forget_read();
    let forgotten = words::of_payloads(alloc, &log)?;
    let opened = words::of_opening(alloc, log.close().into_inner())?;
    println!(rt; "again, call {call}: {first}, {second}; {again}, {third}; {forgotten}; {opened}")
}

/// A call of an opening in place that fails, and what comes of a second one.
pub(crate) fn print_opening(rt: &HostRuntime, call: u64) -> io::Result<()> {
    let alloc = rt.alloc();
    let mut log = new_log(alloc, Fused::new(MemDisk::new(alloc, 256)))?;
    let first = words::of_append(alloc, log.append(&FIRST))?;
    log.arm(call, 0);
    let failed = of_reopening(alloc, &mut log)?;
    let second = words::of_append(alloc, log.append(&SECOND))?;
    log.revive();
    let again = of_reopening(alloc, &mut log)?;
    let third = words::of_append(alloc, log.append(&THIRD))?;
    println!(rt; "open again, call {call}: {first}; {failed}, {second}; {again}, {third}")
}

/// What opening the log of a new disk answers. The disk is given back.
fn of_made<M: Disks>(alloc: Global, makers: &mut M, part: PartId) -> Result<String, AllocError> {
    match makers.make(alloc, part) {
        Ok(disk) => match GateLog::open(alloc, disk) {
            Ok(log) => {
                let opened = words::of_payloads(alloc, &log);
                makers.give_back(part, log.close());
                opened
            }
            Err((disk, error)) => {
                makers.give_back(part, disk);
                words::of_open_error(alloc, error)
            }
        },
        Err(MakeFault::Failed) => String::from_str(alloc, "not made"),
        Err(MakeFault::NoMemory) => String::from_str(alloc, "no memory"),
    }
}

/// The bytes of a file, in hexadecimal.
fn hex_of(rt: &HostRuntime, path: &str) -> io::Result<String> {
    let bytes = fs::read(rt, path)?;
    let mut hex = String::new(rt.alloc());
    words::put_hex(&bytes, &mut hex)?;
    Ok(hex)
}

/// A disk that is kept in a file of this folder, whose log gets two records; then what stands in the file, and what a
/// second disk for the same partition answers.
pub(crate) fn print_files(rt: &HostRuntime) -> io::Result<()> {
    let alloc = rt.alloc();
    let part = PartId { site: 1, part: 2 };
    let mut makers = RealDisks::new(rt);
    makers.keep_in(alloc, ".")?;
    let appended = of_appended(alloc, &mut makers, part)?;
    println!(rt; "file of {part}: {appended}")?;
    let hex = hex_of(rt, "./1.2.log")?;
    println!(rt; "1.2.log: {hex}")?;
    let made = of_made(alloc, &mut makers, part)?;
    println!(rt; "a second file of {part}: {made}")
}

/// What two appends to the log of a new disk answer.
fn of_appended<M: Disks>(
    alloc: Global,
    makers: &mut M,
    part: PartId,
) -> Result<String, AllocError> {
    let Ok(disk) = makers.make(alloc, part) else {
        return String::from_str(alloc, "not made");
    };
    match GateLog::open(alloc, disk) {
        Ok(mut log) => {
            let first = words::of_append(alloc, log.append(&FIRST))?;
            let second = words::of_append(alloc, log.append(&THIRD))?;
            makers.give_back(part, log.close());
            format!(in alloc; "{first}, {second}")
        }
        Err((disk, error)) => {
            makers.give_back(part, disk);
            words::of_open_error(alloc, error)
        }
    }
}

/// Disks of which the second isn't made, and the first call after the formatting of the first fails.
pub(crate) fn print_makers(rt: &HostRuntime) -> io::Result<()> {
    let alloc = rt.alloc();
    let mut makers = MemDisks::new(alloc, 256);
    makers.fail_at(&[2])?;
    makers.fail_disks_at(&[3])?;
    for part in 1..=4 {
        let part = PartId { site: 1, part };
        let made = of_made(alloc, &mut makers, part)?;
        println!(rt; "disk of {part}: {made}")?;
        makers.fail_disks_at(&[])?;
    }
    for (part, disk) in makers.disks() {
        println!(rt; "given back: {part}, room {}", disk.room())?;
    }
    Ok(())
}
