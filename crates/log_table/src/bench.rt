// What bench/records measures.
ghost use Rattle.std.specs.Prelude.{◌≡◌, true};
ghost use Rattle.log_records.specs.Records.{can_put_record};

use crate::words::bytes_of;
use crdt_core::{Crdt, Record};
use crdt_counters::CounterPn;
use log_records::{put, take};
use std::alloc::{AllocError, Global};
use std::io;

/// A Batch of one part with ten updates.
const HEAD: &str = "06 02 01 01 0000000000000000 0000000000000100 00000001";

const PART: &str = "0201 0000000000000064 02 0000000000000005 0000000000000065 0000000a";

const OBJECT: &str = "0004 73686f70 0004 6d696c6b 01 0000000000000001";

fn batch_bytes(alloc: Global) -> io::Result<Vec<u8>> {
    let mut digits = String::new(alloc);
    write!(&mut digits, "{HEAD}{PART}")?;
    for index in 1..11u16 {
        write!(&mut digits, "{index:04x}{OBJECT}")?;
    }
    Ok(bytes_of(alloc, digits.as_str())?)
}

/// Puts a record so many times, and says how many bytes these are.
fn put_times(alloc: Global, value: &Record<i64>, times: u64) -> Result<u64, AllocError>
    requires { let C = ⟦<CounterPn as Crdt>⟧ in can_put_record C.has C.is_of C.can_put value.now ≡ true }
{
    let mut out = Vec::new(alloc);
    let mut len: u64 = 0;
    for _time in 0..times {
        out.clear();
        put::<CounterPn>(&mut out, value)?;
        len = len.saturating_add(out.len() as u64);
    }
    Ok(len)
}

/// Puts the Batch so many times.
pub(crate) fn put_often(rt: &HostRuntime, times: u64) -> io::Result<()> {
    let alloc = rt.alloc();
    let bytes = batch_bytes(alloc)?;
    let Ok(batch) = take::<CounterPn>(alloc, bytes.as_slice()) else {
        return Err(io::ErrorKind::Other.into());
    };
    let len = put_times(alloc, &batch, times)?;
    println!(rt; "{len} bytes")
}

/// Takes the Batch so many times.
pub(crate) fn take_often(rt: &HostRuntime, times: u64) -> io::Result<()> {
    let alloc = rt.alloc();
    let bytes = batch_bytes(alloc)?;
    let mut len: u64 = 0;
    for _time in 0..times {
        if let Ok(Record::Batch { .. }) = take::<CounterPn>(alloc, bytes.as_slice()) {
            len = len.saturating_add(bytes.len() as u64);
        }
    }
    println!(rt; "{len} bytes")
}
