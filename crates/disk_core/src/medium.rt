// Bytes in memory that know what a crash might leave of them.
ghost use Rattle.std.specs.Prelude.{◌≡◌, ◌≤◌, ◌<◌, ◌+◌, ◌++◌, ◌^◌, [], length, take, drop, vec_len, vec_capacity, OnOk, OnErr, IfOk};
ghost use Rattle.disk_core.specs.Images.{overwritten, padded, after_write, after_cut, after_sync, settled};
ghost use Rattle.disk_core.specs.States.{moved};

use crate::trail::{Note, Trail};
use std::alloc::{AllocError, Global};

#[derive(Drop)]
pub(crate) struct Medium {
    bytes: Vec<u8>,
    least: usize,
    most: usize,
    trail: Trail,
    ghost short: { least ≤ length bytes.items },
    ghost long: { length bytes.items ≤ most },
}

impl Medium {
    ghost use Rattle.disk_core.specs.Mediums.{story_of};

    // A medium of these bytes, all durable.
    pub(crate) fn of_bytes(bytes: Vec<u8>) -> Medium
        ensures story { story_of result ≡ record { now = settled bytes.items; past = [] } }
        ensures capacity { vec_capacity result.bytes ≡ vec_capacity bytes }
    {
        Medium {
            least: bytes.len(),
            most: bytes.len(),
            trail: Trail::new(),
            bytes,
        }
    }

    pub(crate) fn len(&self) -> usize
        ensures { result ≡ length (story_of self.now).now.bytes }
    {
        self.bytes.len()
    }

    pub(crate) fn read(&self, at: usize, buf: &mut [u8])
        requires { at + length buf.old ≤ length (story_of self.now).now.bytes }
        ensures { buf.new ≡ take (length buf.old) (drop at (story_of self.now).now.bytes) }
    {
        buf.copy_from_slice(&self.bytes[at..at + buf.len()]);
    }

    // Writes the three pieces, one behind the other, or changes nothing where it finds no memory to grow.
    pub(crate) fn write(
        &mut self,
        at: usize,
        front: &[u8],
        middle: &[u8],
        back: &[u8],
    ) -> Result<(), AllocError>
        requires place { at ≤ length (story_of self.old).now.bytes }
        requires fits { at + (length front.now + length middle.now + length back.now) ≤ 2 ^ 31 }
        ensures written { OnOk result (story_of self.new
            ≡ moved (after_write at
            (front.now ++ middle.now ++ back.now) (story_of self.old).now) (story_of self.old)) }
        ensures stays { OnErr result (story_of self.new ≡ story_of self.old) }
        ensures full { OnErr result (vec_capacity self.old.bytes < at +
            (length front.now + length middle.now + length back.now)) }
        ensures capacity { vec_capacity self.old.bytes ≤ vec_capacity self.new.bytes }
    {
        let count = front.len() + middle.len() + back.len();
        let note = Note::Write(&self.bytes, self.least, self.most, at, count);
        let trail = self.trail.with(&note);
        overwrite(&mut self.bytes, at, front, middle, back)?;
        self.most = self.most.max(at + count);
        self.trail = trail;
        Ok(())
    }

    pub(crate) fn cut(&mut self, len: usize)
        requires { len ≤ length (story_of self.old).now.bytes }
        ensures story { story_of self.new ≡ moved (after_cut len (story_of self.old).now) (story_of self.old) }
        ensures capacity { vec_capacity self.old.bytes ≤ vec_capacity self.new.bytes }
    {
        let note = Note::Cut(&self.bytes, self.least, self.most);
        let trail = self.trail.with(&note);
        self.bytes.truncate(len);
        self.least = self.least.min(len);
        self.trail = trail;
    }

    pub(crate) fn sync(&mut self)
        ensures story { story_of self.new ≡ moved (after_sync (story_of self.old).now) (story_of self.old) }
        ensures capacity { vec_capacity self.old.bytes ≤ vec_capacity self.new.bytes }
    {
        let note = Note::Sync(&self.bytes, self.least, self.most);
        let trail = self.trail.with(&note);
        self.least = self.bytes.len();
        self.most = self.bytes.len();
        self.trail = trail;
    }
}

// Up to this length a piece is added byte by byte.
const FEW: usize = 8;

// Writes three pieces over what is there and past the end, or changes nothing for want of memory.
fn overwrite(
    bytes: &mut Vec<u8>,
    at: usize,
    front: &[u8],
    middle: &[u8],
    back: &[u8],
) -> Result<(), AllocError>
    requires place { at ≤ length bytes.old.items }
    requires fits { at + (length front.now + length middle.now + length back.now) ≤ 2 ^ 31 }
    ensures written { OnOk result (bytes.new.items ≡ overwritten at
        (front.now ++ middle.now ++ back.now) bytes.old.items) }
    ensures stays { OnErr result (bytes.new.items ≡ bytes.old.items) }
    ensures full { OnErr result (vec_capacity bytes.old < at +
        (length front.now + length middle.now + length back.now)) }
    ensures capacity { vec_capacity bytes.old ≤ vec_capacity bytes.new }
{
    if at == bytes.len() {
        return append(bytes, front, middle, back);
    }
    pad(bytes, at + (front.len() + middle.len() + back.len()))?;
    put(bytes, at, front);
    put(bytes, at + front.len(), middle);
    put(bytes, at + front.len() + middle.len(), back);
    Ok(())
}

// Zeros up to this length.
fn pad(bytes: &mut Vec<u8>, end: usize) -> Result<(), AllocError>
    ensures padded { OnOk result (bytes.new.items ≡ padded end bytes.old.items) }
    ensures stays { OnErr result (bytes.new.items ≡ bytes.old.items) }
    ensures full { OnErr result (vec_capacity bytes.old < end) }
    ensures capacity { vec_capacity bytes.old ≤ vec_capacity bytes.new }
{
    if end <= bytes.len() {
        return Ok(());
    }
    bytes.resize(end, 0)
}

// Writes three pieces past the end, or changes nothing for want of memory.
fn append(bytes: &mut Vec<u8>, front: &[u8], middle: &[u8], back: &[u8]) -> Result<(), AllocError>
    requires fits { length front.now + length middle.now + length back.now ≤ 2 ^ 31 }
    ensures written { OnOk result (bytes.new.items ≡ bytes.old.items ++ (front.now ++ middle.now ++ back.now)) }
    ensures stays { OnErr result (bytes.new.items ≡ bytes.old.items) }
    ensures full { OnErr result (vec_capacity bytes.old < vec_len bytes.old +
        (length front.now + length middle.now + length back.now)) }
    ensures capacity { vec_capacity bytes.old ≤ vec_capacity bytes.new }
{
    bytes.reserve(front.len() + middle.len() + back.len())?;
    add(bytes, front);
    add(bytes, middle);
    add(bytes, back);
    Ok(())
}

// Adds a piece of few bytes, for which there is room, one after another: a call that copies them would take longer.
fn add_few(bytes: &mut Vec<u8>, piece: &[u8])
    requires room { vec_len bytes.old + length piece.now ≤ vec_capacity bytes.old }
    ensures bytes { bytes.new.items ≡ bytes.old.items ++ piece.now }
    ensures capacity { vec_capacity bytes.new ≡ vec_capacity bytes.old }
{
    for byte in piece {
        bytes.push_reserved(*byte);
    }
}

// Adds a piece, for which there is room.
fn add(bytes: &mut Vec<u8>, piece: &[u8])
    requires room { vec_len bytes.old + length piece.now ≤ vec_capacity bytes.old }
    ensures bytes { bytes.new.items ≡ bytes.old.items ++ piece.now }
    ensures capacity { vec_capacity bytes.old ≤ vec_capacity bytes.new }
{
    if piece.len() > FEW {
        let _ = bytes.extend_from_slice(piece);
        return;
    }
    add_few(bytes, piece);
}

// Writes a piece over what is there.
fn put(bytes: &mut Vec<u8>, at: usize, piece: &[u8])
    requires { at + length piece.now ≤ length bytes.old.items }
    ensures bytes { bytes.new.items ≡ overwritten at piece.now bytes.old.items }
    ensures capacity { vec_capacity bytes.old ≤ vec_capacity bytes.new }
{
    match piece {
        [] => {}
        [byte] => {
            bytes[at] = *byte;
        }
        _ => {
            bytes[at..at + piece.len()].copy_from_slice(piece);
        }
    }
}
