ghost use Rattle.std.specs.Prelude.{◌≡◌, ◌≤◌, ◌<◌, ◌-◌, ◌^◌, ◌||◌, [], is_err, length, min, if◌then◌else◌, IfOk, OnOk, OnErr};
ghost use Rattle.std.specs.Io.{ReadsAtMost, WritesAtMost};
ghost use Rattle.std.specs.Io.KnownBytes.{ReadConsumes, WriteAppends};
ghost use Rattle.dc_engine.specs.Causes.{HasCause};
ghost use Rattle.dc_engine.specs.Memory.{counted, is_listed, is_full};

use crate::streams::sink::Sink;
use crate::streams::source::{Failed, Source};
use std::alloc::{AllocError, Global};
use std::cmp::min;
use std::marker::Model;

/// The calls of an object in memory: how many were made, which are to fail, and how many failed.
#[derive(Drop)]
pub struct Calls {
    made: u64,
    failing: Vec<u64>,
    failed: u64,
}

impl Model for Calls {
    ghost use Rattle.dc_engine.specs.Memory.{CallCounts};

    ghost Value = { CallCounts };

    ghost view = { λ c. record { made = c.made; failing = c.failing.items; failed = c.failed } };
}

impl Calls {
    /// None made, and none to fail.
    fn new(alloc: Global) -> Calls
        ensures made { result.made ≡ 0 }
        ensures failing { result.failing ≡ [] }
        ensures failed { result.failed ≡ 0 }
    {
        Calls {
            made: 0,
            failing: Vec::new(alloc),
            failed: 0,
        }
    }

    /// Counts a call, and says whether it is to fail. It counts no fault.
    fn begin(&mut self) -> bool
        ensures made { self.new.made ≡ counted self.old.made }
        ensures listed { result ≡ is_listed self.old.failing self.old.made }
        ensures failing { self.new.failing ≡ self.old.failing }
        ensures failed { self.new.failed ≡ self.old.failed }
        ensures most { self.old.failed ≤ 2 ^ 64 - 1 }
    {
        let _failed = self.failed;
        let made = self.made.saturating_add(1);
        self.made = made;
        self.failing.as_slice().contains(&made)
    }

    /// From now on the calls with these numbers are to fail.
    fn list(&mut self, calls: &[u64]) -> Result<(), AllocError>
        ensures ok { OnOk result (self.new.failing ≡ calls.now) }
        ensures err { OnErr result (self.new ≡ self.old) }
        ensures made { self.new.made ≡ self.old.made }
        ensures failed { self.new.failed ≡ self.old.failed }
    {
        let alloc = *self.failing.allocator();
        self.failing = Vec::from_slice(alloc, calls)?;
        Ok(())
    }

    /// Counts a fault.
    fn fail(&mut self)
        ensures failed { self.new.failed ≡ counted self.old.failed }
        ensures made { self.new.made ≡ self.old.made }
        ensures failing { self.new.failing ≡ self.old.failing }
    {
        self.failed = self.failed.saturating_add(1);
    }
}

/// A source that reads a slice.
#[derive(Drop)]
pub struct SliceSource<'a> {
    rest: &'a [u8],
    calls: Calls,
}

impl<'a> Model for SliceSource<'a> {
    ghost use Rattle.dc_engine.specs.Memory.{SliceState};

    ghost Value = { SliceState };

    ghost view = { λ s. record { left = s.rest.now; calls = s.calls } };
}

impl<'a> SliceSource<'a> {
    /// All these bytes are left. Takes no memory.
    pub fn new(alloc: Global, bytes: &'a [u8]) -> SliceSource<'a>
        ensures left { result.left ≡ bytes.now }
        ensures made { result.calls.made ≡ 0 }
        ensures failing { result.calls.failing ≡ [] }
        ensures failed { result.calls.failed ≡ 0 }
    {
        SliceSource {
            rest: bytes,
            calls: Calls::new(alloc),
        }
    }

    /// From now on exactly the calls of `read` with these numbers fail, counted from 1 since the source was made.
    ///
    /// # Errors
    ///
    /// `AllocError` where memory runs out. The source is as before then.
    pub fn fail_at(&mut self, calls: &[u64]) -> Result<(), AllocError>
        ensures ok { OnOk result (self.new.calls.failing ≡ calls.now) }
        ensures err { OnErr result (self.new ≡ self.old) }
        ensures made { self.new.calls.made ≡ self.old.calls.made }
        ensures failed { self.new.calls.failed ≡ self.old.calls.failed }
        ensures left { self.new.left ≡ self.old.left }
    {
        self.calls.list(calls)
    }

    /// The bytes that are left.
    pub fn left(&self) -> &[u8]
        ensures { result.now ≡ self.now.left }
    {
        self.rest
    }
}

impl<'a> Source for SliceSource<'a> {
    ghost use Rattle.std.specs.Prelude.{Some};

    ghost left = { λ s. Some s.left };

    ghost faults = { λ s. s.calls.failed };

    fn read(&mut self, buf: &mut [u8]) -> Result<usize, Failed>
        ensures bound { ReadsAtMost result buf.new }
        ensures bytes { ReadConsumes (Some self.old.left) (Some self.new.left) result buf.new }
        ensures cause { HasCause self.old.calls.failed self.new.calls.failed result }
        ensures listed { is_err result ≡ is_listed self.old.calls.failing self.old.calls.made }
        ensures count { IfOk result (λ n. n ≡ min (length self.old.left) (length buf.old)) }
        ensures made { self.new.calls.made ≡ counted self.old.calls.made }
        ensures failing { self.new.calls.failing ≡ self.old.calls.failing }
        ensures failed { self.new.calls.failed ≡ (if is_err result then counted self.old.calls.failed else self.old.calls.failed) }
    {
        if self.calls.begin() {
            self.calls.fail();
            return Err(Failed);
        }
        let count = min(self.rest.len(), buf.len());
        let (front, back) = self.rest.split_at(count);
        buf[..count].copy_from_slice(front);
        self.rest = back;
        Ok(count)
    }
}

/// A sink that holds bytes up to its room.
#[derive(Drop)]
pub struct VecSink {
    held: Vec<u8>,
    room: usize,
    calls: Calls,
}

impl Model for VecSink {
    ghost use Rattle.std.specs.Prelude.{◌≤◌, vec_len, vec_capacity};
    ghost use Rattle.dc_engine.specs.Memory.{SinkState};

    ghost Value = { SinkState };

    ghost view = { λ s. record { held = s.held.items; room = s.room; calls = s.calls } };

    ghost invariant = { λ s. (vec_len s.held ≤ s.room) × (s.room ≤ vec_capacity s.held) };
}

impl VecSink {
    /// Nothing is held, and there is room for this many bytes, which is taken now.
    ///
    /// # Errors
    ///
    /// `AllocError` where memory runs out.
    pub fn new(alloc: Global, room: u64) -> Result<VecSink, AllocError>
        ensures held { IfOk result (λ s. s.held ≡ []) }
        ensures room { IfOk result (λ s. s.room ≡ room) }
        ensures made { IfOk result (λ s. s.calls.made ≡ 0) }
        ensures failing { IfOk result (λ s. s.calls.failing ≡ []) }
        ensures failed { IfOk result (λ s. s.calls.failed ≡ 0) }
    {
        let room = room as usize;
        let held = Vec::with_capacity(alloc, room)?;
        Ok(VecSink {
            held,
            room,
            calls: Calls::new(alloc),
        })
    }

    /// From now on the calls of `write` with these numbers fail, counted from 1 since the sink was made, besides those that find no room.
    ///
    /// # Errors
    ///
    /// `AllocError` where memory runs out. The sink is as before then.
    pub fn fail_at(&mut self, calls: &[u64]) -> Result<(), AllocError>
        ensures ok { OnOk result (self.new.calls.failing ≡ calls.now) }
        ensures err { OnErr result (self.new ≡ self.old) }
        ensures made { self.new.calls.made ≡ self.old.calls.made }
        ensures failed { self.new.calls.failed ≡ self.old.calls.failed }
        ensures held { self.new.held ≡ self.old.held }
        ensures room { self.new.room ≡ self.old.room }
    {
        self.calls.list(calls)
    }

    /// The bytes that are held.
    pub fn held(&self) -> &[u8]
        ensures { result.now ≡ self.now.held }
    {
        self.held.as_slice()
    }
}

impl Sink for VecSink {
    ghost use Rattle.std.specs.Prelude.{Some};

    ghost held = { λ s. Some s.held };

    ghost faults = { λ s. s.calls.failed };

    fn write(&mut self, bytes: &[u8]) -> Result<usize, Failed>
        ensures bound { WritesAtMost result bytes.now }
        ensures some { IfOk result (λ n. 0 < length bytes.now → 0 < n) }
        ensures bytes { WriteAppends (Some self.old.held) (Some self.new.held) result bytes.now }
        ensures cause { HasCause self.old.calls.failed self.new.calls.failed result }
        ensures fails { is_err result ≡ (is_listed self.old.calls.failing self.old.calls.made || is_full self.old.room self.old.held bytes.now) }
        ensures count { IfOk result (λ n. n ≡ min (self.old.room - length self.old.held) (length bytes.now)) }
        ensures room { self.new.room ≡ self.old.room }
        ensures made { self.new.calls.made ≡ counted self.old.calls.made }
        ensures failing { self.new.calls.failing ≡ self.old.calls.failing }
        ensures failed { self.new.calls.failed ≡ (if is_err result then counted self.old.calls.failed else self.old.calls.failed) }
    {
        if self.calls.begin() {
            self.calls.fail();
            return Err(Failed);
        }
        let count = min(self.room - self.held.len(), bytes.len());
        if count == 0 && !bytes.is_empty() {
            self.calls.fail();
            return Err(Failed);
        }
        // The room was taken when the sink was made, so this cannot want memory.
        self.held.extend_from_slice(&bytes[..count]).unwrap();
        Ok(count)
    }
}
