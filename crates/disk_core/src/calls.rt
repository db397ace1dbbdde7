ghost use Rattle.std.specs.Prelude.{◌≡◌, ◌≤◌, ◌-◌, ◌^◌, [], if◌then◌else◌, OnOk, OnErr};
ghost use Rattle.disk_core.specs.Counts.{counted, is_listed};

use std::alloc::{AllocError, Global};

/// The calls of an object in memory, of which those on a list are to fail: how many were made, and how many failed.
#[derive(Drop)]
pub struct Calls {
    made: u64,
    failing: Vec<u64>,
    failed: u64,
    ghost bounded: { failed ≤ 2 ^ 64 - 1 },
}

impl Calls {
    /// None made, and none to fail. Takes no memory.
    pub fn new(alloc: Global) -> Calls
        ensures made { result.made ≡ 0 }
        ensures failing { result.failing.items ≡ [] }
        ensures failed { result.failed ≡ 0 }
    {
        Calls {
            made: 0,
            failing: Vec::new(alloc),
            failed: 0,
        }
    }

    /// Counts a call, and a fault where it is to fail, and says so.
    pub fn begin(&mut self) -> bool
        ensures made { self.new.made ≡ counted self.old.made }
        ensures listed { result ≡ is_listed self.old.failing.items self.old.made }
        ensures failing { self.new.failing.items ≡ self.old.failing.items }
        ensures failed { self.new.failed ≡ (if result then counted self.old.failed else self.old.failed) }
        ensures most { self.old.failed ≤ 2 ^ 64 - 1 }
    {
        let made = self.made.saturating_add(1);
        self.made = made;
        let fails = self.failing.as_slice().contains(&made);
        if fails {
            self.fail();
        }
        fails
    }

    /// Counts a fault.
    pub fn fail(&mut self)
        ensures failed { self.new.failed ≡ counted self.old.failed }
        ensures made { self.new.made ≡ self.old.made }
        ensures failing { self.new.failing.items ≡ self.old.failing.items }
        ensures most { self.old.failed ≤ 2 ^ 64 - 1 }
    {
        self.failed = self.failed.saturating_add(1);
    }

    /// From now on the calls with these numbers are to fail, counted from 1.
    ///
    /// # Errors
    ///
    /// `AllocError` where memory runs out. The calls are as before then.
    pub fn list(&mut self, calls: &[u64]) -> Result<(), AllocError>
        ensures ok { OnOk result (self.new.failing.items ≡ calls.now) }
        ensures err { OnErr result (self.new.failing.items ≡ self.old.failing.items) }
        ensures made { self.new.made ≡ self.old.made }
        ensures failed { self.new.failed ≡ self.old.failed }
    {
        let alloc = *self.failing.allocator();
        self.failing = Vec::from_slice(alloc, calls)?;
        Ok(())
    }
}
