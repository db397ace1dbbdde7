ghost use Rattle.std.specs.Prelude.{◌≡◌, ◌≤◌, ◌+◌, max, min, leb, Some, None, if◌then◌else◌};
ghost use Rattle.crdt_core.specs.Log.{end_of_time};
ghost use Rattle.prepared_table.specs.Leases.{IsLent};

use std::marker::Model;

/// The last time that a clock may show, in logical ticks.
const END_OF_TIME: u64 = 1 << 62;

/// How far a lease goes beyond the time for which it is taken.
const LEASE: u64 = 1000;

/// A partition's clock in logical ticks, and its ceiling: the greatest time that it may show before the next lease is
/// stored. Contracts see both numbers.
#[derive(Drop)]
pub struct Leased {
    clock: u64,
    ceil: u64,
}

impl Model for Leased {
    ghost use Rattle.prepared_table.specs.Leases.{Lent, IsLent};

    ghost Value = { Lent };

    ghost view = { λ l. record { clock = l.clock; ceiling = l.ceil } };

    ghost invariant = { λ l. IsLent l.clock l.ceil };
}

impl Leased {
    /// A clock that shows `now`, under a ceiling of at most 2^62.
    pub fn new(now: u64, ceil: u64) -> Leased
        requires under { now ≤ ceil }
        requires most { ceil ≤ end_of_time }
        ensures value { result ≡ record { clock = now; ceiling = ceil } }
        ensures sound { IsLent result.clock result.ceiling }
    {
        Leased { clock: now, ceil }
    }

    /// The time that the clock shows.
    pub fn now(&self) -> u64
        ensures value { result ≡ self.now.clock }
        ensures sound { IsLent self.now.clock self.now.ceiling }
    {
        self.clock
    }

    /// The greatest time that the clock may show.
    pub fn ceil(&self) -> u64
        ensures value { result ≡ self.now.ceiling }
        ensures sound { IsLent self.now.clock self.now.ceiling }
    {
        self.ceil
    }

    /// The ceiling of the lease that is stored before the clock shows `n`, or `None` exactly where `n` is under the
    /// present one.
    pub fn wants(&self, n: u64) -> Option<u64>
        requires { n ≤ end_of_time }
        ensures value { result ≡ (if leb n self.now.ceiling then None else Some (min (n + 1000) end_of_time)) }
        ensures sound { IsLent self.now.clock self.now.ceiling }
    {
        if n <= self.ceil {
            return None;
        }
        Some((n + LEASE).min(END_OF_TIME))
    }

    /// Raises the ceiling, once its lease is stored.
    pub fn lease(&mut self, ceil: u64)
        requires least { self.old.ceiling ≤ ceil }
        requires most { ceil ≤ end_of_time }
        ensures value { self.new ≡ record self.old { ceiling = ceil } }
        ensures sound { IsLent self.new.clock self.new.ceiling }
    {
        self.ceil = ceil;
    }

    /// Lets the clock show `n`, at most the ceiling. A clock that shows more already stays.
    pub fn tick(&mut self, n: u64)
        requires { n ≤ self.old.ceiling }
        ensures value { self.new ≡ record self.old { clock = max self.old.clock n } }
        ensures sound { IsLent self.new.clock self.new.ceiling }
    {
        self.clock = self.clock.max(n);
    }

    /// The next time, which the clock shows from then on.
    pub fn draw(&mut self) -> u64
        requires { self.old.clock + 1 ≤ self.old.ceiling }
        ensures drawn { result ≡ self.old.clock + 1 }
        ensures value { self.new ≡ record self.old { clock = self.old.clock + 1 } }
        ensures sound { IsLent self.new.clock self.new.ceiling }
    {
        self.clock += 1;
        self.clock
    }
}
