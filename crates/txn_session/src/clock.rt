ghost use Rattle.std.specs.Prelude.{◌≡◌, ◌⊎◌, ℕ, List, [], ⊤, Contains};

use std::marker::Model;
use std::sync::atomic::{AtomicU64, Ordering};
use std::time;

/// What tells the time, as a number. Its readings may be any: whoever rests on one cuts it.
pub trait Clock {
    /// The clock may show this.
    ghost shows: { Self → ℕ → Type 0 };

    /// What the clock shows.
    fn reading(&self) -> u64
        ensures { shows self.now result };
}

/// The system's clock: the milliseconds since 1970, or 0 where it can't be read.
#[derive(Drop)]
pub struct SystemClock<R: time::Clock + Drop> {
    rt: R,
}

impl<R: time::Clock + Drop> SystemClock<R> {
    pub fn new(rt: R) -> SystemClock<R> {
        SystemClock { rt }
    }
}

impl<R: time::Clock + Drop> Clock for SystemClock<R> {
    ghost shows = { λ c n. ⊤ };

    fn reading(&self) -> u64 {
        match time::SystemTime::now(&self.rt) {
            Ok(now) => milliseconds(now),
            Err(_) => 0,
        }
    }
}

/// The milliseconds since 1970, at most 2^64 - 1.
fn milliseconds(now: time::SystemTime) -> u64 {
    match now.duration_since(time::UNIX_EPOCH) {
        Ok(passed) => match u64::try_from(passed.as_millis()) {
            Ok(count) => count,
            Err(_) => u64::MAX,
        },
        Err(_) => 0,
    }
}

/// A clock that shows the numbers of a list, one after another, and then 0.
#[derive(Drop)]
pub struct ListClock {
    readings: Vec<u64>,
    shown: AtomicU64,
}

impl Model for ListClock {
    ghost Value = { List ℕ };

    ghost view = { λ c. c.readings.items };
}

impl ListClock {
    pub fn new(readings: Vec<u64>) -> ListClock
        ensures { result ≡ readings.items }
    {
        ListClock {
            readings,
            shown: AtomicU64::new(0),
        }
    }
}

impl Clock for ListClock {
    ghost shows = { λ c n. Contains c n ⊎ (n ≡ 0) };

    fn reading(&self) -> u64 {
        let next = self.shown.fetch_add(1, Ordering::SeqCst);
        read_at(self.readings.as_slice(), next)
    }
}

/// The number at this place, or 0 where there is none.
fn read_at(readings: &[u64], place: u64) -> u64
    ensures { Contains readings.now result ⊎ (result ≡ 0) }
{
    match usize::try_from(place) {
        Ok(at) => match readings.get(at) {
            Some(reading) => *reading,
            None => 0,
        },
        Err(_) => 0,
    }
}
