ghost use Rattle.std.specs.Prelude.{◌<◌};

use std::sync::atomic::{AtomicU64, Ordering};
use std::thread;

/// What a client passes before each step call: it may wait there a while, and tells nothing.
pub trait Gate {
    /// Client `client` is about to make its call number `call`, both from 1 on.
    fn pass(&self, client: u8, call: u64);
}

/// A gate that holds nobody.
#[derive(Clone, Copy, Debug)]
pub struct OpenGate;

impl Gate for OpenGate {
    fn pass(&self, _client: u8, _call: u64) {}
}

/// A gate at which clients 1 and 2 wait for one another, before the second call of each: neither comes through before the
/// other has come there, but for a hold that has used its turns up.
#[derive(Drop)]
pub struct HoldGate {
    turns: u64,
    reached: [AtomicU64; 2],
    used_up: AtomicU64,
}

impl HoldGate {
    /// A gate whose holds have this many turns each. In each the system may let another thread run.
    pub fn new(turns: u64) -> HoldGate {
        HoldGate {
            turns,
            reached: [AtomicU64::new(0), AtomicU64::new(0)],
            used_up: AtomicU64::new(0),
        }
    }

    /// Whether both clients came, and no hold used its turns up.
    pub fn both_met(&self) -> bool {
        let came = self
            .reached
            .iter()
            .all(|reached| reached.load(Ordering::SeqCst) == 1);
        came && self.used_up.load(Ordering::SeqCst) == 0
    }

    /// Says that one has come, and waits for the other.
    fn hold(&self, one: usize, other: usize)
        requires one { one < 2 }
        requires other { other < 2 }
    {
        self.reached[one].store(1, Ordering::SeqCst);
        for _ in 0..self.turns {
            if self.reached[other].load(Ordering::SeqCst) == 1 {
                return;
            }
            thread::yield_now();
        }
        self.used_up.store(1, Ordering::SeqCst);
    }
}

impl Gate for HoldGate {
    fn pass(&self, client: u8, call: u64) {
        match (client, call) {
            (1, 2) => self.hold(0, 1),
            (2, 2) => self.hold(1, 0),
            _ => {}
        }
    }
}

/// A client's calls on their way through a gate.
#[derive(Drop)]
pub struct Turns<'a, G: Gate> {
    gate: &'a G,
    client: u8,
    calls: u64,
}

impl<'a, G: Gate> Turns<'a, G> {
    /// Before the client's first call.
    pub fn new(gate: &'a G, client: u8) -> Turns<'a, G> {
        Turns {
            gate,
            client,
            calls: 0,
        }
    }

    /// Passes the gate before the client's next call.
    pub fn next(&mut self) {
        self.calls = self.calls.saturating_add(1);
        self.gate.pass(self.client, self.calls);
    }
}
