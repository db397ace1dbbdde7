ghost use Rattle.std.specs.Prelude.{◌<◌, ℕ, List, Option, length, IfOk};
ghost use Rattle.std.specs.Io.{WritesAtMost};
ghost use Rattle.std.specs.Io.KnownBytes.{WriteAppends};
ghost use Rattle.dc_engine.specs.Causes.{HasCause};

use crate::streams::source::Failed;

/// Where the bytes of the replies go.
pub trait Sink {
    /// The bytes that are held, where the sink tells them.
    ghost held: { Self → Option (List ℕ) };

    /// How many calls failed. Never falls, and is at most 2^64-1.
    ghost faults: { Self → ℕ };

    /// Appends a prefix of `bytes` to what is held, and says how long it is: at least one byte of a piece that isn't empty.
    ///
    /// # Errors
    ///
    /// `Failed` only where the count of faults rose in this call, as where the sink would take nothing. What is held stays.
    fn write(&mut self, bytes: &[u8]) -> Result<usize, Failed>
        ensures bound { WritesAtMost result bytes.now }
        ensures some { IfOk result (λ n. 0 < length bytes.now → 0 < n) }
        ensures bytes { WriteAppends (held self.old) (held self.new) result bytes.now }
        ensures cause { HasCause (faults self.old) (faults self.new) result };
}
