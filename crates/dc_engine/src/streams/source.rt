ghost use Rattle.std.specs.Prelude.{ℕ, List, Option};
ghost use Rattle.std.specs.Io.{ReadsAtMost};
ghost use Rattle.std.specs.Io.KnownBytes.{ReadConsumes};
ghost use Rattle.dc_engine.specs.Causes.{HasCause};

use thiserror::Error;

/// A source or a sink failed at a call.
#[derive(Clone, Copy, Debug, PartialEq, Eq, Error)]
#[error("failed")]
pub struct Failed;

/// Where the bytes of a script come from.
pub trait Source {
    /// The bytes that are left, where the source tells them.
    ghost left: { Self → Option (List ℕ) };

    /// How many calls failed. Never falls, and is at most 2^64-1.
    ghost faults: { Self → ℕ };

    /// Takes the next bytes of what is left, and says how many. 0 for a buffer that isn't empty is the end.
    ///
    /// # Errors
    ///
    /// `Failed` only where the count of faults rose in this call. Nothing is taken then.
    fn read(&mut self, buf: &mut [u8]) -> Result<usize, Failed>
        ensures bound { ReadsAtMost result buf.new }
        ensures bytes { ReadConsumes (left self.old) (left self.new) result buf.new }
        ensures cause { HasCause (faults self.old) (faults self.new) result };
}
