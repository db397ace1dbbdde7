ghost use Rattle.std.specs.Prelude.{◌≡◌, ◌≤◌, true, ℕ, List, Err, OnOk, OnErr};
ghost use Rattle.disk_core.specs.States.{Rose};
ghost use Rattle.disk_makers.specs.Makers.{MakesAll};
ghost use Rattle.dc_engine.specs.Makers.{IsUnchanged};
ghost use Rattle.dc_engine.specs.Reading.{has_bad, makes_cluster};
ghost use Rattle.dc_engine.specs.Replies.{AnswersLine};

use crate::script::cutter::Cutter;
use crate::unanswered::Unanswered;
use disk_makers::Disks;

/// The most bytes of a line that are kept and answered. A line that is longer is as one of this many.
pub(crate) const MOST_BEGUN: usize = 4_099;

/// What answers the lines of a script, one by one. At each line it is lent the maker of its disks.
pub(crate) trait Responder {
    type Maker: Disks;

    /// How the script is cut into lines.
    type Cutter: Cutter;

    /// `reached m lines bytes`: m stands where these lines, oldest first and as they are cut, have been answered with
    /// these bytes.
    ghost reached: { Self → List (List ℕ) → List ℕ → Type 0 };

    /// `holds m maker`: m may have those disks that it has, and what it says of them the maker keeps.
    ghost holds: { Self → Self.Maker → Type 0 };

    /// `lacks m`: m has no cluster.
    ghost lacks: { Self → Type 0 };

    /// Answers one line as it is cut, of which at most the first 4,099 bytes are handed in. The reply comes
    /// behind what `out` holds.
    ///
    /// # Errors
    ///
    /// `NoDisk` only where the line makes a cluster, none stands, and the maker's count of faults rose; `NoMemory` where
    /// memory runs out. `out` is as before then.
    fn answer(
        &mut self,
        disks: &mut Self::Maker,
        line: &[u8],
        out: &mut Vec<u8>,
    ) -> Result<(), Unanswered>
        requires held { holds self.old disks.old }
        ensures held { holds self.new disks.new }
        ensures ok { OnOk result (AnswersLine reached self.old self.new line.now out.old.items out.new.items) }
        ensures err { OnErr result (out.new.items ≡ out.old.items) }
        ensures making { result ≡ Err Unanswered.NoDisk → makes_cluster Self.Cutter.framing line.now ≡ true }
        ensures lacks { result ≡ Err Unanswered.NoDisk → lacks self.old }
        ensures later { (Self.Maker.state disks.old).faults ≤ (Self.Maker.state disks.new).faults }
        ensures cause { result ≡ Err Unanswered.NoDisk → Rose (Self.Maker.state disks.old).faults (Self.Maker.state disks.new).faults }
        ensures sure { MakesAll Self.Maker.makes_all (result ≡ Err Unanswered.NoDisk) disks.old disks.new }
        ensures same { OnOk result (IsUnchanged (Self.Maker.state disks.old) (Self.Maker.state disks.new)) };

    /// Whether one of the lines answered isn't in the grammar.
    fn has_met_bad(&self) -> bool
        ensures { (lines : List (List ℕ)) (bytes : List ℕ) → reached self.now lines bytes → has_bad Self.Cutter.framing lines ≡ result };
}
