ghost use Rattle.std.specs.Prelude.{◌≡◌, ◌+◌, ℕ, List, IsTrue};
ghost use Rattle.disk_core.specs.States.{DiskState};
ghost use Rattle.disk_core.specs.Moments.{AtEachMoment};
ghost use Rattle.gate_log.specs.Logs.{disk_of, gate_of};
ghost use Rattle.gate_log.specs.declared.log.GateLog.{GateLog};
ghost use Rattle.crdt_core.specs.declared.record.Record.{Record};
ghost use Rattle.crdt_core.specs.Log.{grown};
ghost use Rattle.partition_log.specs.Codec.{codec_of};
ghost use Rattle.partition_log.specs.Logs.{HoldsLog, HoldsFront, LeavesFront, HasRecords, size};
ghost use Rattle.partition_log.specs.Damage.{IsDamaged};

use crdt_core::Crdt;
use disk_core::Disk;

/// Bytes are a log of one list of records at most, or damaged at one place at most, and never both. `PartLog::open`
/// says which they are.
pub fn law_part_log<C: Crdt>()
    ensures one_log { (bytes : List ℕ) (log other : List (Record C.Effect)) → HoldsLog (codec_of C.spells) bytes log → HoldsLog (codec_of C.spells) bytes other → log ≡ other }
    ensures one_place { (bytes : List ℕ) (at other : ℕ) → IsDamaged (codec_of C.spells) bytes at → IsDamaged (codec_of C.spells) bytes other → at ≡ other }
    ensures not_both { (bytes : List ℕ) (log : List (Record C.Effect)) (at : ℕ) → HoldsLog (codec_of C.spells) bytes log → IsDamaged (codec_of C.spells) bytes at → ⊥ }
{}

/// How long a log is, by its records alone: its closed gate stands behind eight bytes and those of its records.
pub fn law_sizes<C: Crdt, D: Disk + Drop>()
    ensures gate { (gates : GateLog D) (log : List (Record C.Effect))
        → HasRecords (codec_of C.spells) D.state gates log → gate_of gates ≡ 8 + size (codec_of C.spells) log }
    ensures grown { (log records : List (Record C.Effect)) → size (codec_of C.spells) (grown log records)
        ≡ size (codec_of C.spells) log + size (codec_of C.spells) records }
{}

/// The disks of which `PartLog::reopen` says what it finds: one at rest, and one that a call left that was cut off, or
/// failed, or went through.
pub fn law_fronts<C: Crdt, D: Disk + Drop>()
    ensures at_rest { (gates : GateLog D) (log torn : List (Record C.Effect))
        → HasRecords (codec_of C.spells) D.state gates log
        → LeavesFront (codec_of C.spells) log torn (D.state (disk_of gates)) }
    ensures left { (old new : DiskState) (log torn : List (Record C.Effect)) → IsTrue new.tells
        → AtEachMoment old.story new.story (HoldsFront (codec_of C.spells) log torn)
        → LeavesFront (codec_of C.spells) log torn new }
{}
