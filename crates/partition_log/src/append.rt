// Appending payloads that are records.
ghost use Rattle.std.specs.Prelude.{◌≡◌, ◌≢◌, ◌≤◌, ◌<◌, ◌+◌, [], ◌∷◌, true, false, length, Err};
ghost use Rattle.gate_log.specs.Logs.{disk_of, gate_of, IsReady};
ghost use Rattle.gate_log.specs.declared.error.AppendError.TheVariants.{NoMemory as OutOfMemory};
ghost use Rattle.crdt_core.specs.declared.record.Record.{Record};
ghost use Rattle.partition_log.specs.Codec.{codec_of};
ghost use Rattle.partition_log.specs.Appends.{Appends};

use crdt_core::Crdt;
use disk_core::Disk;
use gate_log::{AppendError, GateLog};

/// Appends a record's bytes.
pub(crate) fn append_one<C: Crdt, D: Disk + Drop>(
    log: &mut GateLog<D>,
    payload: &[u8],
) -> Result<(), AppendError>
    requires some { 1 ≤ length payload.now }
    requires ready { IsReady D.state log.old }
    ensures appends { (r : Record C.Effect) → (codec_of C.spells).spelled r ≡ true → payload.now ≡ (codec_of C.spells).bytes r
        → Appends (codec_of C.spells) D.state result log.old log.new (r ∷ []) }
    ensures fed { result ≢ Err OutOfMemory }
    ensures ready { IsReady D.state log.new }
{
    log.append(payload)
}

/// Whether two payloads fit the room of the disk together.
fn has_room<D: Disk + Drop>(log: &GateLog<D>, first: &[u8], second: &[u8]) -> bool
    requires { IsReady D.state log.now }
    ensures fits { result ≡ true → gate_of log.now + (5 + length first.now + (5 + length second.now)) + 1 ≤ (D.state (disk_of log.now)).room }
    ensures past { result ≡ false → (D.state (disk_of log.now)).room < gate_of log.now + (5 + length first.now + (5 + length second.now)) + 1 }
{
    let room = log.room();
    let one = first.len() as u64;
    let two = second.len() as u64;
    one <= room && two <= room && log.end() + 11 + one + two <= room
}

/// Appends the bytes of two records, where there is room for both.
pub(crate) fn append_two<C: Crdt, D: Disk + Drop>(
    log: &mut GateLog<D>,
    first: &[u8],
    second: &[u8],
) -> Result<(), AppendError>
    requires first { 1 ≤ length first.now }
    requires second { 1 ≤ length second.now }
    requires ready { IsReady D.state log.old }
    ensures appends { (r s : Record C.Effect) → (codec_of C.spells).spelled r ≡ true → first.now ≡ (codec_of C.spells).bytes r
        → (codec_of C.spells).spelled s ≡ true → second.now ≡ (codec_of C.spells).bytes s
        → Appends (codec_of C.spells) D.state result log.old log.new (r ∷ s ∷ []) }
    ensures fed { result ≢ Err OutOfMemory }
    ensures ready { IsReady D.state log.new }
{
    if log.is_closed() {
        return Err(AppendError::Closed);
    }
    if !has_room(log, first, second) {
        return Err(AppendError::Full { room: log.room() });
    }
    append_one::<C, D>(log, first)?;
    append_one::<C, D>(log, second)
}
