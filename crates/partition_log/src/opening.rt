// Reading the payloads of a log as records.
ghost use Rattle.std.specs.Prelude.{◌≡◌, ◌≢◌, ◌≤◌, ◌+◌, ◌^◌, ℕ, List, true, length, map, Err, OnOk, IfOk};
ghost use Rattle.gate_log.specs.Payloads.{AreWithin};
ghost use Rattle.gate_log.specs.declared.error.OpenError.TheVariants.{Failed, Damaged};
ghost use Rattle.crdt_core.specs.declared.record.Record.{Record};
ghost use Rattle.log_records.specs.declared.error.RecordError.TheVariants.{Damaged as RecordDamaged};
ghost use Rattle.log_records.specs.Leases.{latest};
ghost use Rattle.log_records.specs.Whole.{whole_at};
ghost use Rattle.partition_log.specs.Codec.{codec_of};
ghost use Rattle.partition_log.specs.Damage.{IsRecord, AreRecords, IsRefusedAt};

use crdt_core::{Crdt, Record};
use gate_log::{OpenError, Payloads};
use log_records::{RecordError, lease_of, take};
use std::alloc::Global;

/// The record that the payload at a place of a log is.
///
/// # Errors
///
/// `Damaged` exactly where it is none, with the place in the log, and `NoMemory` where memory runs out.
pub fn record_at<C: Crdt>(
    alloc: Global,
    place: u64,
    payload: &[u8],
) -> Result<Record<C::Effect>, OpenError>
    requires { place + length payload.now ≤ 2 ^ 32 }
    ensures spelled { IfOk result (λ r. (codec_of C.spells).spelled r ≡ true) }
    ensures bytes { IfOk result (λ r. payload.now ≡ (codec_of C.spells).bytes r) }
    ensures damaged { (at : ℕ) → result ≡ Err (Damaged at)
        → (n : ℕ) × (whole_at (codec_of C.spells).reading payload.now ≡ Err (RecordDamaged n)) × (at ≡ place + n) }
    ensures reads { result ≢ Err Failed }
{
    match take::<C>(alloc, payload) {
        Ok(record) => Ok(record),
        Err(RecordError::Damaged { at }) => Err(OpenError::Damaged {
            at: place + at as u64,
        }),
        Err(RecordError::NoMemory) => Err(OpenError::NoMemory),
    }
}

/// Whether the payload at a place of a log is a record.
fn check_record<C: Crdt>(alloc: Global, place: u64, payload: &[u8]) -> Result<(), OpenError>
    requires { place + length payload.now ≤ 2 ^ 32 }
    ensures whole { OnOk result (IsRecord (codec_of C.spells) payload.now) }
    ensures damaged { (at : ℕ) → result ≡ Err (Damaged at)
        → (n : ℕ) × (whole_at (codec_of C.spells).reading payload.now ≡ Err (RecordDamaged n)) × (at ≡ place + n) }
    ensures reads { result ≢ Err Failed }
{
    match record_at::<C>(alloc, place, payload) {
        Ok(_) => Ok(()),
        Err(error) => Err(error),
    }
}

/// Whether the payloads are records.
pub(crate) fn check_records<C: Crdt>(alloc: Global, payloads: Payloads<'_>) -> Result<(), OpenError>
    requires { AreWithin payloads }
    ensures records { OnOk result ((log : List (Record C.Effect)) × AreRecords (codec_of C.spells) payloads.entry log) }
    ensures damaged { (at : ℕ) → result ≡ Err (Damaged at) → IsRefusedAt (codec_of C.spells) payloads.entry at }
    ensures reads { result ≢ Err Failed }
{
    for (place, payload) in payloads {
        check_record::<C>(alloc, place, payload)?;
    }
    Ok(())
}

/// The ceiling of the last payload that is a Lease, or 0 where none is.
pub(crate) fn last_ceiling(payloads: Payloads<'_>) -> u64
    ensures { result ≡ latest 0 (map (λ item. item.1) payloads.entry) }
{
    let mut ceiling = 0;
    for (_, payload) in payloads {
        if let Some(later) = lease_of(payload) {
            ceiling = later;
        }
    }
    ceiling
}
