ghost use Rattle.std.specs.Prelude.{◌≡◌};
ghost use Rattle.field_codec.specs.Reading.{number_at};
ghost use Rattle.log_records.specs.Leases.{lease_at, value_read};

use crate::record_form::LEASE;
use field_codec::{take_u8, take_u64};

/// The ceiling, in logical ticks, of the Lease that a record's bytes are; none where they are another record's. Reads no
/// more than the code and the ceiling, and takes no memory.
pub fn lease_of(payload: &[u8]) -> Option<u64>
    ensures { result ≡ lease_at payload.now }
{
    match take_u8(payload, 0) {
        Ok((code, behind)) => {
            if code != LEASE {
                return None;
            }
            ceiling_at(payload, behind)
        }
        Err(_) => None,
    }
}

/// The number in the eight bytes at a place, if so many are there.
fn ceiling_at(payload: &[u8], at: usize) -> Option<u64>
    ensures { result ≡ value_read (number_at 8 payload.now at) }
{
    match take_u64(payload, at) {
        Ok((ceil, _)) => Some(ceil),
        Err(_) => None,
    }
}
