// The bytes of a new area, and where it goes.
ghost use Rattle.std.specs.Prelude.{◌≡◌, ◌+◌, ◌≤◌, ◌<◌, ◌^◌, ◌++◌, length, true, false, if◌then◌else◌, IfOk, OnOk, MatchOption};
ghost use Rattle.gate_log.specs.Log.{body, AreSized};
ghost use Rattle.twin_log.specs.Twin.{items, closed_area};
ghost use Rattle.twin_log.specs.Rests.{IsNext, goes_first, target_for};

use crate::spot::Spot;
use field_codec::ListOf;
use std::alloc::{AllocError, Global};

// How many bytes an area of these payloads has with its closed gate, where they aren't more than this.
pub(crate) fn area_size(payloads: &[ListOf<u8>], most: u64) -> Option<u64>
    requires { most ≤ 2 ^ 31 }
    ensures { MatchOption result (most < 6 + length (items payloads.now))
        (λ size. (size ≡ 6 + length (items payloads.now)) × (size ≤ most) × (size ≤ 2 ^ 31)) }
{
    let mut size = 6;
    for payload in payloads {
        size += 4 + payload.as_slice().len() as u64;
        if size > most {
            return None;
        }
    }
    if size > most { None } else { Some(size) }
}

// A payload behind its length.
fn put_item(out: &mut Vec<u8>, payload: &[u8]) -> Result<(), AllocError>
    ensures { OnOk result (out.new.items ≡ out.old.items ++ body payload.now) }
{
    let Ok(count) = u32::try_from(payload.len()) else {
        return Err(AllocError);
    };
    out.extend_from_slice(&count.to_be_bytes())?;
    out.extend_from_slice(payload)?;
    Ok(())
}

// An area of these payloads with an empty tail, which has so many bytes.
pub(crate) fn new_area(
    alloc: Global,
    format: u8,
    payloads: &[ListOf<u8>],
    size: u64,
) -> Result<Vec<u8>, AllocError>
    requires { length payloads.now < 2 ^ 32 }
    ensures { IfOk result (λ area. area.items ≡ closed_area format payloads.now) }
{
    let mut area = Vec::with_capacity(alloc, size as usize)?;
    area.extend_from_slice(&[format])?;
    let count = payloads.len() as u32;
    area.extend_from_slice(&count.to_be_bytes())?;
    for payload in payloads {
        put_item(&mut area, payload.as_slice())?;
    }
    area.extend_from_slice(&[0])?;
    Ok(area)
}

// Where a new area of so many bytes goes: to the front, where it ends before the one in use, and else behind its gate.
fn target_of(spot: &Spot, size: u64) -> u64
    requires { spot.now.end < 2 ^ 32 }
    ensures { result ≡ target_for spot.now size }
{
    if size <= spot.start.saturating_sub(25) {
        25
    } else {
        spot.end + 1
    }
}

// The spot of a new area of so many bytes.
pub(crate) fn next_spot(spot: &Spot, size: u64) -> Spot
    requires high { spot.now.end < 2 ^ 32 }
    requires some { (1 ≤ size) × (size ≤ 2 ^ 32) }
    ensures next { IsNext spot.now size result }
    ensures format { result.format ≡ spot.now.format }
{
    let start = target_of(spot, size);
    Spot {
        second: !spot.second,
        start,
        end: start + (size - 1),
        format: spot.format,
    }
}
