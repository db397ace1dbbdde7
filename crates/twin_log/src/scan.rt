// Reading the bytes of a log.
ghost use Rattle.std.specs.Prelude.{◌≡◌, ◌⊎◌, ◌≤◌, ◌<◌, ◌+◌, ◌^◌, List, ℕ, true, false, length, drop, slice_index, IsTrue, IfOk, IfErr, MatchResult};
ghost use Rattle.gate_log.specs.Damage.{is_whole, told_length};
ghost use Rattle.twin_log.specs.Twin.{is_format as is_known, is_second, slot_if, start_at, start_of};
ghost use Rattle.twin_log.specs.Damage.{has_head as is_headed, IsCutInImage, IsCutInTail, IsDamagedAt};
ghost use Rattle.twin_log.specs.Found.{HasItems, IsFound};

use crate::spot::Spot;
use gate_log::{find_gate_from, whole_payload};

// What stands where in the bytes of a log.
#[derive(Clone, Copy, Debug)]
pub(crate) struct Found {
    pub(crate) spot: Spot,
    // How many payloads its image has, and the place of the first length.
    pub(crate) images: usize,
    pub(crate) image: usize,
    // How many records its tail has, and the place of the first gate.
    pub(crate) records: usize,
    pub(crate) tail: usize,
}

fn has_head(bytes: &[u8]) -> bool
    ensures { result ≡ is_headed bytes.now }
{
    bytes.len() >= 25 && &bytes[..8] == b"CURETWN1".as_slice()
}

// Where the start in use stands.
fn slot_of(second: bool) -> usize
    ensures { result ≡ slot_if second }
{
    if second { 17 } else { 9 }
}

fn read_start(bytes: &[u8], slot: usize) -> u64
    requires { slot + 8 ≤ length bytes.now }
    ensures { result ≡ start_at slot bytes.now }
{
    u64::from_be_bytes([
        bytes[slot],
        bytes[slot + 1],
        bytes[slot + 2],
        bytes[slot + 3],
        bytes[slot + 4],
        bytes[slot + 5],
        bytes[slot + 6],
        bytes[slot + 7],
    ])
}

// A start stands behind the header, and six bytes from it on, of so many in all.
fn is_start(start: u64, len: usize) -> bool
    ensures has { IsTrue result → (25 ≤ start) × (start + 6 ≤ len) }
    ensures lacks { result ≡ false → (start < 25) ⊎ (len < start + 6) }
{
    start >= 25 && start <= len as u64 && len as u64 - start >= 6
}

fn is_format(byte: u8) -> bool
    ensures { result ≡ is_known byte }
{
    byte == 1
}

// How many payloads the image of an area tells.
fn read_count(bytes: &[u8]) -> usize
    requires { 4 ≤ length bytes.now }
    ensures told { result ≡ told_length bytes.now }
    ensures small { result < 2 ^ 32 }
{
    u32::from_be_bytes([bytes[0], bytes[1], bytes[2], bytes[3]]) as usize
}

// The place behind so many payloads, each behind its length; or that of the first length that isn't whole.
fn items_end(bytes: &[u8], from: usize, count: usize) -> Result<usize, usize>
    requires { from ≤ length bytes.now }
    ensures { MatchResult result (λ end. HasItems bytes.now from count end)
        (λ at. (n : ℕ) × (n < count) × HasItems bytes.now from n at × (is_whole (drop at bytes.now) ≡ false)) }
{
    let mut at = from;
    let mut done = 0;
    while done < count {
        match whole_payload(&bytes[at..]) {
            Some(told) => at += 4 + told,
            None => return Err(at),
        }
        done += 1;
    }
    Ok(at)
}

// The gates of the area in use, or the place where it is cut off.
fn find_gates(bytes: &[u8], second: bool, start: usize) -> Result<Found, usize>
    requires head { is_headed bytes.now ≡ true }
    requires second { second ≡ is_second bytes.now }
    requires start { start ≡ start_of bytes.now }
    requires past { 25 ≤ start }
    requires within { start + 6 ≤ length bytes.now }
    requires format { is_known (slice_index bytes.now start) ≡ true }
    ensures found { IfOk result (λ found. (image tail : List (List ℕ)) × IsFound bytes.now found image tail) }
    ensures cut { IfErr result (λ at. IsCutInImage bytes.now at ⊎ IsCutInTail bytes.now at) }
{
    let images = read_count(&bytes[start + 1..]);
    let image = start + 5;
    let tail = match items_end(bytes, image, images) {
        Err(at) => return Err(at),
        Ok(tail) => tail,
    };
    match find_gate_from(bytes, tail) {
        Err(gate) => Err((gate + 1).min(bytes.len())),
        Ok((end, records)) => {
            let spot = Spot {
                second,
                start: start as u64,
                end: end as u64,
                format: bytes[start],
            };
            Ok(Found {
                spot,
                images,
                image,
                records,
                tail,
            })
        }
    }
}

// The area in use, or the place of the damage.
pub(crate) fn find_area(bytes: &[u8]) -> Result<Found, usize>
    ensures found { IfOk result (λ found. (image tail : List (List ℕ)) × IsFound bytes.now found image tail) }
    ensures damaged { IfErr result (λ at. IsDamagedAt bytes.now at) }
{
    if !has_head(bytes) {
        return Err(0);
    }
    let second = bytes[8] == 1;
    let slot = slot_of(second);
    let start = read_start(bytes, slot);
    if !is_start(start, bytes.len()) {
        return Err(slot);
    }
    let start = start as usize;
    if !is_format(bytes[start]) {
        return Err(start);
    }
    find_gates(bytes, second, start)
}
