// Reading the bytes of a log.
ghost use Rattle.std.specs.Prelude.{◌≡◌, ◌≤◌, ◌<◌, ◌+◌, ◌^◌, List, ℕ, true, false, ◌≢◌, take, drop, length, IsTrue, IfSome, MatchOption, MatchResult};
ghost use Rattle.std.specs.Str.{bytes_eq};
ghost use Rattle.gate_log.specs.Log.{header, IsLog, IsTail, end_of, tail_end};
ghost use Rattle.gate_log.specs.Damage.{told_length, is_whole, IsDamagedAt, IsCutBehind};

// A record counts where its gate is this byte alone.
fn is_open(gate: u8) -> bool
    ensures open { IsTrue result → gate ≡ 1 }
    ensures shut { result ≡ false → gate ≢ 1 }
{
    gate == 1
}

/// The length of the payload in front of which these bytes tell it, where the payload stands there whole.
pub fn whole_payload(bytes: &[u8]) -> Option<usize>
    ensures whole { MatchOption result (is_whole bytes.now ≡ false) (λ n. (is_whole bytes.now ≡ true)
        × (n ≡ told_length bytes.now)) }
    ensures small { IfSome result (λ n. n < 2 ^ 32) }
{
    if bytes.len() < 4 {
        return None;
    }
    let told = u32::from_be_bytes([bytes[0], bytes[1], bytes[2], bytes[3]]) as usize;
    if told == 0 || bytes.len() - 4 < told {
        return None;
    }
    Some(told)
}

fn has_header(bytes: &[u8]) -> bool
    ensures has { IsTrue result → (8 ≤ length bytes.now) × (take 8 bytes.now ≡ header) }
    ensures lacks { result ≡ false → take 8 bytes.now ≢ header }
{
    bytes.len() >= 8 && &bytes[..8] == b"CURELOG1".as_slice()
}

/// The place of the closed gate, and how many records stand from this place on before it; or the place where they are
/// cut off.
pub fn find_gate_from(bytes: &[u8], from: usize) -> Result<(usize, usize), usize>
    requires { from ≤ length bytes.now }
    ensures { MatchResult result
        (λ found. (payloads : List (List ℕ)) × IsTail (take from bytes.now) bytes.now payloads
        × (found.0 ≡ tail_end (take from bytes.now) payloads) × (found.1 ≡ length payloads))
        (λ at. IsCutBehind (take from bytes.now) bytes.now at) }
{
    let mut at = from;
    let mut count = 0;
    while at < bytes.len() {
        if !is_open(bytes[at]) {
            return Ok((at, count));
        }
        match whole_payload(&bytes[at + 1..]) {
            Some(told) => at += 5 + told,
            None => return Err(at),
        }
        count += 1;
    }
    Err(at)
}

// The place of the closed gate, and how many records stand before it; or the place of the damage.
pub(crate) fn find_gate(bytes: &[u8]) -> Result<(usize, usize), usize>
    ensures { MatchResult result
        (λ found. (payloads : List (List ℕ)) × IsLog bytes.now payloads × (found.0 ≡ end_of payloads)
        × (found.1 ≡ length payloads))
        (λ at. IsDamagedAt bytes.now at) }
{
    if !has_header(bytes) {
        return Err(0);
    }
    find_gate_from(bytes, 8)
}
