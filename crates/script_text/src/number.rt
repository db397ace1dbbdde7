ghost use Rattle.std.specs.Prelude.{◌≡◌, ◌≤◌, ◌^◌, IfSome};
ghost use Rattle.script_text.specs.Numbers as numbers;

/// A number above this has no further digit: with one it is above each `top`.
const MOST_BEFORE: u64 = 1 << 60;

/// The number that the digits spell, where all are digits and it is at most `top`.
fn digits(word: &[u8], top: u64) -> Option<u64>
    requires { top ≤ 2 ^ 62 }
    ensures value { result ≡ numbers.digits_of top word.now }
    ensures most { IfSome result (λ n. n ≤ top) }
{
    let mut n = 0;
    for byte in word {
        if !byte.is_ascii_digit() {
            return None;
        }
        if n > MOST_BEFORE {
            return None;
        }
        let next = n * 10 + (*byte - b'0') as u64;
        if next > top {
            return None;
        }
        n = next;
    }
    Some(n)
}

/// The numeral's number, where it is at most `top`.
pub fn numeral(word: &str, top: u64) -> Option<u64>
    requires { top ≤ 2 ^ 62 }
    ensures value { result ≡ numbers.numeral top word.now }
    ensures most { IfSome result (λ n. n ≤ top) }
{
    let word = word.as_bytes();
    match word {
        [] => None,
        [_] => digits(word, top),
        [first, ..] => {
            if *first == b'0' {
                return None;
            }
            digits(word, top)
        }
    }
}

/// A numeral from `lo` to `hi`.
pub fn ranged(word: &str, lo: u64, hi: u64) -> Option<u64>
    requires { hi ≤ 2 ^ 62 }
    ensures value { result ≡ numbers.ranged lo hi word.now }
    ensures least { IfSome result (λ n. lo ≤ n) }
    ensures most { IfSome result (λ n. n ≤ hi) }
{
    let n = numeral(word, hi)?;
    if lo <= n {
        return Some(n);
    }
    None
}

/// A numeral from `lo` to `hi`.
pub fn small(word: &str, lo: u8, hi: u8) -> Option<u8>
    ensures { result ≡ numbers.ranged lo hi word.now }
{
    let n = ranged(word, lo as u64, hi as u64)?;
    Some(n as u8)
}

/// A numeral below 2^31, or a minus sign and one from 1 to 2^31.
#[tactic(auto, using(crate::proofs::Cuts::after_first))]
pub fn integer(word: &str) -> Option<i32>
    ensures { result ≡ numbers.integer word.now }
{
    match word.as_bytes() {
        [] => None,
        [b'-', ..] => {
            let n = ranged(&word[1..], 1, 1 << 31)?;
            Some((-(n as i64)) as i32)
        }
        _ => {
            let n = numeral(word, (1 << 31) - 1)?;
            Some(n as i32)
        }
    }
}
