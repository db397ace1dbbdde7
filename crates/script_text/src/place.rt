ghost use Rattle.std.specs.Prelude.{◌≡◌, ◌<◌, ◌==◌, length, IfSome, option_map};
ghost use Rattle.std.specs.List.{position as position_of};
ghost use Rattle.script_text.specs.Places as places;

use crate::number::{numeral, ranged, small};
use site_vector::{PartId, TxId};

/// The greatest number of a script.
pub const MOST: u64 = (1 << 48) - 1;

/// The greatest time.
const MOST_TIME: u64 = 1 << 62;

/// Where the first such byte stands.
fn position(word: &[u8], byte: u8) -> Option<usize>
    ensures at { result ≡ position_of (λ c. c == byte) word.now }
    ensures within { IfSome result (λ i. i < length word.now) }
{
    word.iter().position(|b| *b == byte)
}

/// What stands before the first such byte, and what after it.
fn cut(word: &str, byte: u8) -> Option<(&str, &str)>
    requires ascii { byte < 128 }
    ensures { option_map (λ p. (p.0.now, p.1.now)) result ≡ places.cut_at byte word.now }
{
    match position(word.as_bytes(), byte) {
        None => None,
        Some(at) => {
            let (before, _) = word.split_at(at);
            let (_, after) = word.split_at(at + 1);
            Some((before, after))
        }
    }
}

/// A number below 2^48.
pub fn number(word: &str) -> Option<u64>
    ensures { result ≡ places.number word.now }
{
    numeral(word, MOST)
}

/// A time, at most 2^62.
pub fn time(word: &str) -> Option<u64>
    ensures { result ≡ places.time word.now }
{
    numeral(word, MOST_TIME)
}

/// A site, from 1 to 8.
pub fn site(word: &str) -> Option<u8>
    ensures { result ≡ places.site word.now }
{
    small(word, 1, 8)
}

/// A place, as `1.2`.
pub fn part(word: &str) -> Option<PartId>
    ensures { result ≡ places.part word.now }
{
    let (before, after) = cut(word, b'.')?;
    let site = small(before, 1, 8)?;
    let part = small(after, 1, 16)?;
    Some(PartId { site, part })
}

/// A transaction, as `1.2#101`.
pub fn tx(word: &str) -> Option<TxId>
    ensures { result ≡ places.tx word.now }
{
    let (before, after) = cut(word, b'#')?;
    let part = part(before)?;
    let time = time(after)?;
    Some(TxId {
        site: part.site,
        part: part.part,
        time,
    })
}

/// A letter and a number.
#[tactic(auto, using(crate::proofs::Cuts::after_first))]
pub fn numbered(word: &str, letter: u8) -> Option<u64>
    requires ascii { letter < 128 }
    ensures { result ≡ places.numbered letter word.now }
{
    match word.as_bytes() {
        [] => None,
        [first, ..] => {
            if *first != letter {
                return None;
            }
            number(&word[1..])
        }
    }
}
