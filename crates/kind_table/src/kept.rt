// What stands in a state: values at dots.
ghost use Rattle.std.specs.Prelude.{◌≡◌, true};
ghost use Rattle.crdt_core.specs.Spelled.{is_dot};

use crdt_core::Kept;
use site_vector::{Dot, TxId};
use std::alloc::{AllocError, Global};

/// The dot of an update of a site, by its number from 0 in a history.
pub(crate) fn dot_of(site: u8, number: usize) -> Dot
    ensures { is_dot result ≡ true }
{
    let site = site.max(1).min(8);
    let index = number.min(255) as u16 + 1;
    Dot {
        tx: TxId {
            site,
            part: 1,
            time: 10,
        },
        index,
    }
}

fn numbers_of(piece: &[u8]) -> Option<(usize, i64)> {
    let (number, value) = str::from_utf8(piece).ok()?.split_once(':')?;
    Some((number.parse::<usize>().ok()?, value.parse::<i64>().ok()?))
}

/// The values at the dots of these numbers.
fn kept_of(alloc: Global, word: &str) -> Result<Kept<i64>, AllocError> {
    let mut kept: Kept<i64> = Kept::new(alloc);
    for piece in word.as_bytes().split(|byte| *byte == b',') {
        if let Some((number, value)) = numbers_of(piece) {
            kept.put(dot_of(1, number), value)?;
        }
    }
    Ok(kept)
}

fn put_dots(out: &mut String, dots: &[Dot]) -> Result<(), AllocError> {
    out.push_str("dots")?;
    for dot in dots {
        write!(out, " {}", dot.index)?;
    }
    Ok(())
}

/// Adds the numbers of the dots, whether nothing is left without them, and how many a copy has.
fn put_kept(alloc: Global, out: &mut String, kept: &mut Kept<i64>) -> Result<(), AllocError> {
    let dots = kept.dots(alloc)?;
    put_dots(out, dots.as_slice())?;
    let copied = kept.copy()?.iter().count();
    kept.take_out(dots.copy(alloc)?.as_slice());
    let empty = kept.is_empty();
    writeln!(out, ", empty without them: {empty}, a copy has {copied}")
}

/// Answers `kept NUMBER:VALUE,..`.
pub(crate) fn answer(alloc: Global, out: &mut String, word: &str) -> Result<(), AllocError> {
    put_kept(alloc, out, &mut kept_of(alloc, word)?)
}
