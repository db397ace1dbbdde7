// Vectors, as `5,7,2`, and ids.
ghost use Rattle.std.specs.Prelude.{◌≡◌, length};

use crate::words::number_of;
use crdt_core::take_vector;
use field_codec::{put_u8, put_u64};
use site_vector::{PartId, TxId, VTime};
use std::alloc::{AllocError, Global};
use std::cmp::Ordering;

/// The vector of the word's numbers, where there are 1 to 8.
fn vector_of(alloc: Global, word: &str) -> Result<Option<VTime>, AllocError> {
    let mut entries = Vec::new(alloc);
    let mut count: u8 = 0;
    for piece in word.as_bytes().split(|byte| *byte == b',') {
        put_u64(&mut entries, number_of(str::from_utf8(piece).unwrap_or("")))?;
        count = count.saturating_add(1);
    }
    let mut bytes = Vec::new(alloc);
    put_u8(&mut bytes, count)?;
    bytes.extend_from_slice(entries.as_slice())?;
    Ok(take_vector(bytes.as_slice(), 0).ok().map(|taken| taken.0))
}

fn put_vector(out: &mut String, v: &VTime) -> Result<(), AllocError> {
    out.push('[')?;
    for i in 0..v.width() {
        if i > 0 {
            out.push(',')?;
        }
        write!(out, "{}", v.get(i + 1))?;
    }
    out.push(']')
}

fn name_of(order: Ordering) -> &'static str {
    match order {
        Ordering::Less => "less",
        Ordering::Equal => "equal",
        Ordering::Greater => "greater",
    }
}

/// Adds what two vectors of one width are together.
fn put_both(out: &mut String, u: &VTime, v: &VTime) -> Result<(), AllocError>
    requires { length u.now ≡ length v.now }
{
    out.push_str("join ")?;
    put_vector(out, &u.join(v))?;
    out.push_str(", meet ")?;
    put_vector(out, &u.meet(v))?;
    write!(out, ", sums {} and {}", u.sum(), v.sum())?;
    write!(out, ", at most: {} and {}", u.le(v), v.le(u))?;
    writeln!(out, ", order: {}", name_of(u.cmp_order(v)))
}

/// Answers `vectors U V`.
pub(crate) fn answer(
    alloc: Global,
    out: &mut String,
    one: &str,
    other: &str,
) -> Result<(), AllocError> {
    let (Some(u), Some(v)) = (vector_of(alloc, one)?, vector_of(alloc, other)?) else {
        return out.push_str("no vectors\n");
    };
    if u.width() != v.width() {
        return writeln!(out, "{} and {} entries", u.width(), v.width());
    }
    put_both(out, &u, &v)
}

/// Answers `ids SITE PART TIME`: the place and the transaction.
pub(crate) fn answer_ids(
    out: &mut String,
    site: &str,
    part: &str,
    time: &str,
) -> Result<(), AllocError> {
    let place = PartId {
        site: site.parse::<u8>().unwrap_or(0),
        part: part.parse::<u8>().unwrap_or(0),
    };
    let tx = TxId {
        site: place.site,
        part: place.part,
        time: number_of(time),
    };
    writeln!(out, "{place} {tx}")
}
