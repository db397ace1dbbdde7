// Texts compared byte by byte: most are short, so that a loop costs a third of std's comparison of strings.
ghost use Rattle.std.specs.Prelude.{◌≡◌};
ghost use Rattle.std.specs.Str.{bytes_eq};
ghost use Rattle.std.specs.Ordering.{nat_cmp};
ghost use Rattle.std.specs.Cmp.Lexicographic.{slice_cmp};

use std::cmp::Ordering;

/// Whether the bytes are the same.
#[tactic(auto, using(crate::proofs::Compared::other_length, crate::proofs::Compared::same_byte, crate::proofs::Compared::other_byte))]
pub(crate) fn is_same(one: &[u8], other: &[u8]) -> bool
    ensures { result ≡ bytes_eq one.now other.now }
{
    if one.len() != other.len() {
        return false;
    }
    for (i, byte) in other.iter().enumerate() {
        if one[i] != *byte {
            return false;
        }
    }
    true
}

/// The order of the bytes: the first that differs decides, and else the lengths do.
#[tactic(auto, using(crate::proofs::Compared::same_front, crate::proofs::Compared::first_other, crate::proofs::Compared::at_an_end))]
pub(crate) fn order_of(one: &[u8], other: &[u8]) -> Ordering
    ensures { result ≡ slice_cmp nat_cmp one.now other.now }
{
    let common = one.len().min(other.len());
    for i in 0..common {
        if one[i] != other[i] {
            return one[i].cmp(&other[i]);
        }
    }
    one.len().cmp(&other.len())
}
