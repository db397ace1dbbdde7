ghost use Rattle.std.specs.Prelude.{◌≡◌, ◌≤◌, ◌<◌, ℕ, List, Bool, length, replicate, nat_eq};
ghost use Rattle.std.specs.Cmp.Lexicographic.{pointwise};
ghost use Rattle.std.specs.Cmp.Rules.{comparing};
ghost use Rattle.std.proofs.Common.{rules};
ghost use Rattle.site_vector.specs.Vector.{le, join, meet, sum, order, entry, replaced};

use std::cmp::Ordering;
use std::marker::Model;

/// The most sites that a vector has entries for.
const MOST_SITES: usize = 8;

/// A vector of times in logical ticks, with one entry for each of 1 to 8 sites (Cure's vector clock).
/// Contracts see it as the list of its entries, in the order of the sites.
#[derive(Clone, Copy, Debug)]
pub struct VTime {
    width: u8,
    entries: [u64; MOST_SITES],
}

impl Model for VTime {
    ghost use Rattle.std.specs.Prelude.{List, ℕ, take};
    ghost use Rattle.site_vector.specs.Entries.{IsPadded, unpadded, unpadded-take};

    ghost Value = { List ℕ };

    ghost view = { λ v. take v.width v.entries };

    ghost invariant = { λ v. IsPadded v.width v.entries };

    ghost inverse = { λ l. record { width = (unpadded l).0; entries = (unpadded l).1 } };

    ghost inverse_ok = { λ v h. unpadded-take v h };
}

impl VTime {
    /// The vector of `n` zeros, `n` from 1 to 8.
    pub fn zero(n: u8) -> VTime
        requires least { 1 ≤ n }
        requires most { n ≤ 8 }
        ensures { result ≡ replicate n 0 }
    {
        VTime {
            width: n,
            entries: [0; MOST_SITES],
        }
    }

    /// The number of entries.
    pub fn width(&self) -> u8
        ensures entries { result ≡ length self.now }
        ensures least { 1 ≤ length self.now }
        ensures most { length self.now ≤ 8 }
    {
        self.width
    }

    /// The entry of a site. Sites are numbered from 1.
    pub fn get(&self, site: u8) -> u64
        requires least { 1 ≤ site }
        requires most { site ≤ length self.now }
        ensures { result ≡ entry self.now site }
    {
        self.entries[site as usize - 1]
    }

    /// The vector with `n` as the entry of a site. Sites are numbered from 1.
    pub fn with(&self, site: u8, n: u64) -> VTime
        requires least { 1 ≤ site }
        requires most { site ≤ length self.now }
        ensures { result ≡ replaced self.now site n }
    {
        let mut entries = self.entries;
        entries[site as usize - 1] = n;
        VTime {
            width: self.width,
            entries,
        }
    }

    /// Whether each entry is at most that of the other vector.
    pub fn le(&self, o: &VTime) -> bool
        requires { length self.now ≡ length o.now }
        ensures { result ≡ le self.now o.now }
    {
        are_at_most(self.as_slice(), o.as_slice())
    }

    /// The greatest of each two entries: the least vector that neither is above.
    pub fn join(&self, o: &VTime) -> VTime
        requires { length self.now ≡ length o.now }
        ensures { result ≡ join self.now o.now }
    {
        VTime {
            width: self.width,
            entries: greatest(&self.entries, &o.entries),
        }
    }

    /// The least of each two entries: the greatest vector that is above neither.
    pub fn meet(&self, o: &VTime) -> VTime
        requires { length self.now ≡ length o.now }
        ensures { result ≡ meet self.now o.now }
    {
        VTime {
            width: self.width,
            entries: least(&self.entries, &o.entries),
        }
    }

    /// The sum of the entries.
    pub fn sum(&self) -> u128
        ensures { result ≡ sum self.now }
    {
        total(self.as_slice())
    }

    /// The order of the sums, and then that of the entries, from the first site on.
    /// A total order in which no vector stands before one that it is above.
    pub fn cmp_order(&self, o: &VTime) -> Ordering
        requires { length self.now ≡ length o.now }
        ensures { result ≡ order self.now o.now }
    {
        match self.sum().cmp(&o.sum()) {
            Ordering::Less => Ordering::Less,
            Ordering::Equal => self.as_slice().cmp(&o.as_slice()),
            Ordering::Greater => Ordering::Greater,
        }
    }

    /// The entries, in the order of the sites.
    pub fn as_slice(&self) -> &[u64]
        ensures value { result.now ≡ self.now }
        ensures most { length self.now ≤ 8 }
    {
        &self.entries[..self.width as usize]
    }
}

impl PartialEq for VTime {
    ghost eq = { pointwise nat_eq };

    ghost laws = { Prim.search (comparing, rules) };

    fn eq(&self, other: &VTime) -> bool {
        self.as_slice() == other.as_slice()
    }
}

impl Eq for VTime {
    ghost laws = { Prim.search (comparing, rules) };
}

fn are_at_most(u: &[u64], v: &[u64]) -> bool
    requires { length u.now ≡ length v.now }
    ensures { result ≡ le u.now v.now }
{
    for i in 0..u.len() {
        if u[i] > v[i] {
            return false;
        }
    }
    true
}

fn greatest(u: &[u64; MOST_SITES], v: &[u64; MOST_SITES]) -> [u64; MOST_SITES]
    ensures { result ≡ join u.now v.now }
{
    let mut joined = [0; MOST_SITES];
    for i in 0..MOST_SITES {
        joined[i] = u[i].max(v[i]);
    }
    joined
}

fn least(u: &[u64; MOST_SITES], v: &[u64; MOST_SITES]) -> [u64; MOST_SITES]
    ensures { result ≡ meet u.now v.now }
{
    let mut met = [0; MOST_SITES];
    for i in 0..MOST_SITES {
        met[i] = u[i].min(v[i]);
    }
    met
}

fn total(v: &[u64]) -> u128
    requires { length v.now ≤ 8 }
    ensures { result ≡ sum v.now }
{
    let mut sum = 0;
    for n in v {
        sum += *n as u128;
    }
    sum
}
