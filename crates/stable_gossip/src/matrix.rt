ghost use Rattle.std.specs.Prelude.{◌≡◌, ◌≤◌, ◌-◌, ℕ, length, replicate, slice_set};
ghost use Rattle.site_vector.specs.Vector.{join, entry};
ghost use Rattle.site_vector.specs.Known.{vector_of, lowest};
ghost use Rattle.stable_gossip.specs.Gossip.{IsGossip, AreWide, told};

use site_vector::VTime;
use std::marker::Model;

/// The most partitions of a site.
const MOST_PARTS: usize = 16;

/// What a partition has heard of how far each partition of its site has come with each site: a vector for each, in
/// logical ticks. Takes no memory.
///
/// Contracts see the numbers of sites and partitions, and the list of the vectors.
#[derive(Drop)]
pub struct Matrix {
    sites: u8,
    parts: u8,
    heard: [VTime; MOST_PARTS],
}

impl Model for Matrix {
    ghost use Rattle.std.specs.Prelude.{take};
    ghost use Rattle.stable_gossip.specs.Gossip.{Gossip};
    ghost use Rattle.stable_gossip.specs.Layout.{IsLaidOut};

    ghost Value = { Gossip };

    ghost view = { λ m. record { sites = m.sites; parts = m.parts; heard = take m.parts m.heard } };

    ghost invariant = { λ m. IsLaidOut m.sites m.parts m.heard };
}

impl Matrix {
    /// Nothing heard yet of the partitions of a site: 1 to 8 sites, and 1 to 16 partitions.
    pub fn new(sites: u8, parts: u8) -> Matrix
        requires some_site { 1 ≤ sites }
        requires most_sites { sites ≤ 8 }
        requires some_part { 1 ≤ parts }
        requires most_parts { parts ≤ 16 }
        ensures value { result ≡ record { sites = sites; parts = parts; heard = replicate parts (replicate sites 0) } }
        ensures sound { IsGossip result }
    {
        Matrix {
            sites,
            parts,
            heard: [VTime::zero(sites); MOST_PARTS],
        }
    }

    /// Takes the entrywise greatest of what was heard of a partition and of what it reports. Partitions are numbered
    /// from 1.
    pub fn hear(&mut self, part: u8, b: &VTime)
        requires least { 1 ≤ part }
        requires most { part ≤ self.old.parts }
        requires width { length b.now ≡ self.old.sites }
        ensures heard { self.new ≡ record self.old {
          heard = slice_set self.old.heard (part - 1) (join (vector_of self.old.heard part) b.now);
        } }
        ensures sound { IsGossip self.new }
    {
        let at = part as usize - 1;
        self.heard[at] = self.heard[at].join(b);
    }

    /// How far all partitions of the site have come: for each site the least of what was heard of each, where the own
    /// partition's own vector stands for what was heard of it.
    pub fn stable(&self, own_part: u8, own: &VTime) -> VTime
        requires { length own.now ≡ self.now.sites }
        ensures width { length result ≡ self.now.sites }
        ensures least { (j : ℕ) → 1 ≤ j → j ≤ self.now.sites
            → entry result j ≡ lowest (told own_part own.now self.now.heard j) self.now.parts }
        ensures sound { IsGossip self.now }
    {
        least_of(own_part, own, &self.heard[..self.parts as usize])
    }

    /// Forgets all that was heard, as where the partition restarts.
    pub fn forget(&mut self)
        ensures heard { self.new ≡ record self.old { heard = replicate self.old.parts (replicate self.old.sites 0) } }
        ensures sound { IsGossip self.new }
    {
        let sites = self.sites;
        let parts = self.parts;
        *self = Matrix::new(sites, parts);
    }
}

/// How far a partition has come: the own vector where it is the own one, else what was heard of it.
fn known(own_part: u8, own: &VTime, heard: &[VTime], part: u8) -> VTime
    requires least { 1 ≤ part }
    requires most { part ≤ length heard.now }
    requires wide { AreWide (length own.now) heard.now }
    ensures width { length result ≡ length own.now }
    ensures entries { (j : ℕ) → entry result j ≡ told own_part own.now heard.now j part }
{
    if own_part == part {
        return *own;
    }
    heard[part as usize - 1]
}

/// The entrywise least of how far these partitions have come.
#[tactic(auto, using(crate::proofs::Least::first_least))]
fn least_of(own_part: u8, own: &VTime, heard: &[VTime]) -> VTime
    requires some { 1 ≤ length heard.now }
    requires most { length heard.now ≤ 16 }
    requires wide { AreWide (length own.now) heard.now }
    ensures width { length result ≡ length own.now }
    ensures least { (j : ℕ) → entry result j ≡ lowest (told own_part own.now heard.now j) (length heard.now) }
{
    let mut least = known(own_part, own, heard, 1);
    for part in 1..heard.len() as u8 {
        least = known(own_part, own, heard, part + 1).meet(&least);
    }
    least
}
