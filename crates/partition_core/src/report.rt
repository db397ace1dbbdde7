ghost use Rattle.std.specs.Prelude.{◌≡◌, ◌≤◌, ℕ, length};
ghost use Rattle.site_vector.specs.Vector.{replaced};
ghost use Rattle.crdt_core.specs.KindsOf.{kinds_of};
ghost use Rattle.world_model.specs.rules.Event.{Heard, Reported};
ghost use Rattle.partition_core.specs.Bounds.{own_bound};
ghost use Rattle.partition_core.specs.Steps.{Anything, Steps};

use crate::Partition;
use crdt_core::Crdt;
use prepared_table::{Leased, Prepared};
use site_vector::VTime;

impl<C: Crdt> Partition<C> {
    /// How far the partition has come with each site: of its own site its own bound, up to which all that commits here
    /// has done so. Takes no memory.
    pub fn report(&self) -> VTime
        ensures { Steps (kinds_of C.laws) self.now Anything (λ e. e ≡ Reported result) self.now }
    {
        own_bounds(&self.clock, &self.prepared, self.id.site, &self.bounds)
    }

    /// Takes in what a partition of its site, numbered from 1, reported. Answers how far all of them have come with
    /// each site, as this one knows. Takes no memory.
    pub fn hear(&mut self, part: u8, bounds: &VTime) -> VTime
        requires least { 1 ≤ part }
        requires most { part ≤ self.old.parts }
        requires width { length bounds.now ≡ self.old.sites }
        ensures { (number : ℕ) → Steps (kinds_of C.laws) self.old Anything (λ e. e ≡ Heard number part bounds.now result) self.new }
    {
        self.gossip.hear(part, bounds);
        let own = own_bounds(&self.clock, &self.prepared, self.id.site, &self.bounds);
        self.gossip.stable(self.id.part, &own)
    }
}

/// The bounds, with the own bound as the entry of the own site.
pub(crate) fn own_bounds<E>(
    clock: &Leased,
    prepared: &Prepared<E>,
    site: u8,
    bounds: &VTime,
) -> VTime
    requires least { 1 ≤ site }
    requires most { site ≤ length bounds.now }
    ensures { result ≡ replaced bounds.now site (own_bound clock.now.clock prepared.now.entries) }
{
    bounds.with(site, own_bound(clock, prepared))
}

/// What the clock shows, or one below the least prepare time of what is pending.
#[tactic(auto, using(crate::proofs::Bounding::bound_by_first, crate::proofs::Bounding::bound_by_clock))]
pub(crate) fn own_bound<E>(clock: &Leased, prepared: &Prepared<E>) -> u64
    ensures { result ≡ own_bound clock.now.clock prepared.now.entries }
{
    match prepared.least() {
        Some(time) => time.saturating_sub(1),
        None => clock.now(),
    }
}
