ghost use Rattle.std.specs.Prelude.{◌≡◌, ◌≤◌, ◌<◌, ◌+◌, ℕ, List, length, MatchOption, IfOk, OnOk};
ghost use Rattle.crdt_core.specs.KindsOf.{kinds_of};
ghost use Rattle.crdt_core.specs.Log.{end_of_time};
ghost use Rattle.world_model.specs.lines.Lines.{wish_of};
ghost use Rattle.world_model.specs.rules.Event.{AskBegin, Began};
ghost use Rattle.partition_core.specs.Answers.{Answered};
ghost use Rattle.partition_core.specs.Begun.{begun};
ghost use Rattle.partition_core.specs.Bounds.{IsBehind, AreEnough, AllEnough, IsFirstBehind};
ghost use Rattle.partition_core.specs.Steps.{Anything};

use crate::clock::END_OF_TIME;
use crate::report::own_bounds;
use crate::{Partition, Refusal};
use crdt_core::Crdt;
use site_vector::{TxId, VTime};
use world_model::Mode;

impl<C: Crdt> Partition<C> {
    /// What a begin would answer now, of a session that depends on these times: the id of the transaction, and its
    /// snapshot.
    ///
    /// # Errors
    ///
    /// `StableBehind` where of some site less is stable here than the session depends on, with the first such site and
    /// what is stable of it: of another one, and for a stable begin of the own one too. Else `ClockAtEnd` where the
    /// clock shows 2^62.
    pub(crate) fn next_begin(
        &self,
        dependency: &VTime,
        mode: Mode,
    ) -> Result<(TxId, VTime), Refusal>
        requires { length dependency.now ≡ self.now.sites }
        ensures answers { (who : List ℕ) → Answered (kinds_of C.laws) self.now Anything (AskBegin who (wish_of dependency.now mode)) (λ x e. e ≡ Began who (wish_of dependency.now mode) x.0 x.1) result (begun self.now result) }
        ensures next { IfOk result (λ x. x.0.time ≡ self.now.clock + 1) }
        ensures early { OnOk result (self.now.clock < end_of_time) }
    {
        match mode {
            Mode::Fresh => self.next_fresh(dependency),
            Mode::Stable => self.next_stable(dependency),
        }
    }

    /// Of a transaction that reads the present of its own site.
    fn next_fresh(&self, dependency: &VTime) -> Result<(TxId, VTime), Refusal>
        requires { length dependency.now ≡ self.now.sites }
        ensures answers { (who : List ℕ) → Answered (kinds_of C.laws) self.now Anything (AskBegin who (wish_of dependency.now Mode.Fresh)) (λ x e. e ≡ Began who (wish_of dependency.now Mode.Fresh) x.0 x.1) result (begun self.now result) }
        ensures next { IfOk result (λ x. x.0.time ≡ self.now.clock + 1) }
        ensures early { OnOk result (self.now.clock < end_of_time) }
    {
        let id = self.id;
        let stable = self.gossip.stable(id.part, &self.bounds);
        if let Some(site) = first_behind(id.site, &stable, dependency) {
            let have = stable.get(site);
            return Err(Refusal::StableBehind { site, have });
        }
        if self.clock.now() == END_OF_TIME {
            return Err(Refusal::ClockAtEnd);
        }
        let time = self.clock.now() + 1;
        let s = stable.with(id.site, time.max(dependency.get(id.site)));
        let tx = TxId {
            site: id.site,
            part: id.part,
            time,
        };
        Ok((tx, s))
    }

    /// Of a transaction that reads what is stable of each site, as it is before the id is drawn.
    fn next_stable(&self, dependency: &VTime) -> Result<(TxId, VTime), Refusal>
        requires { length dependency.now ≡ self.now.sites }
        ensures answers { (who : List ℕ) → Answered (kinds_of C.laws) self.now Anything (AskBegin who (wish_of dependency.now Mode.Stable)) (λ x e. e ≡ Began who (wish_of dependency.now Mode.Stable) x.0 x.1) result (begun self.now result) }
        ensures next { IfOk result (λ x. x.0.time ≡ self.now.clock + 1) }
        ensures early { OnOk result (self.now.clock < end_of_time) }
    {
        let id = self.id;
        let own = own_bounds(&self.clock, &self.prepared, id.site, &self.bounds);
        let stable = self.gossip.stable(id.part, &own);
        if let Some(site) = first_exceeded(&stable, dependency) {
            let have = stable.get(site);
            return Err(Refusal::StableBehind { site, have });
        }
        if self.clock.now() == END_OF_TIME {
            return Err(Refusal::ClockAtEnd);
        }
        let tx = TxId {
            site: id.site,
            part: id.part,
            time: self.clock.now() + 1,
        };
        Ok((tx, stable))
    }
}

/// The first other site of which less is stable than a session depends on.
fn first_behind(own: u8, stable: &VTime, dependency: &VTime) -> Option<u8>
    requires { length dependency.now ≡ length stable.now }
    ensures { MatchOption result (AreEnough (length stable.now) own stable.now dependency.now (length stable.now)) (λ j. IsBehind (length stable.now) own stable.now dependency.now j) }
{
    for i in 0..stable.width() {
        let site = i + 1;
        if site != own && stable.get(site) < dependency.get(site) {
            return Some(site);
        }
    }
    None
}

/// The first site of all of which less is stable than a session depends on.
fn first_exceeded(stable: &VTime, dependency: &VTime) -> Option<u8>
    requires { length dependency.now ≡ length stable.now }
    ensures { MatchOption result (AllEnough stable.now dependency.now (length stable.now)) (λ j. IsFirstBehind stable.now dependency.now j) }
{
    for i in 0..stable.width() {
        let site = i + 1;
        if stable.get(site) < dependency.get(site) {
            return Some(site);
        }
    }
    None
}
