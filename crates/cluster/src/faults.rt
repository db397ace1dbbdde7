// Crashes, restarts and fuses; and which disk failed for want of memory.
ghost use Rattle.std.specs.Prelude.{◌≡◌, ◌≤◌, true, false, IfOk, [], ◌∷◌};
ghost use Rattle.site_vector.specs.declared.ids.PartId.{PartId as Place};
ghost use Rattle.site_partitions.specs.Reaches.{types_of};
ghost use Rattle.cluster.specs.Built.{IsSaid, is_of_faults};
ghost use Rattle.cluster.specs.Faults.{AreFed, IsFed};
ghost use Rattle.cluster.specs.Fuel.{IsUnfiredAt, SetsFuse, StaysUnarmed};
ghost use Rattle.cluster.specs.Reached.{AppliesLive, IsReachedLive};

use crate::cluster::only;
use crate::live::Live;
use crdt_core::Crdt;
use disk_core::{Disk, Fused};
use partition_core::{RestartError, Restarted};
use site_vector::PartId;
use std::alloc::AllocError;
use world_model::{Command, Step};

impl<C: Crdt, D: Disk + Drop> Live<C, Fused<D>> {
    ghost use Rattle.disk_core.specs.Fuses.{fused_state};

    /// The lines that answer a command of crashes, restarts and fuses.
    #[inline(never)]
    pub(crate) fn strike(&mut self, command: &Command) -> Result<Vec<Step>, AllocError>
        requires of_faults { is_of_faults command.now ≡ true }
        requires said { IsSaid C.has C.too_deep command.now }
        requires reached { IsReachedLive (types_of C.laws C.spells (fused_state D.state)) self.old }
        ensures applies { IfOk result (λ steps. AppliesLive (types_of C.laws C.spells (fused_state D.state)) self.old command.now steps.items self.new) }
        ensures fuse { IfOk result (λ steps. SetsFuse (fused_state D.state) command.now self.old.sites self.new.sites) }
    {
        match command {
            Command::Crash { part } => {
                return self.crash(*part);
            }
            Command::Restart { part } => {
                return self.restart(*part);
            }
            Command::Fuse { part, call, keep } => {
                return self.fuse(*part, *call, *keep);
            }
            _ => {
                return only(self.alloc, Step::Unbuilt);
            }
        }
    }

    /// Has a partition come up again from its log. A fuse of its disk that has fired is taken away before.
    fn restart(&mut self, part: PartId) -> Result<Vec<Step>, AllocError>
        requires reached { IsReachedLive (types_of C.laws C.spells (fused_state D.state)) self.old }
        ensures applies { IfOk result (λ steps. AppliesLive (types_of C.laws C.spells (fused_state D.state)) self.old (Command.Restart part) steps.items self.new) }
        ensures fuse { IfOk result (λ steps. SetsFuse (fused_state D.state) (Command.Restart part) self.old.sites self.new.sites) }
    {
        if !self.has_part(part) {
            return only(self.alloc, Step::NoPart);
        }
        self.sites.all.revive_at(part);
        self.come_up(part)
    }

    /// Arms the fuse of a partition's disk.
    fn fuse(&mut self, part: PartId, call: u64, keep: u64) -> Result<Vec<Step>, AllocError>
        requires { 1 ≤ call }
        ensures applies { IfOk result (λ steps. AppliesLive (types_of C.laws C.spells (fused_state D.state)) self.old (Command.Fuse part call keep) steps.items self.new) }
        ensures fuse { IfOk result (λ steps. SetsFuse (fused_state D.state) (Command.Fuse part call keep) self.old.sites self.new.sites) }
    {
        if !self.has_part(part) {
            return only(self.alloc, Step::NoPart);
        }
        self.sites.all.arm_at(part, call, keep);
        only(self.alloc, Step::Fused { part, call, keep })
    }
}

impl<C: Crdt, D: Disk + Drop> Live<C, D> {
    ghost use Rattle.world_model.specs.lines.Places.{IsPlace};

    /// Stops a partition.
    fn crash(&mut self, part: PartId) -> Result<Vec<Step>, AllocError>
        ensures { IfOk result (λ steps. AppliesLive (types_of C.laws C.spells D.state) self.old (Command.Crash part) steps.items self.new) }
    {
        if !self.has_part(part) {
            return only(self.alloc, Step::NoPart);
        }
        self.sites.all.crash_at(part);
        only(self.alloc, Step::Crashed { part })
    }

    /// Has a partition come up again from its log.
    fn come_up(&mut self, part: PartId) -> Result<Vec<Step>, AllocError>
        requires place { IsPlace self.old.sites.sites self.old.sites.parts part }
        requires reached { IsReachedLive (types_of C.laws C.spells D.state) self.old }
        requires unfired { IsUnfiredAt D.state self.old.sites part }
        ensures applies { IfOk result (λ steps. AppliesLive (types_of C.laws C.spells D.state) self.old (Command.Restart part) steps.items self.new) }
        ensures unarmed { IfOk result (λ steps. StaysUnarmed D.state self.old.sites self.new.sites part) }
    {
        match self.sites.all.restart_at(part) {
            Ok(restarted) => {
                return only(self.alloc, came_up(part, restarted));
            }
            Err(error) => match error {
                RestartError::Disk => {
                    return only(self.alloc, Step::Disk { part });
                }
                RestartError::NoMemory => {
                    return Err(AllocError);
                }
                // No run leaves a log on a disk that isn't the partition's.
                RestartError::Damaged { at } => {
                    return only(self.alloc, Step::Damaged { part, at });
                }
            },
        }
    }

    /// Whether one of these lines tells of a disk that failed for want of memory.
    pub(crate) fn lacks_memory(&self, steps: &[Step]) -> bool
        ensures { result ≡ false → AreFed D.state self.now.sites steps.now }
    {
        for step in steps {
            if self.is_starving(step) {
                return true;
            }
        }
        false
    }

    /// Whether a line tells of a disk that failed for want of memory. Where a decide is in doubt, its lead's did: one of
    /// the site.
    fn is_starving(&self, step: &Step) -> bool
        ensures { result ≡ false → AreFed D.state self.now.sites (step.now ∷ []) }
    {
        match step {
            Step::Disk { part } => self.is_starved(*part),
            Step::Unsure { tx } => self.is_site_starved(tx.site),
            _ => false,
        }
    }

    fn is_site_starved(&self, site: u8) -> bool
        ensures { result ≡ false → (p : Place) → p.site ≡ site → IsFed D.state self.now.sites p }
    {
        for i in 0..self.sites.all.parts() {
            if self.is_starved(PartId { site, part: i + 1 }) {
                return true;
            }
        }
        false
    }

    fn is_starved(&self, part: PartId) -> bool
        ensures { result ≡ false → IsFed D.state self.now.sites part }
    {
        self.has_part(part) && self.sites.all.starved_at(part)
    }
}

/// The line of a partition that came up again.
fn came_up(part: PartId, restarted: Restarted) -> Step
    ensures { result ≡ Step.Restarted part restarted.now restarted.bounds restarted.decided restarted.pending }
{
    Step::Restarted {
        part,
        now: restarted.now,
        bounds: restarted.bounds,
        decided: restarted.decided,
        pending: restarted.pending,
    }
}
