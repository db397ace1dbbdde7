ghost use Rattle.std.specs.Prelude.{◌≡◌, ◌≤◌, ◌*◌, ℕ, [], ◌∷◌, length, false, None, IfOk, IfErr, OnErr};
ghost use Rattle.disk_core.specs.Fuses.{fused_state};
ghost use Rattle.site_partitions.specs.Made.{AreBlank, HandsBack};
ghost use Rattle.site_partitions.specs.Reaches.{types_of};
ghost use Rattle.site_partitions.specs.Sound.{AllSound};
ghost use Rattle.world_model.specs.commands.Run.{Run};
ghost use Rattle.cluster.specs.Built.{IsSaid, is_making};
ghost use Rattle.cluster.specs.Fused.{AreSoundIn, StaysFused};
ghost use Rattle.cluster.specs.Reached.{Applies, IsReached, Reached, FedIn, SetsFuseIn, SizedIn, parts_in, partitions_in};

use crate::running::Running;
use crdt_core::{Crdt, ObjectId};
use disk_core::{Disk, Fused};
use field_codec::Text;
use partition_core::DurablePartition;
use site_partitions::{MakeError, Sites};
use std::alloc::{AllocError, Global};
use std::marker::Model;
use std::mem::replace;
use world_model::{Command, Step};

/// What the commands of a script work on: no cluster at first, and then one with its sessions.
///
/// Contracts see it where the run of some script left it (`Reached`).
#[derive(Drop)]
pub struct Cluster<C: Crdt, D: Disk + Drop> {
    alloc: Global,
    live: Option<Running<C, Fused<D>>>,
}

impl<C: Crdt, D: Disk + Drop> Model for Cluster<C, D> {
    ghost use Rattle.std.specs.Prelude.{Option};
    ghost use Rattle.disk_core.specs.Fuses.{fused_state};
    ghost use Rattle.disk_core.specs.declared.fused.Fused.{Fused as WithFuse};
    ghost use Rattle.site_partitions.specs.Reaches.{types_of};
    ghost use Rattle.cluster.specs.Post.{WholeState};
    ghost use Rattle.cluster.specs.Reached.{IsReached};

    ghost Value = { Option (WholeState C.Effect (WithFuse D)) };

    ghost view = { λ s. s.live };

    ghost invariant = { λ s. IsReached (types_of C.laws C.spells (fused_state D.state)) s.live };
}

impl<C: Crdt, D: Disk + Drop> Cluster<C, D> {
    /// Before any command. Takes no memory.
    pub fn new(alloc: Global) -> Cluster<C, D>
        ensures { Reached (types_of C.laws C.spells (fused_state D.state)) result [] }
    {
        Cluster { alloc, live: None }
    }

    /// The number of partitions of each site, where a cluster is made.
    pub fn parts(&self) -> Option<u8>
        ensures is { result ≡ parts_in self.now }
        ensures sized { SizedIn self.now }
    {
        match &self.live {
            Some(cluster) => Some(cluster.live.sites.all.parts()),
            None => None,
        }
    }

    /// Makes a cluster over formatted disks, one for each partition, site by site. A fuse that is armed on one is taken
    /// away. Answers the lines of the command.
    ///
    /// # Errors
    ///
    /// `Partition` where one doesn't come up, as its restart says; `NoMemory` where memory runs out. It is as new then.
    pub fn start(
        &mut self,
        sites: u8,
        parts: u8,
        disks: Vec<Fused<D>>,
    ) -> Result<Vec<Step>, MakeError<Fused<D>>>
        requires lacks { self.old ≡ None }
        requires least_site { 1 ≤ sites }
        requires most_sites { sites ≤ 8 }
        requires least_part { 1 ≤ parts }
        requires most_parts { parts ≤ 16 }
        requires all { length disks.items ≡ sites * parts }
        requires blank { AreBlank (fused_state D.state) disks.items }
        ensures ok { IfOk result (λ steps. Applies (types_of C.laws C.spells (fused_state D.state)) self.old (Command.Cluster sites parts) steps.items self.new) }
        ensures sound { IfOk result (λ steps. AllSound (fused_state D.state) disks.items → AreSoundIn (fused_state D.state) self.new) }
        ensures fused { IfOk result (λ steps. (number : ℕ) (run : Run) → StaysFused number (Command.Cluster sites parts) steps.items run) }
        ensures err { OnErr result (self.new ≡ None) }
        ensures failed { IfErr result (λ e. HandsBack (fused_state D.state) sites parts disks.items e) }
    {
        let steps = only(self.alloc, Step::MadeCluster { sites, parts })?;
        let made = Sites::new(self.alloc, sites, parts, disks)?;
        self.live = Some(Running::new(self.alloc, made));
        Ok(steps)
    }

    /// The lines that answer a command, but for the one that makes a cluster where there is none. Over sound disks, one
    /// that a line tells to have failed did so by a fuse that a command armed, and that was in force.
    ///
    /// # Errors
    ///
    /// `AllocError` where memory runs out, also that of a disk which grows in memory; or no number is left for a message
    /// or report: 2^64 were made. It is as new then.
    pub fn apply(&mut self, command: &Command) -> Result<Vec<Step>, AllocError>
        requires said { IsSaid C.has C.too_deep command.now }
        requires made { self.old ≡ None → is_making command.now ≡ false }
        ensures ok { IfOk result (λ steps. Applies (types_of C.laws C.spells (fused_state D.state)) self.old command.now steps.items self.new) }
        ensures fed { IfOk result (λ steps. FedIn (fused_state D.state) self.new steps.items) }
        ensures fuse { IfOk result (λ steps. SetsFuseIn (fused_state D.state) command.now self.old self.new) }
        ensures sound { IfOk result (λ steps. AreSoundIn (fused_state D.state) self.old → AreSoundIn (fused_state D.state) self.new) }
        ensures fused { IfOk result (λ steps. AreSoundIn (fused_state D.state) self.old → (number : ℕ) (run : Run) → Reached (types_of C.laws C.spells (fused_state D.state)) self.old run → StaysFused number command.now steps.items run) }
        ensures err { OnErr result (self.new ≡ None) }
    {
        match answer(self.alloc, &mut self.live, command) {
            Ok(steps) => {
                if lacks_memory(&self.live, steps.as_slice()) {
                    drop_live(&mut self.live);
                    return Err(AllocError);
                }
                return Ok(steps);
            }
            Err(error) => {
                drop_live(&mut self.live);
                return Err(error);
            }
        }
    }

    /// Takes a list of lines that were read back, for its memory.
    pub fn hand_back(&mut self, steps: Vec<Step>)
        ensures { self.new ≡ self.old }
    {
        if let Some(cluster) = &mut self.live {
            cluster.live.spare = steps;
        }
    }

    /// The partitions, site by site, each with its disk; none where no cluster is made.
    pub fn into_partitions(self) -> Vec<DurablePartition<C, Fused<D>>>
        ensures { result.items ≡ partitions_in self }
    {
        match self.live {
            Some(cluster) => cluster.into_partitions(),
            None => Vec::new(self.alloc),
        }
    }
}

/// The lines that answer a command.
fn answer<C: Crdt, D: Disk + Drop>(
    alloc: Global,
    live: &mut Option<Running<C, Fused<D>>>,
    command: &Command,
) -> Result<Vec<Step>, AllocError>
    requires said { IsSaid C.has C.too_deep command.now }
    requires made { live.old ≡ None → is_making command.now ≡ false }
    requires reached { IsReached (types_of C.laws C.spells (fused_state D.state)) live.old }
    ensures applies { IfOk result (λ steps. Applies (types_of C.laws C.spells (fused_state D.state)) live.old command.now steps.items live.new) }
    ensures fuse { IfOk result (λ steps. SetsFuseIn (fused_state D.state) command.now live.old live.new) }
    ensures none { IfOk result (λ steps. live.old ≡ None → (live.new ≡ None) × (steps.items ≡ Step.NoCluster ∷ [])) }
{
    match live {
        Some(cluster) => {
            return cluster.apply(command);
        }
        None => {
            return only(alloc, Step::NoCluster);
        }
    }
}

/// Drops what memory ran out for. Rare, and kept out of the way of each command.
fn drop_live<C: Crdt, D: Disk + Drop>(live: &mut Option<Running<C, Fused<D>>>)
    ensures { live.new ≡ None }
{
    *live = None;
}

/// Whether one of these lines tells of a disk that failed for want of memory.
fn lacks_memory<C: Crdt, D: Disk + Drop>(
    live: &Option<Running<C, Fused<D>>>,
    steps: &[Step],
) -> bool
    ensures { result ≡ false → FedIn (fused_state D.state) live.now steps.now }
{
    match live {
        Some(cluster) => cluster.live.lacks_memory(steps),
        None => false,
    }
}

/// One line.
#[inline(always)]
pub(crate) fn only(alloc: Global, step: Step) -> Result<Vec<Step>, AllocError>
    ensures { IfOk result (λ steps. steps.items ≡ step ∷ []) }
{
    let mut steps = Vec::with_capacity(alloc, 1)?;
    steps.push_reserved(step);
    Ok(steps)
}

/// One line, in the memory of a list that was handed back.
#[inline(always)]
pub(crate) fn only_in(
    alloc: Global,
    spare: &mut Vec<Step>,
    step: Step,
) -> Result<Vec<Step>, AllocError>
    ensures { IfOk result (λ steps. steps.items ≡ step ∷ []) }
{
    let mut steps = emptied(alloc, spare);
    steps.reserve(1)?;
    steps.push_reserved(step);
    Ok(steps)
}

/// Makes `last` the line of an update. Over another it is written text by text: to move that one out to drop it is dear.
#[inline(always)]
fn put_updated(last: &mut Step, name: Text, object: ObjectId, stamp: Option<u64>)
    ensures { last.new ≡ Step.Updated name object stamp }
{
    match last {
        Step::Updated {
            name: last_name,
            object: last_object,
            stamp: last_stamp,
        } => {
            *last_name = name;
            *last_object = object;
            *last_stamp = stamp;
        }
        other => {
            *other = Step::Updated {
                name,
                object,
                stamp,
            };
        }
    }
}

/// One line, mostly of an update, over the one of a list that was handed back: most updates follow another.
#[inline(always)]
pub(crate) fn only_update_in(
    alloc: Global,
    spare: &mut Vec<Step>,
    step: Step,
) -> Result<Vec<Step>, AllocError>
    ensures { IfOk result (λ steps. steps.items ≡ step ∷ []) }
{
    if spare.len() != 1 {
        return only_in(alloc, spare, step);
    }
    let mut steps = replace(spare, Vec::new(alloc));
    match step {
        Step::Updated {
            name,
            object,
            stamp,
        } => put_updated(&mut steps[0], name, object, stamp),
        step => steps[0] = step,
    }
    Ok(steps)
}

/// The list that was handed back, with no lines. Another takes its place, with no memory.
#[inline(always)]
pub(crate) fn emptied(alloc: Global, spare: &mut Vec<Step>) -> Vec<Step>
    ensures { result.items ≡ [] }
{
    let mut steps = replace(spare, Vec::new(alloc));
    steps.clear();
    steps
}
