ghost use Rattle.std.specs.Prelude.{◌≡◌, ◌≤◌, ◌++◌, [], ◌∷◌, length, take, true, false, is_some, None, Err, IfSome, IfNone, IfOk, OnOk, OnErr};
ghost use Rattle.std.specs.List.{flat_map};
ghost use Rattle.disk_core.specs.Fuses.{fused_state};
ghost use Rattle.disk_core.specs.States.{Rose};
ghost use Rattle.cluster.specs.Built.{IsSaid, is_making};
ghost use Rattle.cluster.specs.Reached.{Applies, parts_in};
ghost use Rattle.site_partitions.specs.Reaches.{types_of};
ghost use Rattle.disk_makers.specs.Makers.{MakesAll};
ghost use Rattle.dc_engine.specs.Held.{HasOut, HasOutOf};
ghost use Rattle.dc_engine.specs.Makers.{FailsAt, IsUnchanged};
ghost use Rattle.dc_engine.specs.Player.{AnswersAsked, StaysSoundAsked, StaysSoundBy};
ghost use Rattle.dc_engine.specs.Reading.{asked_of, makes_cluster};

pub(crate) mod makers;
pub(crate) mod objects;
pub(crate) mod reading;

use crate::format::Writer;
use crate::ground::Ground;
use crate::player::makers::{Memory, give_back_cluster, make_all};
use crate::player::objects::Objects;
use crate::player::reading::reading;
use crate::responder::Responder;
use crate::script::cutter::Cutter;
use crate::unanswered::Unanswered;
use cluster::Cluster;
use crdt_core::Crdt;
use disk_core::{Disk, Fused};
use disk_makers::Disks;
use partition_core::RestartError;
use script_text::{ParseError, Parsed};
use site_partitions::MakeError;
use std::alloc::{AllocError, Global};
use std::marker::{Model, PhantomData};
use world_model::{Command, Step};

/// Answers the lines of a script: the cluster that its commands work on, whether a line wasn't in the grammar, and how
/// many lines were answered.
#[derive(Drop)]
pub(crate) struct Player<M: Disks, W: Writer, F: Cutter, G: Ground> {
    alloc: Global,
    cluster: Cluster<Objects, M::Disk>,
    met_bad: bool,
    count: u64,
    /// Where each line is read: to make such a place for each line, and to drop it, costs more than its look-ups.
    parsed: Parsed,
    writer: PhantomData<W>,
    cutter: PhantomData<F>,
    ground: PhantomData<G>,
}

impl<M: Disks, W: Writer, F: Cutter, G: Ground> Model for Player<M, W, F, G> {
    ghost use Rattle.dc_engine.specs.Player.{PlayerState};

    ghost Value = { PlayerState M.Disk };

    ghost view = { λ p. record { cluster = p.cluster; met_bad = p.met_bad; count = p.count } };
}

impl<M: Disks, W: Writer, F: Cutter, G: Ground> Player<M, W, F, G> {
    ghost use Rattle.dc_engine.specs.Makers.{ReturnsAll};
    ghost use Rattle.dc_engine.specs.Player.{ReachedBy};
    ghost use Rattle.dc_engine.specs.Replies.{AnswersLine};

    /// A player before any line. Takes no memory.
    pub(crate) fn new(alloc: Global) -> Player<M, W, F, G>
        ensures reached { ReachedBy M.Disk.state G.sound F.framing W.spelled result [] [] }
        ensures holds { HasOut M.Disk.state 0 result.cluster }
    {
        Player {
            alloc,
            cluster: Cluster::new(alloc),
            met_bad: false,
            count: 0,
            parsed: Parsed::Nothing,
            writer: PhantomData,
            cutter: PhantomData,
            ground: PhantomData,
        }
    }

    /// Gives the disks of the cluster that stands back to their maker.
    pub(crate) fn give_back(self, disks: &mut M, memory: Memory)
        requires { HasOut M.Disk.state (M.state disks.old).out self.cluster }
        ensures { ReturnsAll self.cluster (M.state disks.old) (M.state disks.new) }
    {
        give_back_cluster(disks, self.cluster, memory);
    }

    /// Answers a line, and on an error leaves at the end of `out` what was written of it.
    fn write_answer(
        &mut self,
        disks: &mut M,
        line: &[u8],
        out: &mut Vec<u8>,
    ) -> Result<(), Unanswered>
        requires held { HasOut M.Disk.state (M.state disks.old).out self.old.cluster }
        requires ground { G.sound → M.sound disks.old }
        ensures held { HasOut M.Disk.state (M.state disks.new).out self.new.cluster }
        ensures sound { M.sound disks.old → M.sound disks.new }
        ensures ok { OnOk result (AnswersLine (ReachedBy M.Disk.state G.sound F.framing W.spelled) self.old self.new line.now out.old.items out.new.items) }
        ensures err { OnErr result (take (length out.old.items) out.new.items ≡ out.old.items) }
        ensures making { result ≡ Err Unanswered.NoDisk → makes_cluster F.framing line.now ≡ true }
        ensures lacks { result ≡ Err Unanswered.NoDisk → self.old.cluster ≡ None }
        ensures later { (M.state disks.old).faults ≤ (M.state disks.new).faults }
        ensures cause { result ≡ Err Unanswered.NoDisk → Rose (M.state disks.old).faults (M.state disks.new).faults }
        ensures sure { MakesAll M.makes_all (result ≡ Err Unanswered.NoDisk) disks.old disks.new }
        ensures same { OnOk result (IsUnchanged (M.state disks.old) (M.state disks.new)) }
    {
        let alloc = self.alloc;
        // No script has as many lines as 64 bits count.
        let Some(number) = self.count.checked_add(1) else {
            return Err(Unanswered::NoMemory);
        };
        match answer_to::<M, F>(
            alloc,
            &mut self.cluster,
            &mut self.met_bad,
            &mut self.parsed,
            disks,
            line,
        ) {
            Ok(steps) => {
                write_replies::<W>(alloc, number, steps.as_slice(), out)?;
                self.cluster.hand_back(steps);
                self.count = number;
                Ok(())
            }
            Err(error) => Err(error),
        }
    }
}

impl<M: Disks, W: Writer, F: Cutter, G: Ground> Responder for Player<M, W, F, G> {
    ghost use Rattle.dc_engine.specs.Player.{ReachedBy};

    type Maker = M;

    type Cutter = F;

    ghost reached = { ReachedBy M.Disk.state G.sound F.framing W.spelled };

    ghost holds = { λ p maker. HasOut M.Disk.state (M.state maker).out p.cluster × (G.sound → M.sound maker) };

    ghost lacks = { λ p. p.cluster ≡ None };

    fn answer(&mut self, disks: &mut M, line: &[u8], out: &mut Vec<u8>) -> Result<(), Unanswered> {
        let end = out.len();
        match self.write_answer(disks, line, out) {
            Ok(()) => Ok(()),
            Err(error) => {
                take_back(out, end);
                Err(error)
            }
        }
    }

    fn has_met_bad(&self) -> bool {
        self.met_bad
    }
}

/// The steps that answer a line, by the cluster and by whether a line wasn't in the grammar. It is read into `parsed`.
fn answer_to<M: Disks, F: Cutter>(
    alloc: Global,
    cluster: &mut Cluster<Objects, M::Disk>,
    met_bad: &mut bool,
    parsed: &mut Parsed,
    disks: &mut M,
    line: &[u8],
) -> Result<Vec<Step>, Unanswered>
    requires held { HasOut M.Disk.state (M.state disks.old).out cluster.old }
    ensures held { HasOut M.Disk.state (M.state disks.new).out cluster.new }
    ensures ok { IfOk result (λ steps. AnswersAsked M.Disk.state cluster.old met_bad.old (asked_of F.framing line.now) steps.items cluster.new met_bad.new) }
    ensures sound { M.sound disks.old → M.sound disks.new }
    ensures stays { IfOk result (λ steps. M.sound disks.old → StaysSoundAsked M.Disk.state cluster.old (asked_of F.framing line.now) steps.items cluster.new) }
    ensures making { result ≡ Err Unanswered.NoDisk → makes_cluster F.framing line.now ≡ true }
    ensures lacks { result ≡ Err Unanswered.NoDisk → cluster.old ≡ None }
    ensures later { (M.state disks.old).faults ≤ (M.state disks.new).faults }
    ensures cause { result ≡ Err Unanswered.NoDisk → Rose (M.state disks.old).faults (M.state disks.new).faults }
    ensures sure { MakesAll M.makes_all (result ≡ Err Unanswered.NoDisk) disks.old disks.new }
    ensures same { OnOk result (IsUnchanged (M.state disks.old) (M.state disks.new)) }
{
    match reading::<F>(alloc, line, parsed) {
        Ok(()) => match &*parsed {
            Parsed::Command(command) => obey(alloc, cluster, disks, command),
            Parsed::Nothing => Ok(Vec::new(alloc)),
        },
        Err(ParseError::Bad) => {
            *met_bad = true;
            Ok(only(alloc, Step::Bad)?)
        }
        Err(ParseError::NoMemory) => Err(Unanswered::NoMemory),
    }
}

/// The lines that answer a command: one that makes a cluster, where none stands, makes its disks first.
fn obey<C: Crdt, M: Disks>(
    alloc: Global,
    cluster: &mut Cluster<C, M::Disk>,
    disks: &mut M,
    command: &Command,
) -> Result<Vec<Step>, Unanswered>
    requires said { IsSaid C.has C.too_deep command.now }
    requires held { HasOutOf (types_of C.laws C.spells (fused_state M.Disk.state)) (M.state disks.old).out cluster.old }
    ensures held { HasOutOf (types_of C.laws C.spells (fused_state M.Disk.state)) (M.state disks.new).out cluster.new }
    ensures ok { IfOk result (λ steps. Applies (types_of C.laws C.spells (fused_state M.Disk.state)) cluster.old command.now steps.items cluster.new) }
    ensures sound { M.sound disks.old → M.sound disks.new }
    ensures stays { IfOk result (λ steps. M.sound disks.old → StaysSoundBy (types_of C.laws C.spells (fused_state M.Disk.state)) (fused_state M.Disk.state) cluster.old command.now steps.items cluster.new) }
    ensures making { result ≡ Err Unanswered.NoDisk → is_making command.now ≡ true }
    ensures lacks { result ≡ Err Unanswered.NoDisk → cluster.old ≡ None }
    ensures later { (M.state disks.old).faults ≤ (M.state disks.new).faults }
    ensures cause { result ≡ Err Unanswered.NoDisk → Rose (M.state disks.old).faults (M.state disks.new).faults }
    ensures sure { MakesAll M.makes_all (result ≡ Err Unanswered.NoDisk) disks.old disks.new }
    ensures same { OnOk result (IsUnchanged (M.state disks.old) (M.state disks.new)) }
{
    let Some((sites, parts)) = size_to_make(cluster, command) else {
        return Ok(cluster.apply(command)?);
    };
    make_cluster(alloc, cluster, disks, sites, parts)
}

/// The numbers of sites and of partitions of each, where the command makes a cluster and none stands.
fn size_to_make<C: Crdt, D: Disk + Drop>(
    cluster: &Cluster<C, D>,
    command: &Command,
) -> Option<(u8, u8)>
    ensures some { IfSome result (λ size. command.now ≡ Command.Cluster size.0 size.1) }
    ensures lacks { IfSome result (λ size. cluster.now ≡ None) }
    ensures none { IfNone result (is_making command.now ≡ true → is_some (parts_in cluster.now) ≡ true) }
{
    if cluster.parts().is_some() {
        return None;
    }
    size_asked(command)
}

/// The numbers of sites and of partitions of each, where the command makes a cluster.
fn size_asked(command: &Command) -> Option<(u8, u8)>
    ensures some { IfSome result (λ size. command.now ≡ Command.Cluster size.0 size.1) }
    ensures none { IfNone result (is_making command.now ≡ false) }
{
    match command {
        Command::Cluster { sites, parts } => Some((*sites, *parts)),
        _ => None,
    }
}

/// Makes the disks of a cluster, and the cluster over them. Not inlined: its values would lie in each line's frame.
#[inline(never)]
fn make_cluster<C: Crdt, M: Disks>(
    alloc: Global,
    cluster: &mut Cluster<C, M::Disk>,
    disks: &mut M,
    sites: u8,
    parts: u8,
) -> Result<Vec<Step>, Unanswered>
    requires lacks { cluster.old ≡ None }
    requires least_site { 1 ≤ sites }
    requires most_sites { sites ≤ 8 }
    requires least_part { 1 ≤ parts }
    requires most_parts { parts ≤ 16 }
    ensures held { HasOutOf (types_of C.laws C.spells (fused_state M.Disk.state)) (M.state disks.new).out cluster.new }
    ensures ok { IfOk result (λ steps. Applies (types_of C.laws C.spells (fused_state M.Disk.state)) None (Command.Cluster sites parts) steps.items cluster.new) }
    ensures sound { M.sound disks.old → M.sound disks.new }
    ensures stays { IfOk result (λ steps. M.sound disks.old → StaysSoundBy (types_of C.laws C.spells (fused_state M.Disk.state)) (fused_state M.Disk.state) None (Command.Cluster sites parts) steps.items cluster.new) }
    ensures later { (M.state disks.old).faults ≤ (M.state disks.new).faults }
    ensures cause { result ≡ Err Unanswered.NoDisk → Rose (M.state disks.old).faults (M.state disks.new).faults }
    ensures sure { MakesAll M.makes_all (result ≡ Err Unanswered.NoDisk) disks.old disks.new }
    ensures same { OnOk result (IsUnchanged (M.state disks.old) (M.state disks.new)) }
{
    let made = make_all(alloc, disks, sites, parts)?;
    match cluster.start(sites, parts, made) {
        Ok(steps) => Ok(steps),
        Err(error) => Ok(unmade(alloc, error)?),
    }
}

/// The line that tells why a cluster doesn't come up, whose disks are lost: the disk of a partition failed.
///
/// # Errors
///
/// `AllocError` where memory ran out, also that of a disk which grows in memory.
fn unmade<D: Disk + Drop>(
    alloc: Global,
    error: MakeError<Fused<D>>,
) -> Result<Vec<Step>, AllocError>
    ensures { IfOk result (λ steps. FailsAt (fused_state D.state) error steps.items) }
{
    match error {
        MakeError::Partition {
            part,
            disk,
            error: RestartError::Disk,
        } => {
            if disk.starved() {
                return Err(AllocError);
            }
            only(alloc, Step::Disk { part })
        }
        // A disk that holds a log without a record is neither damaged nor another partition's.
        _ => Err(AllocError),
    }
}

/// Writes these steps as the replies to the script's line of this number; on an error what was written of them stands
/// behind what was there.
fn write_replies<W: Writer>(
    alloc: Global,
    number: u64,
    steps: &[Step],
    out: &mut Vec<u8>,
) -> Result<(), AllocError>
    ensures ok { OnOk result (out.new.items ≡ out.old.items ++ flat_map (W.spelled number) steps.now) }
    ensures err { OnErr result (take (length out.old.items) out.new.items ≡ out.old.items) }
{
    for step in steps {
        W::write(alloc, number, step, out)?;
    }
    Ok(())
}

/// Takes back what was written of a line that isn't answered.
fn take_back(out: &mut Vec<u8>, end: usize)
    ensures { out.new.items ≡ take end out.old.items }
{
    out.truncate(end);
}

/// One line.
fn only(alloc: Global, step: Step) -> Result<Vec<Step>, AllocError>
    ensures { IfOk result (λ steps. steps.items ≡ step ∷ []) }
{
    let mut steps = Vec::new(alloc);
    steps.push(step)?;
    Ok(steps)
}
