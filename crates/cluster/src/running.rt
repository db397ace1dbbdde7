ghost use Rattle.std.specs.Prelude.{◌≡◌, [], true, IfOk};
ghost use Rattle.site_partitions.specs.Reaches.{types_of};
ghost use Rattle.cluster.specs.Built.{IsSaid, is_of_fates, is_of_faults, is_of_post};
ghost use Rattle.cluster.specs.Post.{new_post};
ghost use Rattle.cluster.specs.Reached.{Applies, IsReached, SetsFuseIn};
ghost use Rattle.std.specs.Prelude.{Some};

use crate::live::Live;
use crate::post::Note;
use crdt_core::{Crdt, Message};
use disk_core::{Disk, Fused};
use indexmap::IndexMap;
use partition_core::DurablePartition;
use site_partitions::Sites;
use std::alloc::{AllocError, Global};
use std::marker::Model;
use world_model::{Command, Step};

/// A cluster that was made, its sessions, and the messages and reports that are kept, by their numbers.
#[derive(Drop)]
pub(crate) struct Running<C: Crdt, D: Disk + Drop> {
    pub(crate) alloc: Global,
    pub(crate) live: Live<C, D>,
    pub(crate) letters: IndexMap<u64, Message<C::Effect>>,
    pub(crate) next_letter: u64,
    pub(crate) notes: IndexMap<u64, Note>,
    pub(crate) next_note: u64,
}

impl<C: Crdt, D: Disk + Drop> Model for Running<C, D> {
    ghost use Rattle.cluster.specs.Post.{WholeState};

    ghost Value = { WholeState C.Effect D };

    ghost view = { λ s. record { live = s.live; post = record { letters = s.letters.entries; next_letter = s.next_letter; notes = s.notes.entries; next_note = s.next_note } } };
}

impl<C: Crdt, D: Disk + Drop> Running<C, D> {
    /// A cluster over its partitions, without sessions, that keeps nothing. Takes no memory.
    pub(crate) fn new(alloc: Global, sites: Sites<C, D>) -> Running<C, D>
        ensures { result ≡ record { live = record { sites = sites; sessions = [] }; post = new_post } }
    {
        Running {
            alloc,
            live: Live::new(alloc, sites),
            letters: IndexMap::new(alloc),
            next_letter: 1,
            notes: IndexMap::new(alloc),
            next_note: 1,
        }
    }

    /// The partitions, site by site, each with its disk.
    pub(crate) fn into_partitions(self) -> Vec<DurablePartition<C, D>>
        ensures { result.items ≡ self.live.sites.partitions }
    {
        self.live.into_partitions()
    }
}

impl<C: Crdt, D: Disk + Drop> Running<C, Fused<D>> {
    ghost use Rattle.disk_core.specs.Fuses.{fused_state};

    /// The lines that answer a command.
    ///
    /// # Errors
    ///
    /// `AllocError` where memory runs out. It may only be dropped then.
    #[inline(always)]
    pub(crate) fn apply(&mut self, command: &Command) -> Result<Vec<Step>, AllocError>
        requires said { IsSaid C.has C.too_deep command.now }
        requires reached { IsReached (types_of C.laws C.spells (fused_state D.state)) (Some self.old) }
        ensures applies { IfOk result (λ steps. Applies (types_of C.laws C.spells (fused_state D.state)) (Some self.old) command.now steps.items (Some self.new)) }
        ensures fuse { IfOk result (λ steps. SetsFuseIn (fused_state D.state) command.now (Some self.old) (Some self.new)) }
    {
        if is_of_post(command) {
            return self.handle(command);
        }
        if is_of_fates(command) {
            return self.live.end(command);
        }
        if is_of_faults(command) {
            return self.live.strike(command);
        }
        self.live.apply(command)
    }
}

/// Whether a command is of messages or reports.
fn is_of_post(command: &Command) -> bool
    ensures { result ≡ is_of_post command.now }
{
    match command {
        Command::Send { .. }
        | Command::Deliver { .. }
        | Command::DropMessage { .. }
        | Command::Report { .. }
        | Command::Hear { .. }
        | Command::DropReport { .. } => true,
        _ => false,
    }
}

/// Whether partitions end by a command what no session ends.
fn is_of_fates(command: &Command) -> bool
    ensures { result ≡ is_of_fates command.now }
{
    matches!(command, Command::Expire { .. } | Command::Settle { .. })
}

/// Whether a command is of crashes, restarts and fuses.
fn is_of_faults(command: &Command) -> bool
    ensures { result ≡ is_of_faults command.now }
{
    matches!(
        command,
        Command::Crash { .. } | Command::Fuse { .. } | Command::Restart { .. }
    )
}
