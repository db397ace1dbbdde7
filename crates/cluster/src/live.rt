ghost use Rattle.std.specs.Prelude.{◌≡◌, ◌≤◌, ℕ, [], false, IfOk};
ghost use Rattle.world_model.specs.rules.Event.{AskMessage, AskTake, AskReport, AskHear, Sent, Took, Reported, Heard};
ghost use Rattle.world_model.specs.lines.Places.{IsOther};
ghost use Rattle.world_model.specs.lines.Places.{IsPlace};
ghost use Rattle.site_partitions.specs.Answers.{Any, Calls};
ghost use Rattle.site_partitions.specs.Held.{holds_site, holds_part};
ghost use Rattle.site_partitions.specs.Reaches.{types_of, MayAsk};
ghost use Rattle.crdt_core.specs.Log.{end_of_time};
ghost use Rattle.cluster.specs.Built.{IsSaid, is_of_fates, is_of_faults, is_of_post};
ghost use Rattle.cluster.specs.Live.{phase_in, is_open_phase, is_idle_phase};
ghost use Rattle.cluster.specs.Reached.{AppliesLive, IsReachedLive};

use crate::by_name::ByName;
use crate::cluster::only;
use crate::local::Local;
use crate::store::{NO_TX, failed};
use crdt_core::{Crdt, Message};
use disk_core::Disk;
use field_codec::Text;
use partition_core::{DurableError, DurablePartition};
use site_partitions::Sites;
use site_vector::{PartId, VTime};
use std::alloc::{AllocError, Global};
use std::marker::Model;
use txn_session::{Phase, Session};
use world_model::{Command, Step};

/// Sessions by their names.
pub(crate) type Sessions<C> = ByName<Session<C>>;

/// A cluster that was made, and its sessions by their names.
#[derive(Drop)]
pub(crate) struct Live<C: Crdt, D: Disk + Drop> {
    pub(crate) alloc: Global,
    pub(crate) sites: Local<C, D>,
    pub(crate) sessions: Sessions<C>,
    /// A list that was handed back, whose memory the next answer takes. What stands in it doesn't matter.
    pub(crate) spare: Vec<Step>,
}

impl<C: Crdt, D: Disk + Drop> Model for Live<C, D> {
    ghost use Rattle.cluster.specs.Live.{LiveState};

    ghost Value = { LiveState C.Effect D };

    ghost view = { λ s. record { sites = s.sites; sessions = s.sessions.entries } };
}

impl<C: Crdt, D: Disk + Drop> Live<C, D> {
    /// A cluster over its partitions, without sessions. Takes no memory.
    pub(crate) fn new(alloc: Global, sites: Sites<C, D>) -> Live<C, D>
        ensures { result ≡ record { sites = sites; sessions = [] } }
    {
        Live {
            alloc,
            sites: Local { alloc, all: sites },
            sessions: ByName::new(alloc),
            spare: Vec::new(alloc),
        }
    }

    /// The partitions, site by site, each with its disk.
    pub(crate) fn into_partitions(self) -> Vec<DurablePartition<C, D>>
        ensures { result.items ≡ self.sites.partitions }
    {
        self.sites.all.into_partitions()
    }

    /// The clock of a partition reads a time.
    pub(crate) fn read_clock(&mut self, part: PartId, n: u64) -> Result<Vec<Step>, AllocError>
        requires { n ≤ end_of_time }
        ensures { IfOk result (λ steps. AppliesLive (types_of C.laws C.spells D.state) self.old (Command.Clock part n) steps.items self.new) }
    {
        if !self.has_part(part) {
            return only(self.alloc, Step::NoPart);
        }
        match self.sites.all.tick_at(part, n) {
            Ok(now) => {
                return only(self.alloc, Step::Ticked { part, now });
            }
            Err(error) => {
                let line = failed(part, NO_TX, 0, error)?;
                return only(self.alloc, line);
            }
        }
    }

    /// The lines that answer a command of sessions, or of clocks.
    ///
    /// # Errors
    ///
    /// `AllocError` where memory runs out. It may only be dropped then.
    pub(crate) fn apply(&mut self, command: &Command) -> Result<Vec<Step>, AllocError>
        requires no_post { is_of_post command.now ≡ false }
        requires no_fates { is_of_fates command.now ≡ false }
        requires no_faults { is_of_faults command.now ≡ false }
        requires said { IsSaid C.has C.too_deep command.now }
        requires reached { IsReachedLive (types_of C.laws C.spells D.state) self.old }
        ensures { IfOk result (λ steps. AppliesLive (types_of C.laws C.spells D.state) self.old command.now steps.items self.new) }
    {
        match command {
            Command::Cluster { .. } => {
                return only(self.alloc, Step::HasCluster);
            }
            Command::Clock { part, n } => {
                return self.read_clock(*part, *n);
            }
            Command::Session { name, site } => {
                return self.make_session(name, *site);
            }
            Command::Lose { name } => {
                return self.lose(name);
            }
            Command::Move { name, site } => {
                return self.move_session(name, *site);
            }
            Command::Begin { name, part, mode } => {
                return self.begin(name, *part, *mode);
            }
            Command::Read { name, object } => {
                return self.read(name, object);
            }
            Command::Update { name, object, op } => {
                return self.update(name, object, op);
            }
            Command::Commit { name, steps } => {
                return self.commit(name, *steps);
            }
            Command::Abort { name } => {
                return self.abort(name);
            }
            _ => {
                return only(self.alloc, Step::Unbuilt);
            }
        }
    }

    pub(crate) fn has_site(&self, site: u8) -> bool
        ensures { result ≡ holds_site self.now.sites site }
    {
        self.sites.all.has_site(site)
    }

    pub(crate) fn has_part(&self, part: PartId) -> bool
        ensures { result ≡ holds_part self.now.sites part }
    {
        self.sites.all.has_part(part)
    }

    /// A partition makes a message for another site.
    pub(crate) fn release(
        &mut self,
        at: PartId,
        to: u8,
        from: Option<u64>,
    ) -> Result<Message<C::Effect>, DurableError>
        requires place { IsOther self.old.sites.sites at.site to }
        requires may { MayAsk (types_of C.laws C.spells D.state) self.old.sites at (AskMessage to from) }
        ensures same { self.new.sessions ≡ self.old.sessions }
        ensures sent { Calls (types_of C.laws C.spells D.state) self.old.sites self.new.sites Any at (AskMessage to from) (λ m e. (m.to ≡ to) × (e ≡ Sent from m)) result }
    {
        self.sites.all.release_at(at, to, from)
    }

    /// A partition takes a message that was sent.
    pub(crate) fn take(
        &mut self,
        at: PartId,
        message: &Message<C::Effect>,
    ) -> Result<(), DurableError>
        requires { (number : ℕ) × MayAsk (types_of C.laws C.spells D.state) self.old.sites at (AskTake number message.now) }
        ensures same { self.new.sessions ≡ self.old.sessions }
        ensures took { (number : ℕ) → Calls (types_of C.laws C.spells D.state) self.old.sites self.new.sites Any at (AskTake number message.now) (λ n e. e ≡ Took number message.now) result }
    {
        self.sites.all.take_at(at, message)
    }

    /// A partition's bounds.
    pub(crate) fn report(&self, at: PartId) -> Result<VTime, DurableError>
        requires { IsPlace self.now.sites.sites self.now.sites.parts at }
        ensures { Calls (types_of C.laws C.spells D.state) self.now.sites self.now.sites Any at AskReport (λ b e. e ≡ Reported b) result }
    {
        self.sites.all.report_at(at)
    }

    /// A partition hears a report of its site.
    pub(crate) fn hear(
        &mut self,
        at: PartId,
        part: u8,
        bounds: &VTime,
    ) -> Result<VTime, DurableError>
        requires { (number : ℕ) × MayAsk (types_of C.laws C.spells D.state) self.old.sites at (AskHear number part bounds.now) }
        ensures same { self.new.sessions ≡ self.old.sessions }
        ensures heard { (number : ℕ) → Calls (types_of C.laws C.spells D.state) self.old.sites self.new.sites Any at (AskHear number part bounds.now) (λ stable e. e ≡ Heard number part bounds.now stable) result }
    {
        self.sites.all.hear_at(at, part, bounds)
    }

    /// What the session of this name is about, if it is there.
    pub(crate) fn phase(&self, name: &Text) -> Option<Phase>
        ensures { result ≡ phase_in self.now.sessions name.now }
    {
        match self.sessions.get(name) {
            Some(session) => Some(session.phase()),
            None => None,
        }
    }
}

/// Whether a transaction has begun, and its end hasn't.
pub(crate) fn is_open(phase: Phase) -> bool
    ensures { result ≡ is_open_phase phase }
{
    matches!(phase, Phase::Open)
}

/// Whether a transaction may begin.
pub(crate) fn is_idle(phase: Phase) -> bool
    ensures { result ≡ is_idle_phase phase }
{
    matches!(phase, Phase::Idle)
}
