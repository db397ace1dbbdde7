ghost use Rattle.std.specs.Prelude.{◌≡◌, ◌≤◌, true, Some, IfOk};
ghost use Rattle.site_partitions.specs.Reaches.{types_of};
ghost use Rattle.cluster.specs.Acts.{Moves};
ghost use Rattle.txn_session.specs.Session.{SessionState};
ghost use Rattle.cluster.specs.Same.{holds_place};
ghost use Rattle.cluster.specs.Live.{phase_in, are_idle, session_in, may_begin_at, number_of};
ghost use Rattle.cluster.specs.Reached.{AppliesLive, IsReachedLive};

use crate::cluster::{only, only_in};
use crate::live::{Live, Sessions, is_idle};
use crate::local::Local;
use crdt_core::Crdt;
use disk_core::Disk;
use field_codec::Text;
use site_vector::PartId;
use std::alloc::{AllocError, Global};
use txn_session::Session;
use world_model::{Command, Mode, Step};

/// The most sessions at one time.
const MOST_SESSIONS: usize = 64;

impl<C: Crdt, D: Disk + Drop> Live<C, D> {
    /// Makes a session at a site.
    pub(crate) fn make_session(&mut self, name: &Text, site: u8) -> Result<Vec<Step>, AllocError>
        ensures { IfOk result (λ steps. AppliesLive (types_of C.laws C.spells D.state) self.old (Command.Session name.now site) steps.items self.new) }
    {
        if !self.has_site(site) {
            return only(self.alloc, Step::NoPart);
        }
        if self.sessions.contains_key(name) {
            return only(self.alloc, Step::HasSession);
        }
        if self.sessions.len() == MOST_SESSIONS {
            return only(self.alloc, Step::LimitSessions);
        }
        let key = name.copy(self.alloc)?;
        let named = name.copy(self.alloc)?;
        let (sites, parts) = (self.sites.all.sites(), self.sites.all.parts());
        let session = Session::new(self.alloc, named, site, sites, parts);
        self.sessions.insert(key, session)?;
        let step = Step::MadeSession {
            name: name.copy(self.alloc)?,
            site,
        };
        only(self.alloc, step)
    }

    /// Removes a session.
    pub(crate) fn lose(&mut self, name: &Text) -> Result<Vec<Step>, AllocError>
        ensures { IfOk result (λ steps. AppliesLive (types_of C.laws C.spells D.state) self.old (Command.Lose name.now) steps.items self.new) }
    {
        if !self.sessions.contains_key(name) {
            return only(self.alloc, Step::NoSession);
        }
        let lost = name.copy(self.alloc)?;
        self.sessions.remove(name);
        only(self.alloc, Step::Lost { name: lost })
    }

    /// A session goes on at another site.
    pub(crate) fn move_session(&mut self, name: &Text, site: u8) -> Result<Vec<Step>, AllocError>
        requires { IsReachedLive (types_of C.laws C.spells D.state) self.old }
        ensures { IfOk result (λ steps. AppliesLive (types_of C.laws C.spells D.state) self.old (Command.Move name.now site) steps.items self.new) }
    {
        if !self.has_site(site) {
            return only(self.alloc, Step::NoPart);
        }
        let Some(phase) = self.phase(name) else {
            return only(self.alloc, Step::NoSession);
        };
        if !is_idle(phase) {
            return only(self.alloc, Step::HasTxn);
        }
        match move_in(&mut self.sessions, name, site) {
            Ok(step) => {
                return only(self.alloc, step);
            }
            Err(error) => {
                return Err(error);
            }
        }
    }

    /// Begins a transaction of a session in this mode, at the partition that is named or the first of its site.
    pub(crate) fn begin(
        &mut self,
        name: &Text,
        part: Option<PartId>,
        mode: Mode,
    ) -> Result<Vec<Step>, AllocError>
        requires reached { IsReachedLive (types_of C.laws C.spells D.state) self.old }
        ensures { IfOk result (λ steps. AppliesLive (types_of C.laws C.spells D.state) self.old (Command.Begin name.now part mode) steps.items self.new) }
    {
        if !self.has_place(part) {
            return only(self.alloc, Step::NoPart);
        }
        match begin_in(
            self.alloc,
            &mut self.spare,
            &mut self.sites,
            &mut self.sessions,
            name,
            part,
            mode,
        ) {
            Ok(lines) => {
                return Ok(lines);
            }
            Err(error) => {
                return Err(error);
            }
        }
    }

    /// Whether the cluster has the partition, if one is named.
    fn has_place(&self, part: Option<PartId>) -> bool
        ensures is { result ≡ holds_place self.now.sites part }
        ensures some { 1 ≤ self.now.sites.parts }
    {
        let parts = self.sites.all.parts();
        match part {
            Some(part) => self.has_part(part),
            None => 1 <= parts,
        }
    }
}

/// The number of the partition that is named, or of the first.
fn number_of(part: Option<PartId>) -> u8
    ensures { result ≡ number_of part }
{
    match part {
        Some(part) => part.part,
        None => 1,
    }
}

/// Whether the partition, if one is named, is of the session's site.
fn is_of_own_site<C: Crdt>(session: &Session<C>, part: Option<PartId>) -> bool
    ensures { result ≡ may_begin_at (Some session.now) part }
{
    match part {
        Some(part) => session.site() == part.site,
        None => true,
    }
}

/// Begins a transaction of the session of this name, which is looked up once, at a partition that the cluster has.
fn begin_in<C: Crdt, D: Disk + Drop>(
    alloc: Global,
    spare: &mut Vec<Step>,
    sites: &mut Local<C, D>,
    sessions: &mut Sessions<C>,
    name: &Text,
    part: Option<PartId>,
    mode: Mode,
) -> Result<Vec<Step>, AllocError>
    requires place { holds_place sites.old part ≡ true }
    requires some { 1 ≤ sites.old.parts }
    requires reached { IsReachedLive (types_of C.laws C.spells D.state) (record { sites = sites.old; sessions = sessions.old.entries }) }
    ensures { IfOk result (λ steps. AppliesLive (types_of C.laws C.spells D.state) (record { sites = sites.old; sessions = sessions.old.entries }) (Command.Begin name.now part mode) steps.items (record { sites = sites.new; sessions = sessions.new.entries })) }
{
    match sessions.get_mut(name) {
        Some(session) => {
            if !is_of_own_site(session, part) {
                return only_in(alloc, spare, Step::NoPart);
            }
            if !is_idle(session.phase()) {
                return only_in(alloc, spare, Step::HasTxn);
            }
            let (_, answer) = session.open(sites, (), number_of(part), mode);
            match answer {
                Ok(step) => {
                    return only_in(alloc, spare, step);
                }
                Err(_) => {
                    return Err(AllocError);
                }
            }
        }
        None => {
            return only_in(alloc, spare, Step::NoSession);
        }
    }
}

/// Moves a session that is idle.
fn move_in<C: Crdt>(sessions: &mut Sessions<C>, name: &Text, site: u8) -> Result<Step, AllocError>
    requires idle { are_idle (phase_in sessions.old.entries name.now) ≡ true }
    requires place { (s : SessionState C.Effect) → session_in sessions.old.entries name.now ≡ Some s → (1 ≤ site) × (site ≤ s.sites) }
    ensures { IfOk result (λ step. Moves sessions.old.entries name.now site step sessions.new.entries) }
{
    match sessions.get_mut(name) {
        Some(session) => match session.move_to(site) {
            Ok(step) => {
                return Ok(step);
            }
            Err(_) => {
                return Err(AllocError);
            }
        },
        None => {
            return Err(AllocError);
        }
    }
}
