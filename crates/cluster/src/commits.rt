ghost use Rattle.std.specs.Prelude.{◌≡◌, ◌≢◌, ◌<◌, ℕ, List, true, Option, Some, IfOk, vec_len, vec_capacity};
ghost use Rattle.site_partitions.specs.Reaches.{types_of};
ghost use Rattle.world_model.specs.commands.ScriptAnswers.{fewer};
ghost use Rattle.txn_session.specs.Calls.{Call};
ghost use Rattle.txn_session.specs.Holds.{Holds, Mays};
ghost use Rattle.cluster.specs.Acts.{Acts};
ghost use Rattle.cluster.specs.Built.{IsSaid};
ghost use Rattle.cluster.specs.Ends.{AddsLine, MayMake, TakesStep, can_end, command_of, goes_on, is_undecided_phase, stops};
ghost use Rattle.cluster.specs.Same.{SameCluster};
ghost use Rattle.cluster.specs.Live.{session_in};
ghost use Rattle.cluster.specs.Reached.{AppliesLive, IsReachedLive};
ghost use Rattle.cluster.specs.Sees.{Sees};

use crate::cluster::{emptied, only};
use crate::live::{Live, Sessions, is_idle};
use crate::local::Local;
use crdt_core::Crdt;
use disk_core::Disk;
use field_codec::Text;
use std::alloc::{AllocError, Global};
use txn_session::{Phase, Session};
use world_model::{Command, Next, Step};

/// How a session's transaction comes to its end.
#[derive(Clone, Copy, Debug)]
enum Way {
    Commits,
    GivesUp,
}

impl<C: Crdt, D: Disk + Drop> Live<C, D> {
    /// Commits a session's transaction, or makes so many steps of its commit.
    pub(crate) fn commit(
        &mut self,
        name: &Text,
        steps: Option<u64>,
    ) -> Result<Vec<Step>, AllocError>
        requires said { IsSaid C.has C.too_deep (Command.Commit name.now steps) }
        requires reached { IsReachedLive (types_of C.laws C.spells D.state) self.old }
        ensures { IfOk result (λ lines. AppliesLive (types_of C.laws C.spells D.state) self.old (Command.Commit name.now steps) lines.items self.new) }
    {
        let Some(phase) = self.phase(name) else {
            return only(self.alloc, Step::NoSession);
        };
        if is_idle(phase) {
            return only(self.alloc, Step::NoTxn);
        }
        match end_all(
            self.alloc,
            &mut self.spare,
            &mut self.sites,
            &mut self.sessions,
            name,
            Way::Commits,
            steps,
        ) {
            Ok(lines) => {
                return Ok(lines);
            }
            Err(error) => {
                return Err(error);
            }
        }
    }

    /// Gives a session's transaction up.
    pub(crate) fn abort(&mut self, name: &Text) -> Result<Vec<Step>, AllocError>
        requires reached { IsReachedLive (types_of C.laws C.spells D.state) self.old }
        ensures { IfOk result (λ lines. AppliesLive (types_of C.laws C.spells D.state) self.old (Command.Abort name.now) lines.items self.new) }
    {
        let Some(phase) = self.phase(name) else {
            return only(self.alloc, Step::NoSession);
        };
        if !is_undecided(phase) {
            return only(self.alloc, Step::NoTxn);
        }
        match end_all(
            self.alloc,
            &mut self.spare,
            &mut self.sites,
            &mut self.sessions,
            name,
            Way::GivesUp,
            None,
        ) {
            Ok(lines) => {
                return Ok(lines);
            }
            Err(error) => {
                return Err(error);
            }
        }
    }
}

/// Makes the steps of the end of a session's transaction, at most so many.
fn end_all<C: Crdt, D: Disk + Drop>(
    alloc: Global,
    spare: &mut Vec<Step>,
    sites: &mut Local<C, D>,
    sessions: &mut Sessions<C>,
    name: &Text,
    way: Way,
    steps: Option<u64>,
) -> Result<Vec<Step>, AllocError>
    requires some { MayMake way steps }
    requires can { can_end way (session_in sessions.old.entries name.now) ≡ true }
    requires reached { IsReachedLive (types_of C.laws C.spells D.state) (record { sites = sites.old; sessions = sessions.old.entries }) }
    ensures { IfOk result (λ lines. AppliesLive (types_of C.laws C.spells D.state) (record { sites = sites.old; sessions = sessions.old.entries }) (command_of way name.now steps) lines.items (record { sites = sites.new; sessions = sessions.new.entries })) }
{
    let mut lines = emptied(alloc, spare);
    let mut left = steps;
    'steps: loop {
        let goes = end_once(sites, sessions, name, way, &mut lines)?;
        if !goes {
            return Ok(lines);
        }
        left = fewer(left);
        if stops(left, sessions, name) {
            return Ok(lines);
        }
    }
}

/// Makes the next step of the end of a session's transaction, and adds its line. Answers whether more follow.
fn end_once<C: Crdt, D: Disk + Drop>(
    sites: &mut Local<C, D>,
    sessions: &mut Sessions<C>,
    name: &Text,
    way: Way,
    lines: &mut Vec<Step>,
) -> Result<bool, AllocError>
    requires can { can_end way (session_in sessions.old.entries name.now) ≡ true }
    requires reached { IsReachedLive (types_of C.laws C.spells D.state) (record { sites = sites.old; sessions = sessions.old.entries }) }
    ensures { IfOk result (λ goes. AddsLine lines.old.items lines.new.items (λ line. Acts (types_of C.laws C.spells D.state) sites.old sessions.old.entries name.now sites.new sessions.new.entries (TakesStep (types_of C.laws C.spells D.state) sites.old sites.new way line goes))) }
{
    lines.reserve(1)?;
    match sessions.get_mut(name) {
        Some(session) => {
            return step_on(session, sites, way, lines);
        }
        None => {
            return Err(AllocError);
        }
    }
}

/// Makes the next step of the end of the session's transaction, and adds its line, which is long: so it is moved once.
fn step_on<C: Crdt, D: Disk + Drop>(
    session: &mut Session<C>,
    sites: &mut Local<C, D>,
    way: Way,
    lines: &mut Vec<Step>,
) -> Result<bool, AllocError>
    requires room { vec_len lines.old < vec_capacity lines.old }
    requires sites { sites.old.sites ≡ session.old.sites }
    requires parts { sites.old.parts ≡ session.old.parts }
    requires holds { Mays (λ h (p : Unit {0}) l. Sees (types_of C.laws C.spells D.state) h l) (λ (p : Unit {0}) n. true) sites.old tt session.old }
    ensures stays { SameCluster D.state sites.old sites.new }
    ensures made { IfOk result (λ goes. AddsLine lines.old.items lines.new.items (λ line. (calls : List (Call C.Effect)) → Sees (types_of C.laws C.spells D.state) sites.old calls → Holds session.old calls → TakesStep (types_of C.laws C.spells D.state) sites.old sites.new way line goes session.old session.new calls)) }
{
    match way {
        Way::Commits => {
            match session.commit_step(sites, ()) {
                (_, Ok((step, next))) => {
                    let goes = goes_on(session.phase(), next);
                    lines.push_reserved(step);
                    return Ok(goes);
                }
                (_, Err(_)) => {
                    return Err(AllocError);
                }
            }
        }
        Way::GivesUp => {
            match session.abort_step(sites, ()) {
                (_, Ok(step)) => {
                    let goes = goes_on(session.phase(), Next::Go);
                    lines.push_reserved(step);
                    return Ok(goes);
                }
                (_, Err(_)) => {
                    return Err(AllocError);
                }
            }
        }
    }
}

/// Whether more steps follow, where the session stands so after one.
fn goes_on(phase: Phase, next: Next) -> bool
    ensures { result ≡ goes_on phase next }
{
    match phase {
        Phase::Idle => false,
        _ => matches!(next, Next::Go),
    }
}

/// How many steps may be made after one.
fn fewer(steps: Option<u64>) -> Option<u64>
    ensures { result ≡ fewer steps }
{
    match steps {
        Some(count) => Some(count.saturating_sub(1)),
        None => None,
    }
}

/// Whether no more steps may be made, and one is left.
fn stops<C: Crdt>(steps: Option<u64>, sessions: &Sessions<C>, name: &Text) -> bool
    ensures { result ≡ stops steps (session_in sessions.now.entries name.now) }
{
    let Some(count) = steps else {
        return false;
    };
    if count > 0 {
        return false;
    }
    match sessions.get(name) {
        Some(session) => session.has_step(),
        None => false,
    }
}

/// Whether there is a transaction that isn't decided.
fn is_undecided(phase: Phase) -> bool
    ensures { result ≡ is_undecided_phase phase }
{
    matches!(phase, Phase::Open | Phase::Committing)
}
