ghost use Rattle.std.specs.Prelude.{◌≡◌, ◌≤◌, ◌<◌, take, length};
ghost use Rattle.clocksi_commit.specs.Answers.{vote_of, decision_of, ends_finish};
ghost use Rattle.clocksi_commit.specs.Commit.{is_finishing};
ghost use Rattle.world_model.specs.commands.CommitSteps.{starting, given_up, next_step, is_done, after};

use site_vector::VTime;
use std::marker::Model;
use world_model::{Next, Step, What};

/// The most participants.
const MOST: usize = 16;

/// Which steps a commit makes now.
#[derive(Clone, Copy, Debug)]
enum Stage {
    Prepares,
    Finishes,
    Aborts,
}

/// A commit in progress. Contracts see the transaction's site and snapshot, and how far the commit has come.
#[derive(Debug, Drop)]
pub struct Commit {
    site: u8,
    s: VTime,
    stage: Stage,
    parts: [u8; MOST],
    count: usize,
    at: usize,
    time: u64,
}

impl Model for Commit {
    ghost use Rattle.std.specs.Prelude.{ℕ, ◌≡◌, ◌≤◌, take, drop, length};
    ghost use Rattle.clocksi_commit.specs.Commit.{Committing, going_of};

    ghost Value = { Committing };

    ghost view = { λ c. record { site = c.site; s = c.s; going = going_of c.stage (take c.at (take c.count c.parts)) (drop c.at (take c.count c.parts)) c.time } };

    ghost invariant = { λ c. (c.at ≤ c.count) × (c.count ≤ 16) × (length c.parts ≡ 16) × (1 ≤ c.site) × (c.site ≤ length c.s) };
}

/// What the answer to the request for a vote says.
#[derive(Clone, Copy, Debug)]
enum Vote {
    /// Prepared, at this time.
    Given(u64),
    /// The partition is down, or its disk failed.
    Refused,
    Waits,
}

/// What the answer of the lead says.
#[derive(Clone, Copy, Debug)]
enum Decision {
    Made,
    /// The lead doesn't know the transaction.
    Unknown,
    /// The lead's disk failed in the call.
    InDoubt,
    Waits,
}

fn vote_in(step: &Step) -> Vote
    ensures { result ≡ vote_of step.now }
{
    match step {
        Step::Prepared { time, .. } => Vote::Given(*time),
        Step::Down { .. } => Vote::Refused,
        Step::Disk { .. } => Vote::Refused,
        _ => Vote::Waits,
    }
}

fn decision_in(step: &Step) -> Decision
    ensures { result ≡ decision_of step.now }
{
    match step {
        Step::Decided { .. } => Decision::Made,
        Step::Gone { .. } => Decision::Unknown,
        Step::Unsure { .. } => Decision::InDoubt,
        _ => Decision::Waits,
    }
}

/// Whether the answer to a finish ends it.
fn is_finish(step: &Step) -> bool
    ensures { result ≡ ends_finish step.now }
{
    match step {
        Step::Finished { .. } => true,
        Step::Gone { .. } => true,
        _ => false,
    }
}

/// The numbers, and zeros behind them.
fn padded(parts: &[u8]) -> [u8; MOST]
    requires { length parts.now ≤ 16 }
    ensures { take (length parts.now) result ≡ parts.now }
{
    let mut kept = [0; MOST];
    for (i, part) in parts.iter().enumerate() {
        kept[i] = *part;
    }
    kept
}

impl Commit {
    /// The commit of a transaction of `site` with the snapshot `s`, at the partitions `parts` of that site, in
    /// ascending order, of which the first is the lead.
    pub fn new(parts: &[u8], s: VTime, site: u8) -> Commit
        requires most { length parts.now ≤ 16 }
        requires first_site { 1 ≤ site }
        requires last_site { site ≤ length s }
        ensures { result ≡ record { site = site; s = s; going = starting parts.now } }
    {
        Commit {
            site,
            s,
            stage: Stage::Prepares,
            parts: padded(parts),
            count: parts.len(),
            at: 0,
            time: 0,
        }
    }

    /// The next step.
    pub fn next(&self) -> What
        ensures { result ≡ next_step self.now.site self.now.s self.now.going }
    {
        if self.at < self.count {
            let part = self.parts[self.at];
            return match self.stage {
                Stage::Prepares => What::Prepare(part),
                Stage::Finishes => What::Finish(part, self.s.with(self.site, self.time)),
                Stage::Aborts => What::Abort(part),
            };
        }
        match self.stage {
            Stage::Prepares => {
                if self.count == 0 {
                    What::Done
                } else {
                    What::Decide(self.parts[0], self.s.with(self.site, self.time))
                }
            }
            Stage::Finishes => What::Done,
            Stage::Aborts => What::Done,
        }
    }

    /// Whether no step is left.
    pub fn is_done(&self) -> bool
        ensures { result ≡ is_done self.now.going }
    {
        if self.at < self.count {
            return false;
        }
        match self.stage {
            Stage::Prepares => self.count == 0,
            Stage::Finishes => true,
            Stage::Aborts => true,
        }
    }

    /// Whether the lead decided.
    pub fn is_decided(&self) -> bool
        ensures { result ≡ is_finishing self.now.going }
    {
        match self.stage {
            Stage::Finishes => true,
            _ => false,
        }
    }

    /// Goes on after the answer to the next step. `Stay` is that the command ends here, and that the same step is next.
    pub fn answer(&mut self, step: &Step) -> Next
        ensures commit { self.new ≡ record self.old { going = (after self.old.going step.now).0 } }
        ensures next { result ≡ (after self.old.going step.now).1 }
    {
        if self.at < self.count {
            match self.stage {
                Stage::Prepares => match vote_in(step) {
                    Vote::Given(time) => {
                        self.at += 1;
                        self.time = time.max(self.time);
                        return Next::Go;
                    }
                    Vote::Refused => {
                        self.count = self.at;
                        self.at = 0;
                        self.stage = Stage::Aborts;
                        return Next::Go;
                    }
                    Vote::Waits => {
                        return Next::Stay;
                    }
                },
                Stage::Finishes => {
                    if !is_finish(step) {
                        return Next::Stay;
                    }
                    self.at += 1;
                    return Next::Go;
                }
                Stage::Aborts => {
                    self.at += 1;
                    return Next::Go;
                }
            }
        }
        match self.stage {
            Stage::Prepares => {
                if self.count == 0 {
                    return Next::Go;
                }
                match decision_in(step) {
                    Decision::Made => {
                        self.stage = Stage::Finishes;
                        self.at = 1;
                        return Next::Go;
                    }
                    Decision::Unknown => {
                        self.stage = Stage::Aborts;
                        self.at = 1;
                        return Next::Go;
                    }
                    Decision::InDoubt => {
                        self.stage = Stage::Aborts;
                        self.count = 0;
                        self.at = 0;
                        return Next::Go;
                    }
                    Decision::Waits => {
                        return Next::Stay;
                    }
                }
            }
            Stage::Finishes => Next::Go,
            Stage::Aborts => Next::Go,
        }
    }

    /// Gives the commit up: what voted is to abort. A decided commit stays as it is.
    pub fn give_up(&mut self)
        ensures { self.new ≡ record self.old { going = given_up self.old.going } }
    {
        match self.stage {
            Stage::Prepares => {
                self.stage = Stage::Aborts;
                self.count = self.at;
                self.at = 0;
            }
            Stage::Finishes => {}
            Stage::Aborts => {}
        }
    }
}
