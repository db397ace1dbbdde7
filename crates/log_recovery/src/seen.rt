ghost use Rattle.std.specs.Prelude.{◌≡◌, ◌≤◌, ◌&&◌, true, leb, ltb, cond, is_some, length, Some, IfOk, OnOk};
ghost use Rattle.site_vector.specs.declared.ids.TxId.{TxId};
ghost use Rattle.site_vector.specs.Vector.{entry};
ghost use Rattle.crdt_core.specs.declared.record.Record.TheVariants.{Lease, Prepare, Decide, Finish, Abort, Batch};
ghost use Rattle.crdt_core.specs.Parts.{lists};
ghost use Rattle.log_recovery.specs.declared.named.Fate.TheVariants.{Ended};
ghost use Rattle.log_recovery.specs.Fates.{fate_at, fates_of, IsEmpty, may_end, vote_of, IsSound, IsSamePlace, IsSeen, Judges, Sees, may_commit, may_prepare, is_vote, may_bring, are_new};
ghost use Rattle.log_recovery.specs.Ledgers.{raised};

use crate::messages::{are_placed_at, fit_all, is_for};
use crate::named::{Fate, Named, Vote};
use crate::vectors::{END_OF_TIME, is_vector, raise};
use crdt_core::{Message, Part, Record, Upd};
use site_vector::{PartId, TxId, VTime};
use std::alloc::{AllocError, Global};

/// What was seen of the log of a partition, as far as later records are judged by it.
#[derive(Drop)]
pub(crate) struct Seen {
    pub(crate) id: PartId,
    pub(crate) sites: u8,
    pub(crate) parts: u8,
    /// The ceiling of the last lease of the whole log: no vote has a later time.
    pub(crate) top: u64,
    pub(crate) named: Named,
    pub(crate) bounds: VTime,
}

impl Seen {
    /// Nothing was seen yet of a log whose last lease has this ceiling. Takes no memory.
    pub(crate) fn new(alloc: Global, id: PartId, sites: u8, parts: u8, top: u64) -> Seen
        requires least { 1 ≤ sites }
        requires most { sites ≤ 8 }
        requires first { 1 ≤ id.site }
        requires last { id.site ≤ sites }
        requires some { 1 ≤ parts }
        ensures empty { IsEmpty result }
        ensures sound { IsSound result }
        ensures id { result.id ≡ id }
        ensures sites { result.sites ≡ sites }
        ensures parts { result.parts ≡ parts }
        ensures top { result.top ≡ top }
    {
        Seen {
            id,
            sites,
            parts,
            top,
            named: Named::new(alloc),
            bounds: VTime::zero(sites),
        }
    }

    /// Whether a record fits after what was seen. One that fits is seen from then on.
    ///
    /// # Errors
    ///
    /// `AllocError` where memory runs out. What was seen is of no use then, nor where the record doesn't fit.
    pub(crate) fn see<E>(&mut self, next: &Record<E>) -> Result<bool, AllocError>
        requires { IsSound self.old }
        ensures judges { IfOk result (λ fits. Judges self.old next.now fits) }
        ensures sees { OnOk result (Sees self.old next.now self.new) }
        ensures sound { IfOk result (λ fits. fits ≡ true → IsSound self.new) }
        ensures same { OnOk result (IsSamePlace self.old self.new) }
    {
        match next {
            Record::Lease { ceil } => Ok(*ceil <= END_OF_TIME),
            Record::Prepare {
                tx,
                lead,
                time,
                s,
                updates,
            } => {
                let vote = Vote {
                    lead: *lead,
                    time: *time,
                    s: *s,
                };
                let fits = self.may_prepare(*tx, &vote, updates.as_slice());
                self.named.wait(*tx, vote)?;
                Ok(fits)
            }
            Record::Decide { tx, c } => {
                let fits = self.may_commit(*tx, c, true);
                self.named.end(*tx)?;
                Ok(fits)
            }
            Record::Finish { tx, c } => {
                let fits = self.may_commit(*tx, c, false);
                self.named.end(*tx)?;
                Ok(fits)
            }
            Record::Abort { tx } => {
                let fits = self.vote(*tx).is_some();
                self.named.end(*tx)?;
                Ok(fits)
            }
            Record::Batch { message } => self.bring(message),
        }
    }

    /// The vote for a transaction, if it is waiting.
    fn vote(&self, tx: TxId) -> Option<Vote>
        ensures { result ≡ vote_of (fates_of self.now tx) }
    {
        match self.named.fate(tx) {
            Some(Fate::Waits(vote)) => Some(vote),
            Some(Fate::Ended) => None,
            None => None,
        }
    }

    /// Whether a vote fits.
    fn may_prepare<E>(&self, tx: TxId, vote: &Vote, updates: &[Upd<E>]) -> bool
        requires { IsSound self.now }
        ensures { result ≡ may_prepare self.now.sites self.now.parts self.now.id (is_some (fates_of self.now tx)) self.now.top tx vote.now updates.now }
    {
        tx.site == self.id.site
            && tx.part >= 1
            && tx.part <= self.parts
            && self.named.fate(tx).is_none()
            && vote.lead >= 1
            && vote.lead <= self.id.part
            && self.is_vote(vote, updates)
    }

    /// Whether the snapshot, the updates and the time of a vote fit.
    fn is_vote<E>(&self, vote: &Vote, updates: &[Upd<E>]) -> bool
        requires { IsSound self.now }
        ensures { result ≡ is_vote self.now.sites self.now.parts self.now.id self.now.top vote.now updates.now }
    {
        is_vector(&vote.s, self.sites)
            && are_placed_at(updates, self.parts, self.id.part)
            && self.is_timely(vote)
    }

    /// Whether the time of a vote is above its snapshot, and under the ceiling.
    fn is_timely(&self, vote: &Vote) -> bool
        requires sound { IsSound self.now }
        requires width { length vote.now.s ≡ self.now.sites }
        ensures { result ≡ (ltb (entry vote.now.s self.now.id.site) vote.now.time && leb vote.now.time self.now.top) }
    {
        vote.s.get(self.id.site) < vote.time && vote.time <= self.top
    }

    /// Whether a commit fits: at the lead, or else at another participant.
    fn may_commit(&self, tx: TxId, c: &VTime, leads: bool) -> bool
        requires { IsSound self.now }
        ensures { result ≡ may_end self.now.sites self.now.id leads (vote_of (fates_of self.now tx)) c.now }
    {
        match self.vote(tx) {
            Some(vote) => (vote.lead == self.id.part) == leads && self.is_commit(&vote, c),
            None => false,
        }
    }

    /// Whether a vector is a commit vector of a vote.
    fn is_commit(&self, vote: &Vote, c: &VTime) -> bool
        requires sound { IsSound self.now }
        requires width { length vote.now.s ≡ self.now.sites }
        ensures { result ≡ may_commit self.now.sites self.now.id vote.now c.now }
    {
        if !is_vector(c, self.sites) {
            return false;
        }
        let own = c.get(self.id.site);
        *c == vote.s.with(self.id.site, own) && vote.time <= own
    }

    /// Whether a message fits, but for the names of its parts.
    fn may_bring<E>(&self, message: &Message<E>) -> bool
        requires { IsSound self.now }
        ensures { result ≡ may_bring self.now.sites self.now.parts self.now.id self.now.bounds message.now }
    {
        is_for(message, self.id, self.sites)
            && fit_all(message, self.sites, self.parts)
            && self.bounds.get(message.from) <= message.lo
    }

    /// Whether a batch fits. One that fits is seen from then on.
    fn bring<E>(&mut self, message: &Message<E>) -> Result<bool, AllocError>
        requires { IsSound self.old }
        ensures judges { IfOk result (λ fits. Judges self.old (Batch message.now) fits) }
        ensures sees { OnOk result (Sees self.old (Batch message.now) self.new) }
        ensures sound { IfOk result (λ fits. fits ≡ true → IsSound self.new) }
        ensures same { OnOk result (IsSamePlace self.old self.new) }
    {
        if !self.may_bring(message) {
            return Ok(false);
        }
        self.bounds = raise(&self.bounds, message.from, message.hi);
        name_all(&mut self.named, message.parts.as_slice())
    }
}

/// Notes that the transactions of these parts ended, as long as they are new: whether all are.
fn name_all<E>(named: &mut Named, parts: &[Part<E>]) -> Result<bool, AllocError>
    ensures new { IfOk result (λ new. new ≡ are_new (fate_at named.old) parts.now) }
    ensures named { IfOk result (λ new. new ≡ true → (u : TxId) → fate_at named.new u ≡ cond (lists parts.now u) (Some Ended) (fate_at named.old u)) }
{
    for part in parts {
        if named.fate(part.tx).is_some() {
            return Ok(false);
        }
        named.end(part.tx)?;
    }
    Ok(true)
}
