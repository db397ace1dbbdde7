ghost use Rattle.std.specs.Prelude.{◌≡◌, ◌≢◌, ◌⊎◌, ◌↔◌, ◌≤◌, ◌+◌, ◌++◌, ◌∷◌, ℕ, Bool, true, false, List, [], length, replicate, Option, Some, None, IfOk, IfErr, OnOk, OnErr, MatchOption};
ghost use Rattle.txn_session.specs.Calls.{Call};
ghost use Rattle.txn_session.specs.Opens.{refusal_of_update, told_of};
ghost use Rattle.txn_session.specs.Session.{Idle, phase_in, phase_of, place_in, is_idle, is_open, can_abort, has_step, moved_to};
ghost use Rattle.world_model.specs.declared.commit.What.TheVariants as what;
ghost use Rattle.txn_session.specs.Holds.{Holds, Mays, Makes, MakesUpdate, MakesRead, MakesStep, TellsStep, Waits, next_of};
ghost use Rattle.txn_session.specs.NextPart.{part_asked, first_part};
ghost use Rattle.crdt_core.specs.Placing.{place_of};
ghost use Rattle.world_model.specs.lines.Lines.{wish_of};
ghost use Rattle.world_model.specs.lines.Places.{IsPlace};
ghost use Rattle.world_model.specs.rules.Event.{AskBegin};

mod waiting;

use crate::chosen::{first_of, own_of, part_of, participants_of};
use crate::draft::Draft;
use crate::{Phase, SessionError, Store};
use clocksi_commit::Commit;
use crdt_core::{Crdt, ObjectId, Op, Upd, fits, partition_of};
use field_codec::Text;
use site_vector::{PartId, TxId, VTime};
use std::alloc::Global;
use std::marker::Model;
use world_model::{Mode, Next, Step, What};

/// The most updates of a transaction.
const MOST_UPDATES: usize = 256;

/// Which of a session's fields hold something.
#[derive(Clone, Copy, Debug)]
pub enum Stage {
    Idle,
    Open,
    Ending,
}

/// A client's session: at most one transaction at a time, and the join of the snapshots and commit vectors that it was told,
/// which each later snapshot holds.
#[derive(Drop)]
pub struct Session<C: Crdt> {
    alloc: Global,
    name: Text,
    site: u8,
    sites: u8,
    parts: u8,
    dependency: VTime,
    stage: Stage,
    tx: TxId,
    s: VTime,
    by: u64,
    updates: Draft<C>,
    lead: u8,
    commit: Commit,
}

impl<C: Crdt> Model for Session<C> {
    ghost use Rattle.txn_session.specs.Session.{SessionState};
    ghost use Rattle.txn_session.specs.Fields.{doing_in, IsSized};

    ghost Value = { SessionState C.Effect };

    ghost view = { λ s. record { name = s.name; site = s.site; sites = s.sites; parts = s.parts; dependency = s.dependency; doing = doing_in s.stage (record { tx = s.tx; s = s.s; by = s.by; updates = s.updates.items }) s.lead s.commit } };

    ghost invariant = { λ s. IsSized s.site s.sites s.parts s.dependency s.s };
}

impl<C: Crdt> Session<C> {
    ghost use Rattle.txn_session.specs.Opens.{IsOpened, IsUpdated, update_refusal, begun_end, given_up_end, stepped, next_said, EndsAs};

    /// A session of this name at a site, in a cluster of so many sites, at most 8, and partitions of each, at most 16. It depends on
    /// nothing.
    pub fn new(alloc: Global, name: Text, site: u8, sites: u8, parts: u8) -> Session<C>
        requires least_site { 1 ≤ site }
        requires most_site { site ≤ sites }
        requires most_sites { sites ≤ 8 }
        requires least_parts { 1 ≤ parts }
        requires most_parts { parts ≤ 16 }
        ensures session { result ≡ record {
          name = name;
          site = site;
          sites = sites;
          parts = parts;
          dependency =
              replicate sites 0;
          doing = Idle;
        } }
        ensures holds { (run : List (Call C.Effect)) → Holds result run }
    {
        let zero = VTime::zero(sites);
        Session {
            alloc,
            name,
            site,
            sites,
            parts,
            dependency: zero,
            stage: Stage::Idle,
            tx: TxId {
                site,
                part: 1,
                time: 0,
            },
            s: zero,
            by: 0,
            updates: Draft::new(alloc),
            lead: 0,
            commit: Commit::new(&[], zero, site),
        }
    }

    pub fn name(&self) -> &Text
        ensures { result.now ≡ self.now.name }
    {
        &self.name
    }

    pub fn site(&self) -> u8
        ensures { result ≡ self.now.site }
    {
        self.site
    }

    /// The join of the snapshots that the session began with and of the commit vectors that it was told.
    pub fn dependency(&self) -> VTime
        ensures { result ≡ self.now.dependency }
    {
        self.dependency
    }

    pub fn phase(&self) -> Phase
        ensures { result ≡ phase_of self.now.doing }
    {
        match self.stage {
            Stage::Idle => Phase::Idle,
            Stage::Open => Phase::Open,
            Stage::Ending => phase_in(&self.commit),
        }
    }

    /// Begins a transaction in this mode, at the partition with this number of the session's site. Only where the answer is that
    /// it began does the session change.
    ///
    /// # Errors
    ///
    /// `HasTxn` exactly where the session isn't idle; `NoMemory` where memory runs out. The session is as before.
    pub fn open<S: Store<C>>(
        &mut self,
        store: &mut S,
        pass: S::Pass,
        part: u8,
        mode: Mode,
    ) -> (S::Pass, Result<Step, SessionError>)
        requires least { 1 ≤ part }
        requires most { part ≤ self.old.parts }
        requires sites { S.sites store.old ≡ self.old.sites }
        requires parts { S.parts store.old ≡ self.old.parts }
        requires holds { Mays S.sees S.numbers store.old pass self.old }
        ensures stays { S.stays store.old store.new }
        ensures same { (n : ℕ) → S.numbers result.0 n ≡ S.numbers pass n }
        ensures has_txn { (result.1 ≡ Err SessionError.HasTxn) ↔ (is_idle self.old.doing ≡ false) }
        ensures only { IfErr result.1 (λ e. (e ≡ SessionError.HasTxn) ⊎ (e ≡ SessionError.NoMemory)) }
        ensures err { OnErr result.1 (self.new ≡ self.old) }
        ensures opened { IfOk result.1 (λ answer. IsOpened self.old answer self.new) }
        ensures tells { IfOk result.1 (λ answer. S.tells store.old store.new (place_in self.old part) answer) }
        ensures opens { IfOk result.1 (λ answer. (run : List (Call C.Effect)) → S.sees store.old pass run →
            Holds self.old run →
            Makes S.sees S.numbers store.new result.0 run self.old self.new None (record {
              site = self.old.site;
              part
                  = part;
            }) (AskBegin self.old.name (wish_of self.old.dependency mode)) answer) }
        ensures waits { OnErr result.1 ((run : List (Call C.Effect)) → S.sees store.old pass run →
            Holds self.old run → Waits S.sees S.numbers store.new result.0 run self.old self.new) }
    {
        match self.stage {
            Stage::Idle => {}
            _ => {
                return (pass, Err(SessionError::HasTxn));
            }
        }
        let at = PartId {
            site: self.site,
            part,
        };
        let (pass, answer) = store.begin(pass, at, &self.name, &self.dependency, mode);
        match answer {
            Ok((step, by)) => match step {
                Step::Began { name, tx, s } => {
                    self.dependency = self.dependency.join(&s);
                    self.stage = Stage::Open;
                    self.tx = tx;
                    self.s = s;
                    self.by = by;
                    self.updates.clear();
                    return (pass, Ok(Step::Began { name, tx, s }));
                }
                other => {
                    return (pass, Ok(other));
                }
            },
            Err(_) => {
                return (pass, Err(SessionError::NoMemory));
            }
        }
    }

    /// Updates an object of a kind that the type has, in the open transaction. Only where the answer is that it was updated does the
    /// session change.
    ///
    /// # Errors
    ///
    /// `NoTxn` exactly where the session isn't open. Of an open one, `TooDeep` exactly where the path leads through maps to a kind
    /// that the type has no room for, `BadOp` exactly where the operation isn't one of the kind and `TooDeep` isn't due,
    /// `TooMany` exactly where neither is due and there are 256 updates. No partition is asked then. `NoMemory` where memory
    /// runs out. The session is as before.
    pub fn update<S: Store<C>>(
        &mut self,
        store: &mut S,
        pass: S::Pass,
        object: &ObjectId,
        op: &Op,
    ) -> (S::Pass, Result<Step, SessionError>)
        requires has { C.has object.now.kind ≡ true }
        requires sites { S.sites store.old ≡ self.old.sites }
        requires parts { S.parts store.old ≡ self.old.parts }
        requires holds { Mays S.sees S.numbers store.old pass self.old }
        ensures stays { S.stays store.old store.new }
        ensures same { (n : ℕ) → S.numbers result.0 n ≡ S.numbers pass n }
        ensures refused { MatchOption (update_refusal C.too_deep self.old.doing object.now op.now) (IfErr result.1 (λ
            e. e ≡ SessionError.NoMemory)) (λ e. (result.1 ≡ Err e) × (store.new ≡ store.old)) }
        ensures err { OnErr result.1 (self.new ≡ self.old) }
        ensures updated { IfOk result.1 (λ answer. IsUpdated self.old object.now answer self.new) }
        ensures tells { IfOk result.1 (λ answer. S.tells store.old store.new (place_in self.old (place_of object.now.bucket object.now.key self.old.parts)) answer) }
        ensures updates { IfOk result.1 (λ answer. (run : List (Call C.Effect)) → S.sees store.old pass run →
            Holds self.old run →
            MakesUpdate S.sees S.numbers store.new result.0 run self.old self.new object.now op.now answer
            self.old.doing) }
        ensures waits { OnErr result.1 ((run : List (Call C.Effect)) → S.sees store.old pass run →
            Holds self.old run → Waits S.sees S.numbers store.new result.0 run self.old self.new) }
    {
        if let Some(error) = self.update_refusal(object, op) {
            return (pass, Err(error));
        }
        let own = match own_of::<C>(self.alloc, self.updates.as_slice(), object) {
            Ok(own) => own,
            Err(_) => {
                return (pass, Err(SessionError::NoMemory));
            }
        };
        let named = match object.copy(self.alloc) {
            Ok(named) => named,
            Err(_) => {
                return (pass, Err(SessionError::NoMemory));
            }
        };
        if self.updates.reserve(self.alloc).is_err() {
            return (pass, Err(SessionError::NoMemory));
        }
        let at = PartId {
            site: self.site,
            part: partition_of(object, self.parts),
        };
        let index = self.updates.len() as u16 + 1;
        let (pass, answer) = store.update(
            pass,
            at,
            &self.name,
            self.by,
            self.tx,
            &self.s,
            object,
            own.as_slice(),
            op,
            index,
        );
        match answer {
            Ok((step, made)) => match made {
                Some(effect) => {
                    self.updates.push(Upd {
                        object: named,
                        index,
                        effect,
                    });
                    return (pass, Ok(step));
                }
                None => {
                    return (pass, Ok(step));
                }
            },
            Err(_) => {
                return (pass, Err(SessionError::NoMemory));
            }
        }
    }

    /// Why an update is refused before any partition is asked.
    fn update_refusal(&self, object: &ObjectId, op: &Op) -> Option<SessionError>
        ensures { result ≡ update_refusal C.too_deep self.now.doing object.now op.now }
    {
        match self.stage {
            Stage::Open => refused_update::<C>(object, op, self.updates.as_slice()),
            _ => Some(SessionError::NoTxn),
        }
    }

    /// Reads an object of a kind that the type has, under the snapshot of the open transaction and with its own updates. The
    /// session is as before.
    ///
    /// # Errors
    ///
    /// `NoTxn` exactly where the session isn't open; no partition is asked then. `NoMemory` where memory runs out.
    pub fn read<S: Store<C>>(
        &mut self,
        store: &mut S,
        pass: S::Pass,
        object: &ObjectId,
    ) -> (S::Pass, Result<Step, SessionError>)
        requires has { C.has object.now.kind ≡ true }
        requires sites { S.sites store.old ≡ self.old.sites }
        requires parts { S.parts store.old ≡ self.old.parts }
        requires holds { Mays S.sees S.numbers store.old pass self.old }
        ensures stays { S.stays store.old store.new }
        ensures same { (n : ℕ) → S.numbers result.0 n ≡ S.numbers pass n }
        ensures no_txn { (result.1 ≡ Err SessionError.NoTxn) ↔ (is_open self.old.doing ≡ false) }
        ensures only { IfErr result.1 (λ e. (e ≡ SessionError.NoTxn) ⊎ (e ≡ SessionError.NoMemory)) }
        ensures as_before { self.new ≡ self.old }
        ensures tells { IfOk result.1 (λ answer. S.tells store.old store.new (place_in self.old (place_of object.now.bucket object.now.key self.old.parts)) answer) }
        ensures reads { IfOk result.1 (λ answer. (run : List (Call C.Effect)) → S.sees store.old pass run →
            Holds self.old run →
            MakesRead S.sees S.numbers store.new result.0 run self.old self.new object.now answer self.old.doing) }
        ensures waits { OnErr result.1 ((run : List (Call C.Effect)) → S.sees store.old pass run →
            Holds self.old run → Waits S.sees S.numbers store.new result.0 run self.old self.new) }
    {
        match self.stage {
            Stage::Open => {}
            _ => {
                return (pass, Err(SessionError::NoTxn));
            }
        }
        let own = match own_of::<C>(self.alloc, self.updates.as_slice(), object) {
            Ok(own) => own,
            Err(_) => {
                return (pass, Err(SessionError::NoMemory));
            }
        };
        let at = PartId {
            site: self.site,
            part: partition_of(object, self.parts),
        };
        let (pass, answer) = store.read(
            pass,
            at,
            &self.name,
            self.by,
            self.tx,
            &self.s,
            object,
            own.as_slice(),
        );
        match answer {
            Ok(step) => {
                return (pass, Ok(step));
            }
            Err(_) => {
                return (pass, Err(SessionError::NoMemory));
            }
        }
    }

    /// Makes the next step of the commit, which begins it where the session is open. With no step left it makes none, the answer is
    /// that the transaction ended, and the session is idle. `Stay` is that the command ends here.
    ///
    /// # Errors
    ///
    /// `NoTxn` exactly where the session is idle; `NoMemory` where memory runs out. The commit has begun then, and no step was
    /// made.
    pub fn commit_step<S: Store<C>>(
        &mut self,
        store: &mut S,
        pass: S::Pass,
    ) -> (S::Pass, Result<(Step, Next), SessionError>)
        requires sites { S.sites store.old ≡ self.old.sites }
        requires parts { S.parts store.old ≡ self.old.parts }
        requires holds { Mays S.sees S.numbers store.old pass self.old }
        ensures stays { S.stays store.old store.new }
        ensures same { (n : ℕ) → S.numbers result.0 n ≡ S.numbers pass n }
        ensures no_txn { (result.1 ≡ Err SessionError.NoTxn) ↔ (is_idle self.old.doing ≡ true) }
        ensures only { IfErr result.1 (λ e. (e ≡ SessionError.NoTxn) ⊎ (e ≡ SessionError.NoMemory)) }
        ensures err { OnErr result.1 (self.new ≡ begun_end self.old) }
        ensures stepped { IfOk result.1 (λ r. self.new ≡ stepped (begun_end self.old) r.0) }
        ensures next { IfOk result.1 (λ r. r.1 ≡ next_said (begun_end self.old).doing r.0) }
        ensures ended { IfOk result.1 (λ r. EndsAs self.old.name (next_of (begun_end self.old).doing) r.0) }
        ensures tells { IfOk result.1 (λ r. TellsStep S.tells store.old store.new (begun_end self.old) r.0 (next_of
            (begun_end self.old).doing)) }
        ensures steps { IfOk result.1 (λ r. (run : List (Call C.Effect)) → S.sees store.old pass run →
            Holds self.old run →
            MakesStep S.sees S.numbers store.new result.0 run (begun_end self.old) self.new r.0 (begun_end
            self.old).doing (next_of (begun_end self.old).doing)) }
        ensures waits { OnErr result.1 ((run : List (Call C.Effect)) → S.sees store.old pass run →
            Holds self.old run → Waits S.sees S.numbers store.new result.0 run (begun_end self.old) self.new) }
    {
        match self.stage {
            Stage::Idle => {
                return (pass, Err(SessionError::NoTxn));
            }
            _ => {}
        }
        self.start();
        return self.end_step(store, pass);
    }

    /// Begins the commit of an open transaction, at the partitions that it updated.
    fn start(&mut self)
        ensures { self.new ≡ begun_end self.old }
    {
        match self.stage {
            Stage::Open => {
                let (list, count) = participants_of::<C>(self.updates.as_slice(), self.parts);
                self.lead = first_of(&list[..count]);
                self.commit = Commit::new(&list[..count], self.s, self.site);
                self.stage = Stage::Ending;
            }
            _ => {}
        }
    }

    /// The next step of the transaction's end.
    fn next(&self) -> What
        ensures { result ≡ next_of self.now.doing }
    {
        match self.stage {
            Stage::Ending => self.commit.next(),
            _ => What::Done,
        }
    }

    /// Makes the next step of the transaction's end.
    fn end_step<S: Store<C>>(
        &mut self,
        store: &mut S,
        pass: S::Pass,
    ) -> (S::Pass, Result<(Step, Next), SessionError>)
        requires sites { S.sites store.old ≡ self.old.sites }
        requires parts { S.parts store.old ≡ self.old.parts }
        requires holds { Mays S.sees S.numbers store.old pass self.old }
        ensures stays { S.stays store.old store.new }
        ensures same { (n : ℕ) → S.numbers result.0 n ≡ S.numbers pass n }
        ensures only { IfErr result.1 (λ e. e ≡ SessionError.NoMemory) }
        ensures err { OnErr result.1 (self.new ≡ self.old) }
        ensures stepped { IfOk result.1 (λ r. self.new ≡ stepped self.old r.0) }
        ensures next { IfOk result.1 (λ r. r.1 ≡ next_said self.old.doing r.0) }
        ensures ended { IfOk result.1 (λ r. EndsAs self.old.name (next_of self.old.doing) r.0) }
        ensures tells { IfOk result.1 (λ r. TellsStep S.tells store.old store.new self.old r.0 (next_of self.old.doing)) }
        ensures steps { IfOk result.1 (λ r. (run : List (Call C.Effect)) → S.sees store.old pass run →
            Holds self.old run →
            MakesStep S.sees S.numbers store.new result.0 run self.old self.new r.0 self.old.doing (next_of
            self.old.doing)) }
        ensures waits { OnErr result.1 ((run : List (Call C.Effect)) → S.sees store.old pass run →
            Holds self.old run → Waits S.sees S.numbers store.new result.0 run self.old self.new) }
    {
        match self.next() {
            What::Prepare(part) => {
                return self.prepare_at(store, pass, part);
            }
            What::Decide(part, c) => {
                return self.decide_at(store, pass, part, c);
            }
            What::Finish(part, c) => {
                return self.finish_at(store, pass, part, c);
            }
            What::Abort(part) => {
                return self.abort_at(store, pass, part);
            }
            What::Done => {
                return self.end(store, pass);
            }
        }
    }

    /// Asks a participant for its vote.
    fn prepare_at<S: Store<C>>(
        &mut self,
        store: &mut S,
        pass: S::Pass,
        part: u8,
    ) -> (S::Pass, Result<(Step, Next), SessionError>)
        requires next { next_of self.old.doing ≡ what.Prepare part }
        requires sites { S.sites store.old ≡ self.old.sites }
        requires parts { S.parts store.old ≡ self.old.parts }
        requires holds { Mays S.sees S.numbers store.old pass self.old }
        ensures stays { S.stays store.old store.new }
        ensures same { (n : ℕ) → S.numbers result.0 n ≡ S.numbers pass n }
        ensures only { IfErr result.1 (λ e. e ≡ SessionError.NoMemory) }
        ensures err { OnErr result.1 (self.new ≡ self.old) }
        ensures stepped { IfOk result.1 (λ r. self.new ≡ stepped self.old r.0) }
        ensures next { IfOk result.1 (λ r. r.1 ≡ next_said self.old.doing r.0) }
        ensures ended { IfOk result.1 (λ r. EndsAs self.old.name (next_of self.old.doing) r.0) }
        ensures tells { IfOk result.1 (λ r. TellsStep S.tells store.old store.new self.old r.0 (next_of self.old.doing)) }
        ensures steps { IfOk result.1 (λ r. (run : List (Call C.Effect)) → S.sees store.old pass run →
            Holds self.old run →
            MakesStep S.sees S.numbers store.new result.0 run self.old self.new r.0 self.old.doing (next_of
            self.old.doing)) }
        ensures waits { OnErr result.1 ((run : List (Call C.Effect)) → S.sees store.old pass run →
            Holds self.old run → Waits S.sees S.numbers store.new result.0 run self.old self.new) }
    {
        let updates = match part_of::<C>(self.alloc, &mut self.updates, self.parts, part) {
            Ok(updates) => updates,
            Err(_) => {
                return (pass, Err(SessionError::NoMemory));
            }
        };
        let at = PartId {
            site: self.site,
            part,
        };
        let (pass, answer) = store.prepare(
            pass, at, self.by, self.tx, &self.s, self.lead, &updates,
        );
        match answer {
            Ok(step) => {
                let next = self.commit.answer(&step);
                return (pass, Ok((step, next)));
            }
            Err(_) => {
                return (pass, Err(SessionError::NoMemory));
            }
        }
    }

    /// Asks the lead to decide. The session depends on what was decided.
    fn decide_at<S: Store<C>>(
        &mut self,
        store: &mut S,
        pass: S::Pass,
        part: u8,
        c: VTime,
    ) -> (S::Pass, Result<(Step, Next), SessionError>)
        requires next { next_of self.old.doing ≡ what.Decide part c }
        requires sites { S.sites store.old ≡ self.old.sites }
        requires parts { S.parts store.old ≡ self.old.parts }
        requires holds { Mays S.sees S.numbers store.old pass self.old }
        ensures stays { S.stays store.old store.new }
        ensures same { (n : ℕ) → S.numbers result.0 n ≡ S.numbers pass n }
        ensures only { IfErr result.1 (λ e. e ≡ SessionError.NoMemory) }
        ensures err { OnErr result.1 (self.new ≡ self.old) }
        ensures stepped { IfOk result.1 (λ r. self.new ≡ stepped self.old r.0) }
        ensures next { IfOk result.1 (λ r. r.1 ≡ next_said self.old.doing r.0) }
        ensures ended { IfOk result.1 (λ r. EndsAs self.old.name (next_of self.old.doing) r.0) }
        ensures tells { IfOk result.1 (λ r. TellsStep S.tells store.old store.new self.old r.0 (next_of self.old.doing)) }
        ensures steps { IfOk result.1 (λ r. (run : List (Call C.Effect)) → S.sees store.old pass run →
            Holds self.old run →
            MakesStep S.sees S.numbers store.new result.0 run self.old self.new r.0 self.old.doing (next_of
            self.old.doing)) }
        ensures waits { OnErr result.1 ((run : List (Call C.Effect)) → S.sees store.old pass run →
            Holds self.old run → Waits S.sees S.numbers store.new result.0 run self.old self.new) }
    {
        let at = PartId {
            site: self.site,
            part,
        };
        let (pass, answer) = store.decide(pass, at, self.by, self.tx, &c);
        match answer {
            Ok(step) => {
                self.dependency = told(&self.dependency, &c, &step);
                let next = self.commit.answer(&step);
                return (pass, Ok((step, next)));
            }
            Err(_) => {
                return (pass, Err(SessionError::NoMemory));
            }
        }
    }

    /// Asks another participant to finish.
    fn finish_at<S: Store<C>>(
        &mut self,
        store: &mut S,
        pass: S::Pass,
        part: u8,
        c: VTime,
    ) -> (S::Pass, Result<(Step, Next), SessionError>)
        requires next { next_of self.old.doing ≡ what.Finish part c }
        requires sites { S.sites store.old ≡ self.old.sites }
        requires parts { S.parts store.old ≡ self.old.parts }
        requires holds { Mays S.sees S.numbers store.old pass self.old }
        ensures stays { S.stays store.old store.new }
        ensures same { (n : ℕ) → S.numbers result.0 n ≡ S.numbers pass n }
        ensures only { IfErr result.1 (λ e. e ≡ SessionError.NoMemory) }
        ensures err { OnErr result.1 (self.new ≡ self.old) }
        ensures stepped { IfOk result.1 (λ r. self.new ≡ stepped self.old r.0) }
        ensures next { IfOk result.1 (λ r. r.1 ≡ next_said self.old.doing r.0) }
        ensures ended { IfOk result.1 (λ r. EndsAs self.old.name (next_of self.old.doing) r.0) }
        ensures tells { IfOk result.1 (λ r. TellsStep S.tells store.old store.new self.old r.0 (next_of self.old.doing)) }
        ensures steps { IfOk result.1 (λ r. (run : List (Call C.Effect)) → S.sees store.old pass run →
            Holds self.old run →
            MakesStep S.sees S.numbers store.new result.0 run self.old self.new r.0 self.old.doing (next_of
            self.old.doing)) }
        ensures waits { OnErr result.1 ((run : List (Call C.Effect)) → S.sees store.old pass run →
            Holds self.old run → Waits S.sees S.numbers store.new result.0 run self.old self.new) }
    {
        let at = PartId {
            site: self.site,
            part,
        };
        let (pass, answer) = store.finish(pass, at, self.tx, &c);
        match answer {
            Ok(step) => {
                let next = self.commit.answer(&step);
                return (pass, Ok((step, next)));
            }
            Err(_) => {
                return (pass, Err(SessionError::NoMemory));
            }
        }
    }

    /// Asks a participant that voted to abort.
    fn abort_at<S: Store<C>>(
        &mut self,
        store: &mut S,
        pass: S::Pass,
        part: u8,
    ) -> (S::Pass, Result<(Step, Next), SessionError>)
        requires next { next_of self.old.doing ≡ what.Abort part }
        requires sites { S.sites store.old ≡ self.old.sites }
        requires parts { S.parts store.old ≡ self.old.parts }
        requires holds { Mays S.sees S.numbers store.old pass self.old }
        ensures stays { S.stays store.old store.new }
        ensures same { (n : ℕ) → S.numbers result.0 n ≡ S.numbers pass n }
        ensures only { IfErr result.1 (λ e. e ≡ SessionError.NoMemory) }
        ensures err { OnErr result.1 (self.new ≡ self.old) }
        ensures stepped { IfOk result.1 (λ r. self.new ≡ stepped self.old r.0) }
        ensures next { IfOk result.1 (λ r. r.1 ≡ next_said self.old.doing r.0) }
        ensures ended { IfOk result.1 (λ r. EndsAs self.old.name (next_of self.old.doing) r.0) }
        ensures tells { IfOk result.1 (λ r. TellsStep S.tells store.old store.new self.old r.0 (next_of self.old.doing)) }
        ensures steps { IfOk result.1 (λ r. (run : List (Call C.Effect)) → S.sees store.old pass run →
            Holds self.old run →
            MakesStep S.sees S.numbers store.new result.0 run self.old self.new r.0 self.old.doing (next_of
            self.old.doing)) }
        ensures waits { OnErr result.1 ((run : List (Call C.Effect)) → S.sees store.old pass run →
            Holds self.old run → Waits S.sees S.numbers store.new result.0 run self.old self.new) }
    {
        let at = PartId {
            site: self.site,
            part,
        };
        let (pass, answer) = store.abort(pass, at, self.by, self.tx);
        match answer {
            Ok(step) => {
                let next = self.commit.answer(&step);
                return (pass, Ok((step, next)));
            }
            Err(_) => {
                return (pass, Err(SessionError::NoMemory));
            }
        }
    }

    /// Nothing is left: the session is idle.
    fn end<S: Store<C>>(
        &mut self,
        store: &mut S,
        pass: S::Pass,
    ) -> (S::Pass, Result<(Step, Next), SessionError>)
        requires next { next_of self.old.doing ≡ what.Done }
        requires sites { S.sites store.old ≡ self.old.sites }
        requires parts { S.parts store.old ≡ self.old.parts }
        requires holds { Mays S.sees S.numbers store.old pass self.old }
        ensures stays { S.stays store.old store.new }
        ensures same { (n : ℕ) → S.numbers result.0 n ≡ S.numbers pass n }
        ensures only { IfErr result.1 (λ e. e ≡ SessionError.NoMemory) }
        ensures err { OnErr result.1 (self.new ≡ self.old) }
        ensures stepped { IfOk result.1 (λ r. self.new ≡ stepped self.old r.0) }
        ensures next { IfOk result.1 (λ r. r.1 ≡ next_said self.old.doing r.0) }
        ensures ended { IfOk result.1 (λ r. EndsAs self.old.name (next_of self.old.doing) r.0) }
        ensures tells { IfOk result.1 (λ r. TellsStep S.tells store.old store.new self.old r.0 (next_of self.old.doing)) }
        ensures steps { IfOk result.1 (λ r. (run : List (Call C.Effect)) → S.sees store.old pass run →
            Holds self.old run →
            MakesStep S.sees S.numbers store.new result.0 run self.old self.new r.0 self.old.doing (next_of
            self.old.doing)) }
        ensures waits { OnErr result.1 ((run : List (Call C.Effect)) → S.sees store.old pass run →
            Holds self.old run → Waits S.sees S.numbers store.new result.0 run self.old self.new) }
    {
        match self.name.copy(self.alloc) {
            Ok(name) => {
                self.stage = Stage::Idle;
                return (pass, Ok((Step::Ended { name }, Next::Go)));
            }
            Err(_) => {
                return (pass, Err(SessionError::NoMemory));
            }
        }
    }

    /// Gives the transaction up, if it isn't decided, and asks the next participant that voted to abort. With none left the answer is
    /// that the transaction ended, and the session is idle.
    ///
    /// # Errors
    ///
    /// `NoTxn` exactly where the session is neither open nor committing, which is as before then; `NoMemory` where memory runs
    /// out. The transaction is given up then.
    pub fn abort_step<S: Store<C>>(
        &mut self,
        store: &mut S,
        pass: S::Pass,
    ) -> (S::Pass, Result<Step, SessionError>)
        requires sites { S.sites store.old ≡ self.old.sites }
        requires parts { S.parts store.old ≡ self.old.parts }
        requires holds { Mays S.sees S.numbers store.old pass self.old }
        ensures stays { S.stays store.old store.new }
        ensures same { (n : ℕ) → S.numbers result.0 n ≡ S.numbers pass n }
        ensures no_txn { (result.1 ≡ Err SessionError.NoTxn) ↔ (can_abort self.old.doing ≡ false) }
        ensures only { IfErr result.1 (λ e. (e ≡ SessionError.NoTxn) ⊎ (e ≡ SessionError.NoMemory)) }
        ensures err { OnErr result.1 (self.new ≡ given_up_end self.old) }
        ensures stepped { IfOk result.1 (λ answer. self.new ≡ stepped (given_up_end self.old) answer) }
        ensures ended { IfOk result.1 (λ answer. EndsAs self.old.name (next_of (given_up_end self.old).doing) answer) }
        ensures tells { IfOk result.1 (λ answer. TellsStep S.tells store.old store.new (given_up_end self.old) answer
            (next_of (given_up_end self.old).doing)) }
        ensures steps { IfOk result.1 (λ answer. (run : List (Call C.Effect)) → S.sees store.old pass run →
            Holds self.old run →
            MakesStep S.sees S.numbers store.new result.0 run (given_up_end self.old) self.new answer (given_up_end
            self.old).doing (next_of (given_up_end self.old).doing)) }
        ensures waits { OnErr result.1 ((run : List (Call C.Effect)) → S.sees store.old pass run →
            Holds self.old run → Waits S.sees S.numbers store.new result.0 run (given_up_end self.old) self.new) }
    {
        if !self.can_abort() {
            return (pass, Err(SessionError::NoTxn));
        }
        self.give_up();
        let (pass, answer) = self.end_step(store, pass);
        match answer {
            Ok(done) => {
                return (pass, Ok(done.0));
            }
            Err(error) => {
                return (pass, Err(error));
            }
        }
    }

    /// Whether there is a transaction that isn't decided.
    fn can_abort(&self) -> bool
        ensures { result ≡ can_abort self.now.doing }
    {
        match self.stage {
            Stage::Idle => false,
            Stage::Open => true,
            Stage::Ending => !self.commit.is_decided(),
        }
    }

    /// Gives the transaction up, if it isn't decided.
    fn give_up(&mut self)
        ensures { self.new ≡ given_up_end self.old }
    {
        match self.stage {
            Stage::Idle => {}
            Stage::Open => {
                self.stage = Stage::Idle;
            }
            Stage::Ending => {
                self.commit.give_up();
            }
        }
    }

    /// Goes on at another site of the cluster. What the session depends on goes with it.
    ///
    /// # Errors
    ///
    /// `HasTxn` exactly where the session isn't idle; `NoMemory` where memory runs out. The session is as before.
    pub fn move_to(&mut self, site: u8) -> Result<Step, SessionError>
        requires least { 1 ≤ site }
        requires most { site ≤ self.old.sites }
        ensures has_txn { (result ≡ Err SessionError.HasTxn) ↔ (is_idle self.old.doing ≡ false) }
        ensures only { IfErr result (λ e. (e ≡ SessionError.HasTxn) ⊎ (e ≡ SessionError.NoMemory)) }
        ensures err { OnErr result (self.new ≡ self.old) }
        ensures answer { IfOk result (λ step. step ≡ Step.Moved self.old.name site) }
        ensures moved { OnOk result (self.new ≡ moved_to self.old site) }
        ensures holds { (run : List (Call C.Effect)) → Holds self.old run → Holds self.new run }
    {
        match self.stage {
            Stage::Idle => {}
            _ => {
                return Err(SessionError::HasTxn);
            }
        }
        match self.name.copy(self.alloc) {
            Ok(name) => {
                self.site = site;
                return Ok(Step::Moved { name, site });
            }
            Err(_) => {
                return Err(SessionError::NoMemory);
            }
        }
    }

    /// The number of the partition of its site that the next step of the transaction's end asks, if it asks one. The end of
    /// an open transaction is its commit.
    pub fn next_part(&self) -> Option<u8>
        ensures { result ≡ part_asked (next_of (begun_end self.now).doing) }
    {
        match self.stage {
            Stage::Idle => None,
            Stage::Open => {
                let (list, count) = participants_of::<C>(self.updates.as_slice(), self.parts);
                first_part(&list[..count])
            }
            Stage::Ending => part_asked(&self.commit.next()),
        }
    }

    /// Whether a step of the transaction's end is left.
    pub fn has_step(&self) -> bool
        ensures { result ≡ has_step self.now.doing }
    {
        match self.stage {
            Stage::Ending => !self.commit.is_done(),
            _ => false,
        }
    }
}

/// The first of the numbers.
fn first_part(numbers: &[u8]) -> Option<u8>
    ensures { result ≡ first_part numbers.now }
{
    match numbers {
        [first, ..] => Some(*first),
        [] => None,
    }
}

/// The number of the partition that a step asks.
fn part_asked(next: &What) -> Option<u8>
    ensures { result ≡ part_asked next.now }
{
    match next {
        What::Prepare(part) => Some(*part),
        What::Decide(part, _) => Some(*part),
        What::Finish(part, _) => Some(*part),
        What::Abort(part) => Some(*part),
        What::Done => None,
    }
}

/// How far a commit has come.
fn phase_in(commit: &Commit) -> Phase
    ensures { result ≡ phase_in commit.now.going }
{
    if commit.is_decided() {
        Phase::Finishing
    } else {
        Phase::Committing
    }
}

/// Why an update of an open transaction is refused.
fn refused_update<C: Crdt>(
    object: &ObjectId,
    op: &Op,
    updates: &[Upd<C::Effect>],
) -> Option<SessionError>
    ensures { result ≡ refusal_of_update C.too_deep object.now op.now updates.now }
{
    if C::is_too_deep(object.kind, op.path.as_slice()) {
        return Some(SessionError::TooDeep);
    }
    if !fits(object.kind, op) {
        return Some(SessionError::BadOp);
    }
    if updates.len() < MOST_UPDATES {
        None
    } else {
        Some(SessionError::TooMany)
    }
}

/// What a session depends on after the answer to its decide.
fn told(dependency: &VTime, c: &VTime, step: &Step) -> VTime
    requires { length dependency.now ≡ length c.now }
    ensures { result ≡ told_of dependency.now c.now step.now }
{
    match step {
        Step::Decided { .. } => dependency.join(c),
        _ => *dependency,
    }
}
