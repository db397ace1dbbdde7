ghost use Rattle.std.specs.Prelude.{◌≡◌, ◌⊎◌, ◌↔◌, ℕ, true, false, List, IfOk, IfErr, OnErr, MatchOption};
ghost use Rattle.txn_session.specs.Calls.{Call};
ghost use Rattle.txn_session.specs.Holds.{Holds, Mays, next_of};
ghost use Rattle.txn_session.specs.Session.{is_idle, is_open};
ghost use Rattle.txn_session.specs.SessionWaits.{ReadsLater, ReadWaits, UpdatesLater, UpdateWaits, StepsLater, StepWaits};
ghost use Rattle.world_model.specs.declared.commit.What.TheVariants as what;

use crate::chosen::{own_of, part_of};
use crate::session::{Session, Stage};
use crate::{Clock, SessionError, Store};
use crdt_core::{Crdt, ObjectId, Op, Upd, partition_of};
use site_vector::PartId;
use world_model::{Next, Step, What};

/// The calls of a session that wait, so that its thread needn't ask again and again.
impl<C: Crdt> Session<C> {
    ghost use Rattle.txn_session.specs.Opens.{IsUpdated, update_refusal, begun_end, stepped, next_said, EndsAs};

    /// As `update`, with waits as a store's `read_wait` has them.
    ///
    /// # Errors
    ///
    /// As those of `update`. What was told of the clock stands.
    pub fn update_wait<S: Store<C>, K: Clock>(
        &mut self,
        store: &mut S,
        pass: S::Pass,
        object: &ObjectId,
        op: &Op,
        clock: &K,
    ) -> (S::Pass, Result<Step, SessionError>)
        requires has { C.has object.now.kind ≡ true }
        requires sites { S.sites store.old ≡ self.old.sites }
        requires parts { S.parts store.old ≡ self.old.parts }
        requires holds { Mays S.sees S.numbers store.old pass self.old }
        ensures stays { S.stays store.old store.new }
        ensures same { (n : ℕ) → S.numbers result.0 n ≡ S.numbers pass n }
        ensures refused { MatchOption (update_refusal C.too_deep self.old.doing object.now op.now) (IfErr result.1 (λ
            e. e ≡ SessionError.NoMemory)) (λ e. (result.1 ≡ Err e) × (store.new ≡ store.old)) }
        ensures err { OnErr result.1 (self.new ≡ self.old) }
        ensures updated { IfOk result.1 (λ answer. IsUpdated self.old object.now answer self.new) }
        ensures updates { IfOk result.1 (λ answer. (run : List (Call C.Effect)) → S.sees store.old pass run →
            Holds self.old run →
            UpdatesLater S.sees S.numbers (K.shows clock.now) store.new result.0 run self.old self.new object.now op.now
            answer self.old.doing) }
        ensures waits { OnErr result.1 ((run : List (Call C.Effect)) → S.sees store.old pass run →
            Holds self.old run → UpdateWaits S.sees S.numbers (K.shows clock.now) store.new result.0 run self.old self.new object.now op.now
            self.old.doing) }
    {
        if let Some(error) = self.update_refusal(object, op) {
            return (pass, Err(error));
        }
        let own = match own_of::<C>(self.alloc, self.updates.as_slice(), object) {
            Ok(own) => own,
            Err(_) => {
                return (pass, Err(SessionError::NoMemory));
            }
        };
        let named = match object.copy(self.alloc) {
            Ok(named) => named,
            Err(_) => {
                return (pass, Err(SessionError::NoMemory));
            }
        };
        if self.updates.reserve(self.alloc).is_err() {
            return (pass, Err(SessionError::NoMemory));
        }
        let at = PartId {
            site: self.site,
            part: partition_of(object, self.parts),
        };
        let index = self.updates.len() as u16 + 1;
        let (pass, answer) = store.update_wait(
            pass,
            at,
            &self.name,
            self.by,
            self.tx,
            &self.s,
            object,
            own.as_slice(),
            op,
            index,
            clock,
        );
        match answer {
            Ok((step, made)) => match made {
                Some(effect) => {
                    self.updates.push(Upd {
                        object: named,
                        index,
                        effect,
                    });
                    return (pass, Ok(step));
                }
                None => {
                    return (pass, Ok(step));
                }
            },
            Err(_) => {
                return (pass, Err(SessionError::NoMemory));
            }
        }
    }

    /// As `read`, with waits as a store's `read_wait` has them.
    ///
    /// # Errors
    ///
    /// As those of `read`. What was told of the clock stands.
    pub fn read_wait<S: Store<C>, K: Clock>(
        &mut self,
        store: &mut S,
        pass: S::Pass,
        object: &ObjectId,
        clock: &K,
    ) -> (S::Pass, Result<Step, SessionError>)
        requires has { C.has object.now.kind ≡ true }
        requires sites { S.sites store.old ≡ self.old.sites }
        requires parts { S.parts store.old ≡ self.old.parts }
        requires holds { Mays S.sees S.numbers store.old pass self.old }
        ensures stays { S.stays store.old store.new }
        ensures same { (n : ℕ) → S.numbers result.0 n ≡ S.numbers pass n }
        ensures no_txn { (result.1 ≡ Err SessionError.NoTxn) ↔ (is_open self.old.doing ≡ false) }
        ensures only { IfErr result.1 (λ e. (e ≡ SessionError.NoTxn) ⊎ (e ≡ SessionError.NoMemory)) }
        ensures as_before { self.new ≡ self.old }
        ensures reads { IfOk result.1 (λ answer. (run : List (Call C.Effect)) → S.sees store.old pass run →
            Holds self.old run →
            ReadsLater S.sees S.numbers (K.shows clock.now) store.new result.0 run self.old self.new object.now answer
            self.old.doing) }
        ensures waits { OnErr result.1 ((run : List (Call C.Effect)) → S.sees store.old pass run →
            Holds self.old run → ReadWaits S.sees S.numbers (K.shows clock.now) store.new result.0 run self.old self.new object.now
            self.old.doing) }
    {
        match self.stage {
            Stage::Open => {}
            _ => {
                return (pass, Err(SessionError::NoTxn));
            }
        }
        let own = match own_of::<C>(self.alloc, self.updates.as_slice(), object) {
            Ok(own) => own,
            Err(_) => {
                return (pass, Err(SessionError::NoMemory));
            }
        };
        let at = PartId {
            site: self.site,
            part: partition_of(object, self.parts),
        };
        let (pass, answer) = store.read_wait(
            pass,
            at,
            &self.name,
            self.by,
            self.tx,
            &self.s,
            object,
            own.as_slice(),
            clock,
        );
        match answer {
            Ok(step) => {
                return (pass, Ok(step));
            }
            Err(_) => {
                return (pass, Err(SessionError::NoMemory));
            }
        }
    }

    /// As `commit_step`, with waits for a vote as a store's `read_wait` has them.
    ///
    /// # Errors
    ///
    /// As those of `commit_step`. What was told of the clock stands.
    pub fn commit_step_wait<S: Store<C>, K: Clock>(
        &mut self,
        store: &mut S,
        pass: S::Pass,
        clock: &K,
    ) -> (S::Pass, Result<(Step, Next), SessionError>)
        requires sites { S.sites store.old ≡ self.old.sites }
        requires parts { S.parts store.old ≡ self.old.parts }
        requires holds { Mays S.sees S.numbers store.old pass self.old }
        ensures stays { S.stays store.old store.new }
        ensures same { (n : ℕ) → S.numbers result.0 n ≡ S.numbers pass n }
        ensures no_txn { (result.1 ≡ Err SessionError.NoTxn) ↔ (is_idle self.old.doing ≡ true) }
        ensures only { IfErr result.1 (λ e. (e ≡ SessionError.NoTxn) ⊎ (e ≡ SessionError.NoMemory)) }
        ensures err { OnErr result.1 (self.new ≡ begun_end self.old) }
        ensures stepped { IfOk result.1 (λ r. self.new ≡ stepped (begun_end self.old) r.0) }
        ensures next { IfOk result.1 (λ r. r.1 ≡ next_said (begun_end self.old).doing r.0) }
        ensures ended { IfOk result.1 (λ r. EndsAs self.old.name (next_of (begun_end self.old).doing) r.0) }
        ensures steps { IfOk result.1 (λ r. (run : List (Call C.Effect)) → S.sees store.old pass run →
            Holds self.old run →
            StepsLater S.sees S.numbers (K.shows clock.now) store.new result.0 run (begun_end self.old) self.new r.0 (begun_end
            self.old).doing (next_of (begun_end self.old).doing)) }
        ensures waits { OnErr result.1 ((run : List (Call C.Effect)) → S.sees store.old pass run →
            Holds self.old run → StepWaits S.sees S.numbers (K.shows clock.now) store.new result.0 run (begun_end self.old) self.new (begun_end
            self.old).doing (next_of (begun_end self.old).doing)) }
    {
        match self.stage {
            Stage::Idle => {
                return (pass, Err(SessionError::NoTxn));
            }
            _ => {}
        }
        self.start();
        return self.end_step_wait(store, pass, clock);
    }

    /// Makes the next step of the transaction's end, with waits for a vote.
    fn end_step_wait<S: Store<C>, K: Clock>(
        &mut self,
        store: &mut S,
        pass: S::Pass,
        clock: &K,
    ) -> (S::Pass, Result<(Step, Next), SessionError>)
        requires sites { S.sites store.old ≡ self.old.sites }
        requires parts { S.parts store.old ≡ self.old.parts }
        requires holds { Mays S.sees S.numbers store.old pass self.old }
        ensures stays { S.stays store.old store.new }
        ensures same { (n : ℕ) → S.numbers result.0 n ≡ S.numbers pass n }
        ensures only { IfErr result.1 (λ e. e ≡ SessionError.NoMemory) }
        ensures err { OnErr result.1 (self.new ≡ self.old) }
        ensures stepped { IfOk result.1 (λ r. self.new ≡ stepped self.old r.0) }
        ensures next { IfOk result.1 (λ r. r.1 ≡ next_said self.old.doing r.0) }
        ensures ended { IfOk result.1 (λ r. EndsAs self.old.name (next_of self.old.doing) r.0) }
        ensures steps { IfOk result.1 (λ r. (run : List (Call C.Effect)) → S.sees store.old pass run →
            Holds self.old run →
            StepsLater S.sees S.numbers (K.shows clock.now) store.new result.0 run self.old self.new r.0 self.old.doing
            (next_of self.old.doing)) }
        ensures waits { OnErr result.1 ((run : List (Call C.Effect)) → S.sees store.old pass run →
            Holds self.old run → StepWaits S.sees S.numbers (K.shows clock.now) store.new result.0 run self.old self.new self.old.doing
            (next_of self.old.doing)) }
    {
        match self.next() {
            What::Prepare(part) => {
                return self.prepare_wait_at(store, pass, part, clock);
            }
            _ => {
                return self.end_step(store, pass);
            }
        }
    }

    /// Asks a participant for its vote, with waits.
    fn prepare_wait_at<S: Store<C>, K: Clock>(
        &mut self,
        store: &mut S,
        pass: S::Pass,
        part: u8,
        clock: &K,
    ) -> (S::Pass, Result<(Step, Next), SessionError>)
        requires next { next_of self.old.doing ≡ what.Prepare part }
        requires sites { S.sites store.old ≡ self.old.sites }
        requires parts { S.parts store.old ≡ self.old.parts }
        requires holds { Mays S.sees S.numbers store.old pass self.old }
        ensures stays { S.stays store.old store.new }
        ensures same { (n : ℕ) → S.numbers result.0 n ≡ S.numbers pass n }
        ensures only { IfErr result.1 (λ e. e ≡ SessionError.NoMemory) }
        ensures err { OnErr result.1 (self.new ≡ self.old) }
        ensures stepped { IfOk result.1 (λ r. self.new ≡ stepped self.old r.0) }
        ensures next { IfOk result.1 (λ r. r.1 ≡ next_said self.old.doing r.0) }
        ensures ended { IfOk result.1 (λ r. EndsAs self.old.name (next_of self.old.doing) r.0) }
        ensures steps { IfOk result.1 (λ r. (run : List (Call C.Effect)) → S.sees store.old pass run →
            Holds self.old run →
            StepsLater S.sees S.numbers (K.shows clock.now) store.new result.0 run self.old self.new r.0 self.old.doing
            (next_of self.old.doing)) }
        ensures waits { OnErr result.1 ((run : List (Call C.Effect)) → S.sees store.old pass run →
            Holds self.old run → StepWaits S.sees S.numbers (K.shows clock.now) store.new result.0 run self.old self.new self.old.doing
            (next_of self.old.doing)) }
    {
        let updates = match part_of::<C>(self.alloc, &mut self.updates, self.parts, part) {
            Ok(updates) => updates,
            Err(_) => {
                return (pass, Err(SessionError::NoMemory));
            }
        };
        let at = PartId {
            site: self.site,
            part,
        };
        let (pass, answer) = store.prepare_wait(
            pass, at, self.by, self.tx, &self.s, self.lead, &updates, clock,
        );
        match answer {
            Ok(step) => {
                let next = self.commit.answer(&step);
                return (pass, Ok((step, next)));
            }
            Err(_) => {
                return (pass, Err(SessionError::NoMemory));
            }
        }
    }
}
