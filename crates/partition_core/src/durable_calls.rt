// The calls of a partition on its disk.
ghost use Rattle.std.specs.Prelude.{◌≡◌, ◌≢◌, ◌≤◌, ◌<◌, ◌+◌, ℕ, Bool, List, true, false, length, IfOk, OnErr};
ghost use Rattle.site_vector.specs.declared.ids.TxId.{TxId};
ghost use Rattle.site_vector.specs.Vector.{entry};
ghost use Rattle.crdt_core.specs.declared.record.Part.{Part};
ghost use Rattle.crdt_core.specs.declared.record.Record.TheVariants.{Prepare};
ghost use Rattle.crdt_core.specs.EffectForm.{IsReady};
ghost use Rattle.crdt_core.specs.KindsOf.{fits_kind, kinds_of};
ghost use Rattle.crdt_core.specs.Log.{end_of_time};
ghost use Rattle.crdt_core.specs.Parts.{above, lists};
ghost use Rattle.crdt_core.specs.Spelled.{is_tx};
ghost use Rattle.log_records.specs.Messages.{can_put_message};
ghost use Rattle.log_records.specs.Records.{can_put_record};
ghost use Rattle.partition_log.specs.Codec.{codec_of};
ghost use Rattle.world_model.specs.rules.Event.{led_by, AskTick, AskBegin, AskRead, AskUpdate, AskPrepare, AskDecide, AskFinish, AskAbort, AskMessage, AskTake, AskReport, AskHear, Updated};
ghost use Rattle.world_model.specs.rules.Event as event;
ghost use Rattle.world_model.specs.lines.Lines.{wish_of};
ghost use Rattle.world_model.specs.lines.Places.{IsOther};
ghost use Rattle.world_model.specs.rules.Partition.{PartState, fate_of};
ghost use Rattle.partition_core.specs.Answers.{fate_told};
ghost use Rattle.partition_core.specs.Durable.{StandsOn, is_down};
ghost use Rattle.partition_core.specs.Messages.{AreApart, AreWideParts, have_updates};
ghost use Rattle.partition_core.specs.Moments.{CallsOn};
ghost use Rattle.partition_core.specs.Numbered.{are_numbered};
ghost use Rattle.partition_core.specs.Steps.{Anything, NamesNowhere};
ghost use Rattle.partition_core.specs.Tables.{knows};
ghost use Rattle.partition_core.specs.Untouched.{TakesNoMemory, TouchesNoDisk};

use crate::logging::keep_lease;
use crate::{DurableError, DurablePartition, Fate, Refusal};
use crdt_core::{Crdt, Message, ObjectId, Op, Upd, UpdateList, Value};
use disk_core::Disk;
use site_vector::{TxId, VTime};
use std::alloc::Global;
use world_model::Mode;

impl<C: Crdt, D: Disk + Drop> DurablePartition<C, D> {
    /// The clock reads a time, at most 2^62, and shows it unless it shows a later one. Answers what it shows. Takes no
    /// memory.
    ///
    /// # Errors
    ///
    /// `Down`, `Full`, `Disk` as `DurableError` says: at most a lease is written.
    pub fn tick(&mut self, clock_time: u64) -> Result<u64, DurableError>
        requires { clock_time ≤ end_of_time }
        ensures answers { CallsOn (kinds_of C.laws) (codec_of C.spells) D.state self.old self.new Anything (AskTick clock_time) (λ n e. e ≡ event.Ticked clock_time n) result }
        ensures fed { TakesNoMemory result }
    {
        if self.is_down() {
            return Err(DurableError::Down);
        }
        let time = clock_time.max(self.tables.now());
        keep_lease(&mut self.log, self.tables.lease_before(time))?;
        self.tables.advance(time);
        Ok(time)
    }

    /// Begins a transaction, of a session that depends on these times: its id, and its snapshot. A stable one reads what
    /// is stable as the call begins, before its id is drawn. Takes no memory.
    ///
    /// # Errors
    ///
    /// `StableBehind` where of some site less is stable here than the session depends on, with the first such site and
    /// what is stable of it: of another one, and for a stable begin of the own one too. Else `ClockAtEnd` where the clock
    /// shows 2^62. `Down`, `Full`, `Disk` as `DurableError` says: at most a lease is written.
    pub fn begin(&mut self, dependency: &VTime, mode: Mode) -> Result<(TxId, VTime), DurableError>
        requires { length dependency.now ≡ self.old.tables.sites }
        ensures answers { (who : List ℕ) → CallsOn (kinds_of C.laws) (codec_of C.spells) D.state self.old self.new Anything (AskBegin who (wish_of dependency.now mode)) (λ x e. e ≡ event.Began who (wish_of dependency.now mode) x.0 x.1) result }
        ensures fed { TakesNoMemory result }
    {
        if self.is_down() {
            return Err(DurableError::Down);
        }
        let (tx, s) = self.tables.next_begin(dependency, mode)?;
        keep_lease(&mut self.log, self.tables.lease_before(tx.time))?;
        self.tables.advance(tx.time);
        Ok((tx, s))
    }

    /// The commit point of a transaction of this site, of which this partition is the lead, with its commit vector.
    /// Done already where it is committed here. Takes no memory.
    ///
    /// # Errors
    ///
    /// `Gone` exactly where it is neither pending nor committed here; `Down`, `Full`, `Disk` as `DurableError` says.
    pub fn decide(&mut self, tx: TxId, c: &VTime) -> Result<(), DurableError>
        requires place { tx.site ≡ self.old.tables.id.site }
        requires width { length c.now ≡ self.old.tables.sites }
        requires spelled { is_tx tx ≡ true }
        ensures answers { CallsOn (kinds_of C.laws) (codec_of C.spells) D.state self.old self.new Anything (AskDecide tx c.now) (λ n e. e ≡ event.Decided tx c.now) result }
        ensures fed { TakesNoMemory result }
    {
        if self.is_down() {
            return Err(DurableError::Down);
        }
        if !self.tables.is_pending(tx) {
            self.tables.decide(tx, c)?;
            return Ok(());
        }
        self.log.decide(tx, c)?;
        self.tables.decide(tx, c)?;
        Ok(())
    }

    /// The commit of a transaction of this site, of which another partition is the lead, with its commit vector. Done
    /// already where it is committed here. Takes no memory.
    ///
    /// # Errors
    ///
    /// As `decide`.
    pub fn finish(&mut self, tx: TxId, c: &VTime) -> Result<(), DurableError>
        requires place { tx.site ≡ self.old.tables.id.site }
        requires width { length c.now ≡ self.old.tables.sites }
        requires spelled { is_tx tx ≡ true }
        ensures answers { CallsOn (kinds_of C.laws) (codec_of C.spells) D.state self.old self.new Anything (AskFinish tx c.now) (λ n e. e ≡ event.Finished tx c.now) result }
        ensures fed { TakesNoMemory result }
    {
        if self.is_down() {
            return Err(DurableError::Down);
        }
        if !self.tables.is_pending(tx) {
            self.tables.finish(tx, c)?;
            return Ok(());
        }
        self.log.finish(tx, c)?;
        self.tables.finish(tx, c)?;
        Ok(())
    }

    /// Ends a transaction without a commit, on the word of its session or of its lead. Takes no memory.
    ///
    /// # Errors
    ///
    /// `Gone` exactly where it isn't pending here; `Down`, `Full`, `Disk` as `DurableError` says.
    pub fn abort(&mut self, tx: TxId) -> Result<(), DurableError>
        requires { is_tx tx ≡ true }
        ensures answers { (own : Bool) → CallsOn (kinds_of C.laws) (codec_of C.spells) D.state self.old self.new Anything (AskAbort tx) (λ n e. e ≡ event.Aborted tx own) result }
        ensures fed { TakesNoMemory result }
    {
        if self.is_down() {
            return Err(DurableError::Down);
        }
        if !self.tables.is_pending(tx) {
            return Err(DurableError::Refused(Refusal::Gone));
        }
        self.log.abort(tx)?;
        self.tables.abort(tx)?;
        Ok(())
    }

    /// Votes for a transaction of this site, with its snapshot, the number of its lead, and what it changes here, in
    /// the order of its updates' numbers: the prepare time. Takes all the memory that its commit will need. Where the
    /// partition is up, it is none that it knows (`knows`).
    ///
    /// # Errors
    ///
    /// `ClockBehind` where the clock hasn't reached the snapshot, with what it shows; else `ClockAtEnd` where it shows
    /// 2^62; else `NoMemory`. `Down`, `Full`, `Disk` as `DurableError` says: a lease is written, where the clock needs
    /// one, and the vote.
    pub fn prepare(
        &mut self,
        alloc: Global,
        tx: TxId,
        s: &VTime,
        lead: u8,
        updates: &UpdateList<C::Effect>,
    ) -> Result<u64, DurableError>
        requires place { tx.site ≡ self.old.tables.id.site }
        requires width { length s.now ≡ self.old.tables.sites }
        requires unknown { is_down self.old ≡ false → knows self.old.tables tx ≡ false }
        requires spelled { (time : ℕ) → can_put_record C.has C.is_of C.can_put (Prepare tx lead time s.now updates.now) ≡ true }
        ensures { CallsOn (kinds_of C.laws) (codec_of C.spells) D.state self.old self.new (NamesNowhere tx) (AskPrepare tx s.now (led_by lead) updates.now) (λ n e. e ≡ event.Prepared tx s.now (led_by lead) updates.now n) result }
    {
        if self.is_down() {
            return Err(DurableError::Down);
        }
        let time = self.tables.vote_time(s)?;
        self.tables
            .prepare_in(alloc, &mut self.log, tx, s, lead, time, updates)?;
        Ok(time)
    }

    /// Takes a message of another site, with what it brings above the bound that the partition has of that site. Where
    /// the partition is up, it holds none of that.
    ///
    /// # Errors
    ///
    /// `Gap` where the message starts above the bound, with the bound; else `Repeat` where it ends at or below it, with
    /// the bound; else `NoMemory`. `Down`, `Full`, `Disk` as `DurableError` says: what the message brings is written, if
    /// it brings anything.
    pub fn take(&mut self, alloc: Global, message: &Message<C::Effect>) -> Result<(), DurableError>
        requires least { 1 ≤ message.now.from }
        requires most { message.now.from ≤ self.old.tables.sites }
        requires wide { AreWideParts self.old.tables.sites message.now.parts }
        requires apart { AreApart message.now.parts }
        requires away { (u : TxId) → lists message.now.parts u ≡ true → u.site ≢ self.old.tables.id.site }
        requires not_held { is_down self.old ≡ false → (u : TxId) → lists (above message.now.from (entry self.old.tables.bounds message.now.from) message.now.parts) u ≡ true → lists self.old.tables.held u ≡ false }
        requires spelled { can_put_message C.has C.is_of C.can_put message.now ≡ true }
        ensures { (number : ℕ) → CallsOn (kinds_of C.laws) (codec_of C.spells) D.state self.old self.new Anything (AskTake number message.now) (λ n e. e ≡ event.Took number message.now) result }
    {
        if self.is_down() {
            return Err(DurableError::Down);
        }
        self.tables.may_take(message)?;
        self.tables.take_in(alloc, &mut self.log, message)?;
        Ok(())
    }

    /// What an object shows under a transaction's snapshot, with the transaction's own earlier updates of it, in the
    /// order of their numbers.
    ///
    /// # Errors
    ///
    /// `ClockBehind` where the clock hasn't reached the snapshot, with what it shows; else `TxPending` where what is
    /// pending here changes the object and may belong to the snapshot, with the first such transaction; else `NoMemory`.
    /// `Down` as `DurableError` says.
    pub fn read(
        &mut self,
        alloc: Global,
        tx: TxId,
        s: &VTime,
        object: &ObjectId,
        own: &[Upd<C::Effect>],
    ) -> Result<Value, DurableError>
        requires has { C.has object.now.kind ≡ true }
        requires width { length s.now ≡ self.old.tables.sites }
        ensures answers { CallsOn (kinds_of C.laws) (codec_of C.spells) D.state self.old self.new Anything (AskRead tx s.now object.now own.now) (λ v e. (read : List (Part C.Effect)) × (e ≡ event.Read tx s.now object.now own.now read v)) result }
        ensures untouched { TouchesNoDisk result }
    {
        if self.is_down() {
            return Err(DurableError::Down);
        }
        let value = self.tables.read(alloc, tx, s, object, own)?;
        Ok(value)
    }

    /// The effect of an operation on an object under a transaction's snapshot, with the transaction's own earlier
    /// updates of the object, in the order of their numbers; and its stamp, if its kind has stamps. The caller gives it
    /// its number. The effect can be put, where the transaction's id and those numbers can be.
    ///
    /// # Errors
    ///
    /// `BadOp` where the operation isn't one of the object's kind, or leads deeper than the type reaches; else, where
    /// the kind's effects depend on the state, `ClockBehind` and `TxPending` as in a read; else `NoMemory`. `Down` as
    /// `DurableError` says.
    pub fn update(
        &mut self,
        alloc: Global,
        tx: TxId,
        s: &VTime,
        object: &ObjectId,
        own: &[Upd<C::Effect>],
        op: &Op,
    ) -> Result<(C::Effect, Option<u64>), DurableError>
        requires has { C.has object.now.kind ≡ true }
        requires width { length s.now ≡ self.old.tables.sites }
        ensures answers { (index : ℕ) → CallsOn (kinds_of C.laws) (codec_of C.spells) D.state self.old self.new Anything (AskUpdate tx s.now object.now own.now op.now) (λ x e. (read : List (Part C.Effect)) × (e ≡ Updated tx s.now object.now own.now op.now read (record { object = object.now; index = index; effect = x.0 }) x.1)) result }
        ensures ready { (p : PartState C.Effect) → StandsOn (codec_of C.spells) D.state self.old p → is_tx tx ≡ true → are_numbered own.now ≡ true → IfOk result (λ x. IsReady C.is_of C.can_put C.sets C.spelling object.now.kind op.now.path op.now.act x.0) }
        ensures untouched { TouchesNoDisk result }
    {
        if self.is_down() {
            return Err(DurableError::Down);
        }
        let made = self.tables.update(alloc, tx, s, object, own, op)?;
        Ok(made)
    }

    /// What `update` does of an operation that fits the object's kind, for whoever has tested that.
    ///
    /// # Errors
    ///
    /// As those of `update`, without `BadOp`.
    pub fn update_fitting(
        &mut self,
        alloc: Global,
        tx: TxId,
        s: &VTime,
        object: &ObjectId,
        own: &[Upd<C::Effect>],
        op: &Op,
    ) -> Result<(C::Effect, Option<u64>), DurableError>
        requires has { C.has object.now.kind ≡ true }
        requires width { length s.now ≡ self.old.tables.sites }
        requires fits { fits_kind C.too_deep object.now op.now ≡ true }
        ensures answers { (index : ℕ) → CallsOn (kinds_of C.laws) (codec_of C.spells) D.state self.old self.new Anything (AskUpdate tx s.now object.now own.now op.now) (λ x e. (read : List (Part C.Effect)) × (e ≡ Updated tx s.now object.now own.now op.now read (record { object = object.now; index = index; effect = x.0 }) x.1)) result }
        ensures ready { (p : PartState C.Effect) → StandsOn (codec_of C.spells) D.state self.old p → is_tx tx ≡ true → are_numbered own.now ≡ true → IfOk result (λ x. IsReady C.is_of C.can_put C.sets C.spelling object.now.kind op.now.path op.now.act x.0) }
        ensures untouched { TouchesNoDisk result }
    {
        if self.is_down() {
            return Err(DurableError::Down);
        }
        let made = self.tables.update_fitting(alloc, tx, s, object, own, op)?;
        Ok(made)
    }

    /// A message to another site, up to the own bound: all that was committed here above a time that is given, or else
    /// above the end of the last message to that site. It can be put, where each of its parts has an update.
    ///
    /// # Errors
    ///
    /// `Down` and `NoMemory` as `DurableError` says.
    pub fn release(
        &mut self,
        alloc: Global,
        to: u8,
        from: Option<u64>,
    ) -> Result<Message<C::Effect>, DurableError>
        requires { IsOther self.old.tables.sites self.old.tables.id.site to }
        ensures answers { CallsOn (kinds_of C.laws) (codec_of C.spells) D.state self.old self.new Anything (AskMessage to from) (λ m e. (m.to ≡ to) × (e ≡ event.Sent from m)) result }
        ensures ready { (p : PartState C.Effect) → StandsOn (codec_of C.spells) D.state self.old p → IfOk result (λ m. have_updates m.parts ≡ true → can_put_message C.has C.is_of C.can_put m ≡ true) }
        ensures untouched { TouchesNoDisk result }
    {
        if self.is_down() {
            return Err(DurableError::Down);
        }
        let message = self.tables.release(alloc, to, from)?;
        Ok(message)
    }

    /// How far the partition has come with each site: of its own site its own bound, up to which all that commits here
    /// has done so. Takes no memory.
    ///
    /// # Errors
    ///
    /// `Down` as `DurableError` says.
    pub fn report(&self) -> Result<VTime, DurableError>
        ensures answers { CallsOn (kinds_of C.laws) (codec_of C.spells) D.state self.now self.now Anything AskReport (λ b e. e ≡ event.Reported b) result }
        ensures fed { TakesNoMemory result }
        ensures untouched { TouchesNoDisk result }
    {
        if self.is_down() {
            return Err(DurableError::Down);
        }
        Ok(self.tables.report())
    }

    /// Takes in what a partition of its site, numbered from 1, reported. Answers how far all of them have come with
    /// each site, as this one knows. Takes no memory.
    ///
    /// # Errors
    ///
    /// `Down` as `DurableError` says.
    pub fn hear(&mut self, part: u8, bounds: &VTime) -> Result<VTime, DurableError>
        requires least { 1 ≤ part }
        requires most { part ≤ self.old.tables.parts }
        requires width { length bounds.now ≡ self.old.tables.sites }
        ensures answers { (number : ℕ) → CallsOn (kinds_of C.laws) (codec_of C.spells) D.state self.old self.new Anything (AskHear number part bounds.now) (λ stable e. e ≡ event.Heard number part bounds.now stable) result }
        ensures fed { TakesNoMemory result }
        ensures untouched { TouchesNoDisk result }
    {
        if self.is_down() {
            return Err(DurableError::Down);
        }
        Ok(self.tables.hear(part, bounds))
    }

    /// What the partition tells of a transaction of its site: at its lead this is its fate.
    pub fn fate(&self, tx: TxId) -> Fate
        requires { tx.site ≡ self.now.tables.id.site }
        ensures { (p : PartState C.Effect) → StandsOn (codec_of C.spells) D.state self.now p → fate_told result ≡ fate_of p tx }
    {
        if self.is_down() {
            return Fate::Down;
        }
        self.tables.fate(tx)
    }
}
