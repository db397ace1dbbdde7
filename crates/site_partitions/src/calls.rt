ghost use Rattle.std.specs.Prelude.{◌≡◌, ◌≤◌, ◌+◌, ℕ, List, true};
ghost use Rattle.crdt_core.specs.declared.record.Part.{Part};
ghost use Rattle.crdt_core.specs.KindsOf.{fits_kind};
ghost use Rattle.crdt_core.specs.Log.{end_of_time};
ghost use Rattle.world_model.specs.rules.Event.{led_by, AskTick, AskBegin, AskRead, AskUpdate, AskPrepare, AskDecide, AskFinish, AskAbort, AskMessage, AskTake, AskReport, AskHear, Ticked, Began, Updated, Decided, Finished, Aborted, Sent, Took, Reported, Heard};
ghost use Rattle.world_model.specs.lines.Lines.{wish_of};
ghost use Rattle.world_model.specs.rules.Event as event;
ghost use Rattle.world_model.specs.lines.Places.{IsOther};
ghost use Rattle.world_model.specs.lines.Places.{IsPlace};
ghost use Rattle.world_model.specs.rules.Plan.{update_count};
ghost use Rattle.partition_core.specs.Untouched.{TakesNoMemory, TouchesNoDisk};
ghost use Rattle.site_partitions.specs.Reaches.{types_of, MayAsk, HasBegun};
ghost use Rattle.site_partitions.specs.Answers.{Any, Calls};

use crate::Sites;
use crate::sites::index_of;
use crdt_core::{Crdt, Message, ObjectId, Op, Upd, UpdateList, Value};
use disk_core::Disk;
use partition_core::DurableError;
use site_vector::{PartId, TxId, VTime};
use world_model::Mode;

impl<C: Crdt, D: Disk + Drop> Sites<C, D> {
    /// The clock of a partition reads a time, at most 2^62, and shows it unless it shows a later one. Answers what it
    /// shows. Takes no memory.
    ///
    /// # Errors
    ///
    /// As the partition's: `Down`, `Full`, `Disk`.
    pub fn tick_at(&mut self, at: PartId, clock_time: u64) -> Result<u64, DurableError>
        requires place { IsPlace self.old.sites self.old.parts at }
        requires clock_time { clock_time ≤ end_of_time }
        ensures answers { Calls (types_of C.laws C.spells D.state) self.old self.new Any at (AskTick clock_time) (λ n e. e ≡ Ticked clock_time n) result }
        ensures fed { TakesNoMemory result }
    {
        let i = index_of(at, self.sites, self.parts);
        self.partitions[i].tick(clock_time)
    }

    /// Begins a transaction of a session that depends on these times, as the mode says: its id, and its snapshot. Takes no
    /// memory.
    ///
    /// # Errors
    ///
    /// As the partition's: `StableBehind`, `ClockAtEnd`; `Down`, `Full`, `Disk`.
    pub fn begin_at(
        &mut self,
        at: PartId,
        dependency: &VTime,
        mode: Mode,
    ) -> Result<(TxId, VTime), DurableError>
        requires { (who : List ℕ) × MayAsk (types_of C.laws C.spells D.state) self.old at (AskBegin who (wish_of dependency.now mode)) }
        ensures answers { (who : List ℕ) → Calls (types_of C.laws C.spells D.state) self.old self.new Any at (AskBegin who (wish_of dependency.now mode)) (λ x e. e ≡ Began who (wish_of dependency.now mode) x.0 x.1) result }
        ensures fed { TakesNoMemory result }
    {
        let i = index_of(at, self.sites, self.parts);
        self.partitions[i].begin(dependency, mode)
    }

    /// What an object shows under a transaction's snapshot, with the transaction's own earlier updates of it.
    ///
    /// # Errors
    ///
    /// As the partition's: `ClockBehind`, `TxPending`; `Down`, `NoMemory`.
    pub fn read_at(
        &mut self,
        at: PartId,
        tx: TxId,
        s: &VTime,
        object: &ObjectId,
        own: &[Upd<C::Effect>],
    ) -> Result<Value, DurableError>
        requires has { C.has object.now.kind ≡ true }
        requires may { MayAsk (types_of C.laws C.spells D.state) self.old at (AskRead tx s.now object.now own.now) }
        ensures answers { Calls (types_of C.laws C.spells D.state) self.old self.new Any at (AskRead tx s.now object.now own.now) (λ v e. (read : List (Part C.Effect)) × (e ≡ event.Read tx s.now object.now own.now read v)) result }
        ensures untouched { TouchesNoDisk result }
    {
        let i = index_of(at, self.sites, self.parts);
        self.partitions[i].read(self.alloc, tx, s, object, own)
    }

    /// The effect of an operation that fits the object's kind, as the transaction's update with this number, from 1 to
    /// 256; and its stamp, if its kind has stamps.
    ///
    /// # Errors
    ///
    /// As the partition's: `ClockBehind`, `TxPending`; `Down`, `NoMemory`.
    pub fn update_at(
        &mut self,
        at: PartId,
        tx: TxId,
        s: &VTime,
        object: &ObjectId,
        own: &[Upd<C::Effect>],
        op: &Op,
        index: u16,
    ) -> Result<(C::Effect, Option<u64>), DurableError>
        requires has { C.has object.now.kind ≡ true }
        requires fits { fits_kind C.too_deep object.now op.now ≡ true }
        requires least { 1 ≤ index }
        requires most { index ≤ 256 }
        requires may { MayAsk (types_of C.laws C.spells D.state) self.old at (AskUpdate tx s.now object.now own.now op.now) }
        ensures answers { Calls (types_of C.laws C.spells D.state) self.old self.new (λ run. index ≡ update_count run tx + 1) at (AskUpdate tx s.now object.now own.now op.now) (λ x e. (read : List (Part C.Effect)) × (e ≡ Updated tx s.now object.now own.now op.now read (record { object = object.now; index = index; effect = x.0 }) x.1)) result }
        ensures untouched { TouchesNoDisk result }
    {
        let i = index_of(at, self.sites, self.parts);
        self.partitions[i].update_fitting(self.alloc, tx, s, object, own, op)
    }

    /// Asks for a vote: the transaction's updates at this partition, and the number of its lead. Answers the prepare
    /// time.
    ///
    /// # Errors
    ///
    /// As the partition's: `ClockBehind`, `ClockAtEnd`; `Down`, `Full`, `Disk`, `NoMemory`.
    pub fn prepare_at(
        &mut self,
        at: PartId,
        tx: TxId,
        s: &VTime,
        lead: u8,
        updates: &UpdateList<C::Effect>,
    ) -> Result<u64, DurableError>
        requires { MayAsk (types_of C.laws C.spells D.state) self.old at (AskPrepare tx s.now (led_by lead) updates.now) }
        ensures { Calls (types_of C.laws C.spells D.state) self.old self.new Any at (AskPrepare tx s.now (led_by lead) updates.now) (λ n e. e ≡ event.Prepared tx s.now (led_by lead) updates.now n) result }
    {
        let i = index_of(at, self.sites, self.parts);
        self.partitions[i].prepare(self.alloc, tx, s, lead, updates)
    }

    /// Asks the lead to decide, with the commit vector. Takes no memory.
    ///
    /// # Errors
    ///
    /// `Gone` exactly where the transaction is neither pending nor committed there; `Down`, `Full`, `Disk`.
    pub fn decide_at(&mut self, at: PartId, tx: TxId, c: &VTime) -> Result<(), DurableError>
        requires { MayAsk (types_of C.laws C.spells D.state) self.old at (AskDecide tx c.now) }
        ensures answers { Calls (types_of C.laws C.spells D.state) self.old self.new Any at (AskDecide tx c.now) (λ n e. e ≡ Decided tx c.now) result }
        ensures fed { TakesNoMemory result }
    {
        let i = index_of(at, self.sites, self.parts);
        self.partitions[i].decide(tx, c)
    }

    /// Asks a participant to finish a decided transaction. Takes no memory.
    ///
    /// # Errors
    ///
    /// `Gone` exactly where the transaction is neither pending nor committed there; `Down`, `Full`, `Disk`.
    pub fn finish_at(&mut self, at: PartId, tx: TxId, c: &VTime) -> Result<(), DurableError>
        requires { MayAsk (types_of C.laws C.spells D.state) self.old at (AskFinish tx c.now) }
        ensures answers { Calls (types_of C.laws C.spells D.state) self.old self.new Any at (AskFinish tx c.now) (λ n e. e ≡ Finished tx c.now) result }
        ensures fed { TakesNoMemory result }
    {
        let i = index_of(at, self.sites, self.parts);
        self.partitions[i].finish(tx, c)
    }

    /// Asks a partition to abort, on the word of the transaction's session. Takes no memory.
    ///
    /// # Errors
    ///
    /// `Gone` exactly where the transaction isn't pending there; `Down`, `Full`, `Disk`.
    pub fn abort_at(&mut self, at: PartId, tx: TxId) -> Result<(), DurableError>
        requires began { HasBegun (types_of C.laws C.spells D.state) self.old tx }
        requires may { MayAsk (types_of C.laws C.spells D.state) self.old at (AskAbort tx) }
        ensures answers { Calls (types_of C.laws C.spells D.state) self.old self.new Any at (AskAbort tx) (λ n e. e ≡ Aborted tx true) result }
        ensures fed { TakesNoMemory result }
    {
        let i = index_of(at, self.sites, self.parts);
        self.partitions[i].abort(tx)
    }

    /// Makes a message for another site: all that was committed at the partition above a time that is given, or else
    /// above the end of the last message to that site.
    ///
    /// # Errors
    ///
    /// `Down` and `NoMemory`, as the partition's.
    pub fn release_at(
        &mut self,
        at: PartId,
        to: u8,
        from: Option<u64>,
    ) -> Result<Message<C::Effect>, DurableError>
        requires place { IsOther self.old.sites at.site to }
        requires may { MayAsk (types_of C.laws C.spells D.state) self.old at (AskMessage to from) }
        ensures answers { Calls (types_of C.laws C.spells D.state) self.old self.new Any at (AskMessage to from) (λ m e. (m.to ≡ to) × (e ≡ Sent from m)) result }
        ensures untouched { TouchesNoDisk result }
    {
        let i = index_of(at, self.sites, self.parts);
        self.partitions[i].release(self.alloc, to, from)
    }

    /// Hands on a message that was sent, as one of its sender's. Its number among these is the caller's alone.
    ///
    /// # Errors
    ///
    /// As the partition's: `Gap`, `Repeat`; `Down`, `Full`, `Disk`, `NoMemory`.
    pub fn take_at(&mut self, at: PartId, message: &Message<C::Effect>) -> Result<(), DurableError>
        requires { (number : ℕ) × MayAsk (types_of C.laws C.spells D.state) self.old at (AskTake number message.now) }
        ensures { (number : ℕ) → Calls (types_of C.laws C.spells D.state) self.old self.new Any at (AskTake number message.now) (λ n e. e ≡ Took number message.now) result }
    {
        let i = index_of(at, self.sites, self.parts);
        self.partitions[i].take(self.alloc, message)
    }

    /// Asks a partition for its bounds: how far it has come with each site.
    ///
    /// # Errors
    ///
    /// `Down`, as the partition's.
    pub fn report_at(&self, at: PartId) -> Result<VTime, DurableError>
        requires { IsPlace self.now.sites self.now.parts at }
        ensures answers { Calls (types_of C.laws C.spells D.state) self.now self.now Any at AskReport (λ b e. e ≡ Reported b) result }
        ensures fed { TakesNoMemory result }
        ensures untouched { TouchesNoDisk result }
    {
        let i = index_of(at, self.sites, self.parts);
        self.partitions[i].report()
    }

    /// Hands on a report of the partition `part` of the site. Its number among its maker's is the caller's alone.
    /// Answers how far all partitions of the site have come with each site, as this one knows.
    ///
    /// # Errors
    ///
    /// `Down`, as the partition's.
    pub fn hear_at(&mut self, at: PartId, part: u8, bounds: &VTime) -> Result<VTime, DurableError>
        requires { (number : ℕ) × MayAsk (types_of C.laws C.spells D.state) self.old at (AskHear number part bounds.now) }
        ensures answers { (number : ℕ) → Calls (types_of C.laws C.spells D.state) self.old self.new Any at (AskHear number part bounds.now) (λ stable e. e ≡ Heard number part bounds.now stable) result }
        ensures fed { TakesNoMemory result }
        ensures untouched { TouchesNoDisk result }
    {
        let i = index_of(at, self.sites, self.parts);
        self.partitions[i].hear(part, bounds)
    }
}
