// What a partition makes durable before it counts it.
ghost use Rattle.std.specs.Prelude.{◌≡◌, ◌≢◌, ◌≤◌, ◌<◌, ◌+◌, ◌++◌, [], ◌∷◌, ℕ, List, true, false, length, Err, IfOk, IfErr, MatchResult};
ghost use Rattle.site_vector.specs.declared.ids.TxId.{TxId};
ghost use Rattle.site_vector.specs.Vector.{entry};
ghost use Rattle.crdt_core.specs.declared.record.Message.{Message};
ghost use Rattle.crdt_core.specs.declared.record.Record.TheVariants.{Prepare};
ghost use Rattle.crdt_core.specs.declared.record.Upd.{Upd};
ghost use Rattle.crdt_core.specs.KindsOf.{kinds_of};
ghost use Rattle.crdt_core.specs.Log.{end_of_time};
ghost use Rattle.crdt_core.specs.Parts.{above, lists};
ghost use Rattle.gate_log.specs.Logs.{IsReady, is_closed};
ghost use Rattle.gate_log.specs.declared.error.AppendError.TheVariants.{NoMemory as OutOfMemory};
ghost use Rattle.log_records.specs.Messages.{can_put_message};
ghost use Rattle.log_records.specs.Records.{can_put_record};
ghost use Rattle.partition_log.specs.Appends.{Appends};
ghost use Rattle.partition_log.specs.Codec.{codec_of};
ghost use Rattle.partition_log.specs.Gates.{gates_of, leases};
ghost use Rattle.prepared_table.specs.declared.entry.Entry.{Entry};
ghost use Rattle.world_model.specs.rules.Event.{Ballot, led_by, AskPrepare, AskTake};
ghost use Rattle.world_model.specs.rules.Event as event;
ghost use Rattle.world_model.specs.rules.Partition.{batch_of};
ghost use Rattle.partition_core.specs.Answers.{cause};
ghost use Rattle.partition_core.specs.Leases.{lease_at};
ghost use Rattle.partition_core.specs.Messages.{AreApart, AreWideParts};
ghost use Rattle.partition_core.specs.Steps.{Anything, NamesNowhere, Steps};
ghost use Rattle.partition_core.specs.Tables.{knows};

use crate::clock::{END_OF_TIME, show};
use crate::commit::promise;
use crate::stream::{make_room, put_all};
use crate::{Partition, Refusal};
use crdt_core::{Crdt, Message, Record, UpdateList};
use disk_core::Disk;
use gate_log::AppendError;
use partition_log::PartLog;
use prepared_table::Entry;
use repl_stream::cut_at;
use site_vector::{TxId, VTime};
use std::alloc::Global;

/// Makes a lease durable, if one is wanted.
pub(crate) fn keep_lease<C: Crdt, D: Disk + Drop>(
    log: &mut PartLog<C, D>,
    wanted: Option<u64>,
) -> Result<(), AppendError>
    requires ready { IsReady D.state (gates_of log.old) }
    requires open { is_closed (gates_of log.old) ≡ false }
    ensures appends { Appends (codec_of C.spells) D.state result (gates_of log.old) (gates_of log.new) (leases wanted) }
    ensures fed { result ≢ Err OutOfMemory }
{
    match wanted {
        Some(ceiling) => log.lease(ceiling),
        None => Ok(()),
    }
}

/// Makes what a message brings durable, if it brings anything.
fn keep_batch<C: Crdt, D: Disk + Drop>(
    alloc: Global,
    log: &mut PartLog<C, D>,
    news: &Message<C::Effect>,
) -> Result<(), AppendError>
    requires fit { can_put_message C.has C.is_of C.can_put news.now ≡ true }
    requires ready { IsReady D.state (gates_of log.old) }
    requires open { is_closed (gates_of log.old) ≡ false }
    ensures { Appends (codec_of C.spells) D.state result (gates_of log.old) (gates_of log.new) (batch_of news.now news.now.lo news.now.parts) }
{
    if news.parts.as_slice().is_empty() {
        return Ok(());
    }
    log.batch(alloc, news)
}

/// The entry of a vote's record.
fn entry_of<E: Drop>(vote: Record<E>) -> Entry<E>
    requires { (x : Entry E) × (vote ≡ Prepare x.tx x.lead x.time x.s x.updates) }
    ensures { vote ≡ Prepare result.tx result.lead result.time result.s result.updates }
{
    match vote {
        Record::Prepare {
            tx,
            lead,
            time,
            s,
            updates,
        } => Entry {
            tx,
            lead,
            time,
            s,
            updates,
        },
        _ => unreachable!(),
    }
}

impl<C: Crdt> Partition<C> {
    /// The time of a vote now, under a transaction's snapshot.
    ///
    /// # Errors
    ///
    /// `ClockBehind` where the clock hasn't reached the snapshot, with what it shows; else `ClockAtEnd` where it shows
    /// 2^62.
    pub(crate) fn vote_time(&self, s: &VTime) -> Result<u64, Refusal>
        requires width { length s.now ≡ self.now.sites }
        ensures reached { IfOk result (λ n. entry s.now self.now.id.site ≤ self.now.clock) }
        ensures next { IfOk result (λ n. n ≡ self.now.clock + 1) }
        ensures early { IfOk result (λ n. self.now.clock < end_of_time) }
        ensures refused { (tx : TxId) (ballot : Ballot) (updates : List (Upd C.Effect)) → IfErr result (λ why. Steps (kinds_of C.laws) self.now (NamesNowhere tx) (λ e. e ≡ event.Refused (AskPrepare tx s.now ballot updates) (cause why)) self.now) }
    {
        let at = self.clock.now();
        if at < s.get(self.id.site) {
            return Err(Refusal::ClockBehind { at });
        }
        if at == END_OF_TIME {
            return Err(Refusal::ClockAtEnd);
        }
        Ok(at + 1)
    }

    /// Votes for a transaction at a time, once its record is durable. Takes all the memory that its commit will need.
    ///
    /// # Errors
    ///
    /// As `PartLog::prepare`: the partition is as before.
    pub(crate) fn prepare_in<D: Disk + Drop>(
        &mut self,
        alloc: Global,
        log: &mut PartLog<C, D>,
        tx: TxId,
        s: &VTime,
        lead: u8,
        time: u64,
        updates: &UpdateList<C::Effect>,
    ) -> Result<(), AppendError>
        requires place { tx.site ≡ self.old.id.site }
        requires width { length s.now ≡ self.old.sites }
        requires unknown { knows self.old tx ≡ false }
        requires reached { entry s.now self.old.id.site ≤ self.old.clock }
        requires next { time ≡ self.old.clock + 1 }
        requires early { self.old.clock < end_of_time }
        requires fit { can_put_record C.has C.is_of C.can_put (Prepare tx lead time s.now updates.now) ≡ true }
        requires ready { IsReady D.state (gates_of log.old) }
        ensures tables { MatchResult result (λ _. Steps (kinds_of C.laws) self.old (NamesNowhere tx) (λ e. e ≡ event.Prepared tx s.now (led_by lead) updates.now time) self.new) (λ _. self.new ≡ self.old) }
        ensures appends { Appends (codec_of C.spells) D.state result (gates_of log.old) (gates_of log.new) (lease_at self.old.ceiling time ++ Prepare tx lead time s.now updates.now ∷ []) }
    {
        let Ok(promised) = promise(
            &mut self.prepared,
            &mut self.store,
            self.promised,
            updates.as_slice().len(),
        ) else {
            return Err(AppendError::NoMemory);
        };
        let Ok(updates) = updates.share() else {
            return Err(AppendError::NoMemory);
        };
        let vote = Record::Prepare {
            tx,
            lead,
            time,
            s: *s,
            updates,
        };
        log.prepare(alloc, self.clock.wants(time), &vote)?;
        show(&mut self.clock, time);
        self.prepared.add(entry_of(vote));
        self.promised = promised;
        Ok(())
    }

    /// Whether a message brings anything above the bound that the partition has of its site.
    ///
    /// # Errors
    ///
    /// `Gap` where the message starts above the bound, with the bound; else `Repeat` where it ends at or below it, with
    /// the bound.
    pub(crate) fn may_take(&self, message: &Message<C::Effect>) -> Result<(), Refusal>
        requires least { 1 ≤ message.now.from }
        requires most { message.now.from ≤ self.now.sites }
        ensures low { IfOk result (λ _. message.now.lo ≤ entry self.now.bounds message.now.from) }
        ensures high { IfOk result (λ _. entry self.now.bounds message.now.from < message.now.hi) }
        ensures refused { (number : ℕ) → IfErr result (λ why. Steps (kinds_of C.laws) self.now Anything (λ e. e ≡ event.Refused (AskTake number message.now) (cause why)) self.now) }
    {
        let have = self.bounds.get(message.from);
        if have < message.lo {
            return Err(Refusal::Gap { have });
        }
        if message.hi <= have {
            return Err(Refusal::Repeat { have });
        }
        Ok(())
    }

    /// Takes a message, once what it brings is durable.
    ///
    /// # Errors
    ///
    /// As `PartLog::batch`: the partition is as before.
    pub(crate) fn take_in<D: Disk + Drop>(
        &mut self,
        alloc: Global,
        log: &mut PartLog<C, D>,
        message: &Message<C::Effect>,
    ) -> Result<(), AppendError>
        requires least { 1 ≤ message.now.from }
        requires most { message.now.from ≤ self.old.sites }
        requires wide { AreWideParts self.old.sites message.now.parts }
        requires apart { AreApart message.now.parts }
        requires away { (u : TxId) → lists message.now.parts u ≡ true → u.site ≢ self.old.id.site }
        requires not_held { (u : TxId) → lists (above message.now.from (entry self.old.bounds message.now.from) message.now.parts) u ≡ true → lists self.old.held u ≡ false }
        requires low { message.now.lo ≤ entry self.old.bounds message.now.from }
        requires high { entry self.old.bounds message.now.from < message.now.hi }
        requires fit { can_put_message C.has C.is_of C.can_put message.now ≡ true }
        requires ready { IsReady D.state (gates_of log.old) }
        requires open { is_closed (gates_of log.old) ≡ false }
        ensures tables { (number : ℕ) → MatchResult result (λ _. Steps (kinds_of C.laws) self.old Anything (λ e. e ≡ event.Took number message.now) self.new) (λ _. self.new ≡ self.old) }
        ensures appends { Appends (codec_of C.spells) D.state result (gates_of log.old) (gates_of log.new) (batch_of message.now (entry self.old.bounds message.now.from) (above message.now.from (entry self.old.bounds message.now.from) message.now.parts)) }
    {
        let have = self.bounds.get(message.from);
        let Ok(news) = cut_at::<C>(alloc, message, have) else {
            return Err(AppendError::NoMemory);
        };
        let pending = self.prepared.entries().len();
        let parts = news.parts.as_slice();
        let Ok(_) = make_room(&mut self.store, pending, self.promised, parts) else {
            return Err(AppendError::NoMemory);
        };
        keep_batch(alloc, log, &news)?;
        put_all(&mut self.store, news.parts.into_vec());
        self.bounds = self.bounds.with(message.from, message.hi);
        Ok(())
    }
}
