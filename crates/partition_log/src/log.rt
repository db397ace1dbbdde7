ghost use Rattle.std.specs.Prelude.{◌≡◌, ◌≢◌, ◌⊎◌, ◌++◌, ◌∷◌, [], List, ℕ, true, false, Err, IsTrue, Some, IfOk, IfErr, OnOk, OnErr, MatchResult};
ghost use Rattle.gate_log.specs.declared.error.AppendError.TheVariants.{NoMemory as OutOfMemory};
ghost use Rattle.crdt_core.specs.Spelled.{is_tx};
ghost use Rattle.crdt_core.specs.declared.record.Record.{Record};
ghost use Rattle.crdt_core.specs.declared.record.Record.TheVariants.{Lease, Decide, Finish, Abort, Batch};
ghost use Rattle.log_records.specs.Messages.{can_put_batch};
ghost use Rattle.log_records.specs.Records.{can_put_record};
ghost use Rattle.partition_log.specs.Codec.{codec_of};
ghost use Rattle.partition_log.specs.Appends.{Appends};
ghost use Rattle.gate_log.specs.Damage.{IsDamagedAt};
ghost use Rattle.gate_log.specs.Payloads.{AreWithin};
ghost use Rattle.partition_log.specs.Logs.{HoldsLog, HoldsFront, LeavesFront, HasRecords, IsOpened};
ghost use Rattle.partition_log.specs.Damage.{AreRecords, IsRefusedAt};
ghost use Rattle.disk_core.specs.States.{GoesOn, Fails, Rests, Syncs, bytes_of};
ghost use Rattle.disk_core.specs.Moments.{AtEachMoment};
ghost use Rattle.crdt_core.specs.Log.{MayFind, ceiling};

use crate::append::{append_one, append_two};
use crate::opening::{check_records, last_ceiling};
use crate::payload::{payload_of, payload_of_batch};
use crdt_core::{Crdt, Message, Record};
use disk_core::{Disk, Fused};
use gate_log::{AppendError, GateLog, OpenError, Payloads};
use log_records::Short;
use site_vector::{TxId, VTime};
use std::alloc::Global;
use std::marker::PhantomData;

/// The log of a partition: a list of records on a disk.
///
/// At each moment of a call every crash leaves the list before with the first of the call's records, or none, or all,
/// and once it has answered `Ok` with all.
#[derive(Drop)]
pub struct PartLog<C: Crdt, D: Disk + Drop> {
    log: GateLog<D>,
    kinds: PhantomData<C>,
}

impl<C: Crdt, D: Disk + Drop> PartLog<C, D> {
    ghost use Rattle.gate_log.specs.Logs.{IsReady, disk_of, gate_of, is_closed, read_at_opening};
    ghost use Rattle.gate_log.specs.Rest.{Lowers};
    ghost use Rattle.gate_log.specs.declared.error.OpenError.TheVariants.{Failed as OpenFailed, Damaged};
    ghost use Rattle.partition_log.specs.Gates.{gates_of, leases};

    /// Opens the log that a disk holds: makes all of it durable, and reads its payloads. Whether they are records
    /// `record_at` tells, or `check`. An `Err` hands the disk back.
    ///
    /// # Errors
    ///
    /// `Failed` where the disk fails, `Damaged` exactly where its bytes are no log of payloads, and `NoMemory` where
    /// they don't fit the memory.
    pub fn open(alloc: Global, disk: D) -> Result<PartLog<C, D>, (D, OpenError)>
        ensures opened { IfOk result (λ log. IsOpened D.state (D.state disk) (gates_of log)) }
        ensures holds { IfOk result (λ log. IsTrue (D.state disk).tells → (records : List (Record C.Effect))
            → HoldsLog (codec_of C.spells) (bytes_of (D.state disk)) records
            → AreRecords (codec_of C.spells) (read_at_opening (gates_of log)) records
            × HasRecords (codec_of C.spells) D.state (gates_of log) records) }
        ensures ready { IfOk result (λ log. IsReady D.state (gates_of log) × (is_closed (gates_of log) ≡ false)) }
        ensures damaged { (at : ℕ) → IfErr result (λ e. e.1 ≡ Damaged at → IsTrue (D.state disk).tells
            → IsDamagedAt (bytes_of (D.state disk)) at) }
        ensures failed { IfErr result (λ e. e.1 ≡ OpenFailed → Fails (D.state disk) (D.state e.0)) }
        // All that the disk does is to sync, and that only once.
        ensures synced { IfOk result (λ log. Syncs (D.state disk) (D.state (disk_of (gates_of log)))) }
        ensures synced_err { IfErr result (λ e. Rests (D.state disk) (D.state e.0)
            ⊎ Syncs (D.state disk) (D.state e.0)) }
        ensures goes_on { MatchResult result (λ log. GoesOn (D.state disk) (D.state (disk_of (gates_of log))))
            (λ e. GoesOn (D.state disk) (D.state e.0)) }
        ensures left { MatchResult result (λ log. Lowers 3 (D.state disk).left (D.state (disk_of (gates_of log))).left)
            (λ e. Lowers 3 (D.state disk).left (D.state e.0).left) }
        ensures unfired { IfOk result (λ log. (D.state (disk_of (gates_of log))).left ≢ Some 0) }
    {
        match GateLog::open(alloc, disk) {
            Err(refused) => Err(refused),
            Ok(log) => Ok(PartLog {
                log,
                kinds: PhantomData,
            }),
        }
    }

    /// Opens the log of its disk again, as `open` does, also where it is closed. What was read before is let go first.
    /// An `Err` leaves the log closed, with nothing read.
    ///
    /// Where every crash leaves a log with the first of some records, or none, or all, as after a call that was cut
    /// off, what is read are the records of such a list, it isn't damaged, and a crash inside the call leaves such a
    /// log too.
    ///
    /// # Errors
    ///
    /// As `open`.
    pub fn reopen(&mut self, alloc: Global) -> Result<(), OpenError>
        ensures opened { OnOk result (IsOpened D.state (D.state (disk_of (gates_of self.old))) (gates_of self.new)) }
        ensures opened_ready { OnOk result (IsReady D.state (gates_of self.new)
            × (is_closed (gates_of self.new) ≡ false)) }
        ensures closed { OnErr result ((is_closed (gates_of self.new) ≡ true)
            × (read_at_opening (gates_of self.new) ≡ [])) }
        ensures ready { IsReady D.state (gates_of self.old) → IsReady D.state (gates_of self.new) }
        ensures damaged { (at : ℕ) → result ≡ Err (Damaged at) → IsTrue (D.state (disk_of (gates_of self.old))).tells
            → IsDamagedAt (bytes_of (D.state (disk_of (gates_of self.old)))) at }
        ensures failed { result ≡ Err OpenFailed
            → Fails (D.state (disk_of (gates_of self.old))) (D.state (disk_of (gates_of self.new))) }
        // All that the disk does is to sync, and that only once.
        ensures synced { OnOk result
            (Syncs (D.state (disk_of (gates_of self.old))) (D.state (disk_of (gates_of self.new)))) }
        ensures synced_err { OnErr result
            (Rests (D.state (disk_of (gates_of self.old))) (D.state (disk_of (gates_of self.new)))
            ⊎ Syncs (D.state (disk_of (gates_of self.old))) (D.state (disk_of (gates_of self.new)))) }
        ensures goes_on { GoesOn (D.state (disk_of (gates_of self.old))) (D.state (disk_of (gates_of self.new))) }
        ensures left { Lowers 3
            (D.state (disk_of (gates_of self.old))).left (D.state (disk_of (gates_of self.new))).left }
        ensures unfired { OnOk result ((D.state (disk_of (gates_of self.new))).left ≢ Some 0) }
        ensures finds { (log torn : List (Record C.Effect))
            → LeavesFront (codec_of C.spells) log torn (D.state (disk_of (gates_of self.old)))
            → OnOk result ((found : List (Record C.Effect)) × MayFind log torn found
            × AreRecords (codec_of C.spells) (read_at_opening (gates_of self.new)) found
            × HasRecords (codec_of C.spells) D.state (gates_of self.new) found) }
        ensures whole { (log torn : List (Record C.Effect))
            → LeavesFront (codec_of C.spells) log torn (D.state (disk_of (gates_of self.old)))
            → (at : ℕ) → result ≢ Err (Damaged at) }
        ensures any_moment { (log torn : List (Record C.Effect))
            → LeavesFront (codec_of C.spells) log torn (D.state (disk_of (gates_of self.old)))
            → AtEachMoment (D.state (disk_of (gates_of self.old))).story (D.state (disk_of (gates_of self.new))).story
            (HoldsFront (codec_of C.spells) log torn) }
    {
        self.log.reopen(alloc)
    }

    /// The payloads that were read at opening, each with its place, in their order.
    pub fn payloads(&self) -> Payloads<'_>
        ensures read { result ≡ read_at_opening (gates_of self.now) }
        ensures within { AreWithin (read_at_opening (gates_of self.now)) }
    {
        self.log.payloads()
    }

    /// Whether the payloads that were read at opening are all records.
    ///
    /// # Errors
    ///
    /// `Damaged` exactly where one is none, with the place of the first, and `NoMemory` where memory runs out.
    pub fn check(&self, alloc: Global) -> Result<(), OpenError>
        ensures records { OnOk result ((log : List (Record C.Effect))
            × AreRecords (codec_of C.spells) (read_at_opening (gates_of self.now)) log) }
        ensures damaged { (at : ℕ) → result ≡ Err (Damaged at)
            → IsRefusedAt (codec_of C.spells) (read_at_opening (gates_of self.now)) at }
        ensures reads { result ≢ Err OpenFailed }
    {
        check_records::<C>(alloc, self.log.payloads())
    }

    /// The ceiling of the last Lease among the payloads that were read at opening, in logical ticks, or 0 where there is
    /// none. What payloads that are no records tell here says nothing. Takes no memory.
    pub fn last_ceiling(&self) -> u64
        ensures { (log : List (Record C.Effect)) → AreRecords (codec_of C.spells) (read_at_opening (gates_of self.now)) log
            → result ≡ ceiling log }
    {
        last_ceiling(self.log.payloads())
    }

    /// Lets go what was read at opening, with its memory, once its records are taken. The log is as before.
    pub fn forget_read(&mut self)
        ensures read { read_at_opening (gates_of self.new) ≡ [] }
        ensures same { (disk_of (gates_of self.new) ≡ disk_of (gates_of self.old))
            × (gate_of (gates_of self.new) ≡ gate_of (gates_of self.old))
            × (is_closed (gates_of self.new) ≡ is_closed (gates_of self.old)) }
        ensures has { (log : List (Record C.Effect))
            → HasRecords (codec_of C.spells) D.state (gates_of self.old) log
            → HasRecords (codec_of C.spells) D.state (gates_of self.new) log }
        ensures ready { IsReady D.state (gates_of self.old) → IsReady D.state (gates_of self.new) }
    {
        self.log.forget_read();
    }

    /// Appends a Lease up to a time. Takes no memory.
    ///
    /// # Errors
    ///
    /// `Full` exactly where the record would pass the room of the disk, and `Closed` exactly where the log is closed:
    /// it is as before. `Failed` only where the disk fails: a crash leaves the list before or that with the record, and
    /// every later append answers `Closed`, until the log is opened again.
    pub fn lease(&mut self, ceil: u64) -> Result<(), AppendError>
        requires { IsReady D.state (gates_of self.old) }
        ensures appends { Appends (codec_of C.spells) D.state result (gates_of self.old) (gates_of self.new) (Lease ceil ∷ []) }
        ensures fed { result ≢ Err OutOfMemory }
    {
        let short = Short::lease::<C>(ceil);
        append_one::<C, D>(&mut self.log, short.as_slice())
    }

    /// Appends a Decide. Takes no memory.
    ///
    /// # Errors
    ///
    /// As `lease`.
    pub fn decide(&mut self, tx: TxId, c: &VTime) -> Result<(), AppendError>
        requires tx { is_tx tx ≡ true }
        requires ready { IsReady D.state (gates_of self.old) }
        ensures appends { Appends (codec_of C.spells) D.state result (gates_of self.old) (gates_of self.new) (Decide tx c.now ∷ []) }
        ensures fed { result ≢ Err OutOfMemory }
    {
        let short = Short::decide::<C>(tx, c);
        append_one::<C, D>(&mut self.log, short.as_slice())
    }

    /// Appends a Finish. Takes no memory.
    ///
    /// # Errors
    ///
    /// As `lease`.
    pub fn finish(&mut self, tx: TxId, c: &VTime) -> Result<(), AppendError>
        requires tx { is_tx tx ≡ true }
        requires ready { IsReady D.state (gates_of self.old) }
        ensures appends { Appends (codec_of C.spells) D.state result (gates_of self.old) (gates_of self.new) (Finish tx c.now ∷ []) }
        ensures fed { result ≢ Err OutOfMemory }
    {
        let short = Short::finish::<C>(tx, c);
        append_one::<C, D>(&mut self.log, short.as_slice())
    }

    /// Appends an Abort. Takes no memory.
    ///
    /// # Errors
    ///
    /// As `lease`.
    pub fn abort(&mut self, tx: TxId) -> Result<(), AppendError>
        requires tx { is_tx tx ≡ true }
        requires ready { IsReady D.state (gates_of self.old) }
        ensures appends { Appends (codec_of C.spells) D.state result (gates_of self.old) (gates_of self.new) (Abort tx ∷ []) }
        ensures fed { result ≢ Err OutOfMemory }
    {
        let short = Short::abort::<C>(tx);
        append_one::<C, D>(&mut self.log, short.as_slice())
    }

    /// Appends a Lease, where a ceiling is given, and then a record. Takes all its memory first.
    ///
    /// # Errors
    ///
    /// `NoMemory` where memory runs out, or where a list has 2^32 members or more: nothing is written then. Else as
    /// `lease`; `Full` exactly where both records together would pass the room.
    pub fn prepare(
        &mut self,
        alloc: Global,
        ceil: Option<u64>,
        prepare: &Record<C::Effect>,
    ) -> Result<(), AppendError>
        requires fit { can_put_record C.has C.is_of C.can_put prepare.now ≡ true }
        requires ready { IsReady D.state (gates_of self.old) }
        ensures { Appends (codec_of C.spells) D.state result (gates_of self.old) (gates_of self.new) (leases ceil ++ prepare.now ∷ []) }
    {
        let Ok(payload) = payload_of::<C>(alloc, prepare) else {
            return Err(AppendError::NoMemory);
        };
        match ceil {
            None => append_one::<C, D>(&mut self.log, &payload),
            Some(ceil) => {
                let short = Short::lease::<C>(ceil);
                append_two::<C, D>(&mut self.log, short.as_slice(), &payload)
            }
        }
    }

    /// Appends the Batch of a message that has parts. Takes all its memory first.
    ///
    /// # Errors
    ///
    /// `NoMemory` where memory runs out, or where a list has 2^32 members or more: nothing is written then. Else as
    /// `lease`.
    pub fn batch(&mut self, alloc: Global, message: &Message<C::Effect>) -> Result<(), AppendError>
        requires fit { can_put_batch C.has C.is_of C.can_put message.now ≡ true }
        requires ready { IsReady D.state (gates_of self.old) }
        ensures { Appends (codec_of C.spells) D.state result (gates_of self.old) (gates_of self.new) (Batch message.now ∷ []) }
    {
        let Ok(payload) = payload_of_batch::<C>(alloc, message) else {
            return Err(AppendError::NoMemory);
        };
        append_one::<C, D>(&mut self.log, &payload)
    }

    /// The disk.
    pub fn close(self) -> D
        ensures { result ≡ disk_of (gates_of self) }
    {
        self.log.close()
    }

    /// Whether an append failed since the log was opened.
    pub fn is_closed(&self) -> bool
        ensures { result ≡ is_closed (gates_of self.now) }
    {
        self.log.is_closed()
    }

    /// Whether a call of the disk failed because it found no memory to grow.
    pub fn starved(&self) -> bool
        ensures { result ≡ (D.state (disk_of (gates_of self.now))).starved }
    {
        self.log.starved()
    }
}

impl<C: Crdt, D: Disk + Drop> PartLog<C, Fused<D>> {
    ghost use Rattle.std.specs.Prelude.{None};
    ghost use Rattle.disk_core.specs.Fuses.{inside, calls_left, cut_length, fused_state};
    ghost use Rattle.gate_log.specs.Logs.{disk_of, gate_of, is_closed, read_at_opening, IsReady};
    ghost use Rattle.partition_log.specs.Gates.{gates_of};

    /// Arms the fuse of the disk, also where the log is closed, and changes nothing else.
    pub fn arm(&mut self, k: u64, keep: u64)
        ensures inside { inside (disk_of (gates_of self.new)) ≡ inside (disk_of (gates_of self.old)) }
        ensures keep { cut_length (disk_of (gates_of self.new)) ≡ keep }
        ensures state { fused_state D.state (disk_of (gates_of self.new))
            ≡ record (fused_state D.state (disk_of (gates_of self.old))) { left = Some k; keep = keep } }
        ensures has { (log : List (Record C.Effect)) → HasRecords (codec_of C.spells) (fused_state D.state) (gates_of self.old) log
            → HasRecords (codec_of C.spells) (fused_state D.state) (gates_of self.new) log }
        ensures ready { IsReady (fused_state D.state) (gates_of self.old) → IsReady (fused_state D.state) (gates_of self.new) }
        ensures same { (gate_of (gates_of self.new) ≡ gate_of (gates_of self.old)) × (is_closed (gates_of self.new) ≡ is_closed (gates_of self.old))
            × (read_at_opening (gates_of self.new) ≡ read_at_opening (gates_of self.old)) }
    {
        self.log.arm(k, keep);
    }

    /// Takes the fuse of the disk away where it has fired, also where the log is closed, and changes nothing else.
    pub fn revive(&mut self)
        ensures inside { inside (disk_of (gates_of self.new)) ≡ inside (disk_of (gates_of self.old)) }
        ensures fired { calls_left (disk_of (gates_of self.old)) ≡ Some 0
            → fused_state D.state (disk_of (gates_of self.new)) ≡ record (fused_state D.state (disk_of (gates_of self.old))) { left = None } }
        ensures burning { calls_left (disk_of (gates_of self.old)) ≢ Some 0 → gates_of self.new ≡ gates_of self.old }
        ensures has { (log : List (Record C.Effect)) → HasRecords (codec_of C.spells) (fused_state D.state) (gates_of self.old) log
            → HasRecords (codec_of C.spells) (fused_state D.state) (gates_of self.new) log }
        ensures ready { IsReady (fused_state D.state) (gates_of self.old) → IsReady (fused_state D.state) (gates_of self.new) }
        ensures same { (gate_of (gates_of self.new) ≡ gate_of (gates_of self.old)) × (is_closed (gates_of self.new) ≡ is_closed (gates_of self.old))
            × (read_at_opening (gates_of self.new) ≡ read_at_opening (gates_of self.old)) }
    {
        self.log.revive();
    }
}
