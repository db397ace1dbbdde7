ghost use Rattle.std.specs.Prelude.{◌≡◌, ◌≢◌, ◌+◌, ◌≤◌, ◌||◌, ℕ, Bool, true, false, List, Option, Some, None, IfOk, IfErr};
ghost use Rattle.crdt_core.specs.KindsOf.{kinds_of, fits_kind};
ghost use Rattle.crdt_core.specs.Log.{end_of_time};
ghost use Rattle.site_vector.specs.declared.ids.PartId.{PartId as Place};
ghost use Rattle.world_model.specs.declared.step.Step.{Step as Line};
ghost use Rattle.world_model.specs.rules.Event.{led_by, AskTick, AskBegin, AskRead, AskUpdate, AskPrepare, AskDecide, AskFinish, AskAbort, AskMessage, AskTake, AskReport, AskHear, Sent, Reported, sent_count, report_count};
ghost use Rattle.world_model.specs.rules.Plan.{update_count};
ghost use Rattle.world_model.specs.rules.Lines.{session_of};
ghost use Rattle.world_model.specs.lines.Lines.{wish_of};
ghost use Rattle.world_model.specs.lines.Places.{IsOther};
ghost use Rattle.site_vector.specs.Vector.{entry};
ghost use Rattle.txn_session.specs.Calls.{Call, entries, IsLegal, IsAllowed, MayCall, GoesOn, Changes, Does, HandsOn, Stays, handed_as};
ghost use Rattle.txn_session.specs.Numbers.{IsLeast, IsNew};
ghost use Rattle.txn_session.specs.Passes.{SeesStill, IsUnborne};
ghost use Rattle.txn_session.specs.Waits.{Later, is_late};

use crate::Clock;
use crate::waits::{lacks_memory, reading_for, settled, settled_update};
use crdt_core::{Crdt, Message, ObjectId, Op, Upd, UpdateList};
use field_codec::Text;
use site_vector::{PartId, TxId, VTime};
use std::alloc::AllocError;
use world_model::{Mode, Step};

/// Partitions that sessions call.
///
/// A pass is what its holder has seen, and the numbers that it calls by; each call takes it and gives it back. A call may be
/// made where some run that the pass has seen allows it. Whatever run the pass has seen that allows it then goes on: by what
/// others did meanwhile, and by the event that the answer shows. Each `AllocError` is want of memory: nothing was asked then.
pub trait Store<C: Crdt> {
    type Pass: Drop;

    /// The pass has seen these calls, the newest first.
    ghost sees: { Self → Self.Pass → List (Call C.Effect) → Type 0 };

    /// The pass holds this number.
    ghost numbers: { Self.Pass → ℕ → Bool };

    /// The numbers of sites, and of partitions of each site.
    ghost sites: { Self → ℕ };

    ghost parts: { Self → ℕ };

    /// The message or report that is this one of its sender's own, counted from 1, is handed on by this number.
    ghost numbered: { ℕ → ℕ → Type 0 };

    /// What a call leaves of the store, whatever others do: a shared one is the same.
    ghost stays: { Self → Self → Type 0 };

    /// What the line of a call of this partition tells of the store before and after it, beside what the pass has seen.
    ghost tells: { Self → Self → Place → Line → Type 0 };

    /// Reads the clock of a partition at `r`.
    fn tick(
        &mut self,
        pass: Self::Pass,
        at: PartId,
        r: u64,
    ) -> (Self::Pass, Result<Step, AllocError>)
        requires clock_time { r ≤ end_of_time }
        requires may { MayCall {E = C.Effect} sees numbers (sites self.old) (parts self.old) self.old pass None at
            (AskTick r) }
        ensures stays { stays self.old self.new }
        ensures same { (n : ℕ) → numbers result.0 n ≡ numbers pass n }
        ensures tells { IfOk result.1 (λ line. tells self.old self.new at line) }
        ensures ok { IfOk result.1 (λ r'. (run : List (Call C.Effect)) → sees self.old pass run →
            GoesOn sees numbers self.new result.0 run None at (AskTick r) r') }
        ensures err { IfErr result.1 (λ e. (run : List (Call C.Effect)) → sees self.old pass run →
            Stays sees numbers self.new result.0 run) };

    /// Begins a transaction of the session `who`, which depends on `dep`, in this mode. The number is the caller's, the least
    /// that its pass holds, for the transaction's later calls.
    fn begin(
        &mut self,
        pass: Self::Pass,
        at: PartId,
        who: &Text,
        dep: &VTime,
        mode: Mode,
    ) -> (Self::Pass, Result<(Step, u64), AllocError>)
        requires may { MayCall sees numbers (sites self.old) (parts self.old) self.old pass None at (AskBegin who.now
            (wish_of dep.now mode)) }
        ensures stays { stays self.old self.new }
        ensures same { (n : ℕ) → numbers result.0 n ≡ numbers pass n }
        ensures tells { IfOk result.1 (λ r. tells self.old self.new at r.0) }
        ensures least { IfOk result.1 (λ r. IsLeast (numbers result.0) r.1) }
        ensures ok { IfOk result.1 (λ r. (run : List (Call C.Effect)) → sees self.old pass run →
            IsAllowed (sites self.old) (parts self.old) run None at (AskBegin who.now (wish_of dep.now mode)) →
            GoesOn sees numbers self.new result.0 run (Some r.1) at (AskBegin who.now (wish_of dep.now mode)) r.0) }
        ensures err { IfErr result.1 (λ e. (run : List (Call C.Effect)) → sees self.old pass run →
            Stays sees numbers self.new result.0 run) };

    /// Reads an object under the snapshot `s`, with the transaction's own earlier updates of it.
    fn read(
        &mut self,
        pass: Self::Pass,
        at: PartId,
        who: &Text,
        by: u64,
        tx: TxId,
        s: &VTime,
        object: &ObjectId,
        own: &[Upd<C::Effect>],
    ) -> (Self::Pass, Result<Step, AllocError>)
        requires has { C.has object.now.kind ≡ true }
        requires may { MayCall sees numbers (sites self.old) (parts self.old) self.old pass (Some by) at (AskRead tx
            s.now object.now own.now) }
        ensures stays { stays self.old self.new }
        ensures same { (n : ℕ) → numbers result.0 n ≡ numbers pass n }
        ensures tells { IfOk result.1 (λ line. (run : List (Call C.Effect)) → sees self.old pass run →
            IsAllowed (sites self.old) (parts self.old) run (Some by) at (AskRead tx s.now object.now own.now) →
            who.now ≡ session_of (entries run) tx → tells self.old self.new at line) }
        ensures ok { IfOk result.1 (λ r. (run : List (Call C.Effect)) → sees self.old pass run →
            IsAllowed (sites self.old) (parts self.old) run (Some by) at (AskRead tx s.now object.now own.now) →
            who.now ≡ session_of (entries run) tx →
            GoesOn sees numbers self.new result.0 run (Some by) at (AskRead tx s.now object.now own.now) r) }
        ensures err { IfErr result.1 (λ e. (run : List (Call C.Effect)) → sees self.old pass run →
            Stays sees numbers self.new result.0 run) };

    /// Makes the effect of an operation, which fits the object's kind, as the transaction's update with this number,
    /// from 1 to 256. The effect is there where the answer is that it was made.
    fn update(
        &mut self,
        pass: Self::Pass,
        at: PartId,
        who: &Text,
        by: u64,
        tx: TxId,
        s: &VTime,
        object: &ObjectId,
        own: &[Upd<C::Effect>],
        op: &Op,
        index: u16,
    ) -> (Self::Pass, Result<(Step, Option<C::Effect>), AllocError>)
        requires has { C.has object.now.kind ≡ true }
        requires fits { fits_kind C.too_deep object.now op.now ≡ true }
        requires least { 1 ≤ index }
        requires most { index ≤ 256 }
        requires may { MayCall sees numbers (sites self.old) (parts self.old) self.old pass (Some by) at (AskUpdate
            tx s.now object.now own.now op.now) }
        ensures stays { stays self.old self.new }
        ensures same { (n : ℕ) → numbers result.0 n ≡ numbers pass n }
        ensures tells { IfOk result.1 (λ r. (run : List (Call C.Effect)) → sees self.old pass run →
            IsAllowed (sites self.old) (parts self.old) run (Some by) at (AskUpdate tx s.now object.now own.now
            op.now) →
            who.now ≡ session_of (entries run) tx → index ≡ update_count (entries run) tx + 1 →
            tells self.old self.new at r.0) }
        ensures ok { IfOk result.1 (λ r. (run : List (Call C.Effect)) → sees self.old pass run →
            IsAllowed (sites self.old) (parts self.old) run (Some by) at (AskUpdate tx s.now object.now own.now
            op.now) →
            who.now ≡ session_of (entries run) tx → index ≡ update_count (entries run) tx + 1 →
            Changes sees numbers self.new result.0 run by at (AskUpdate tx s.now object.now own.now op.now) r.0 r.1) }
        ensures err { IfErr result.1 (λ e. (run : List (Call C.Effect)) → sees self.old pass run →
            Stays sees numbers self.new result.0 run) };

    /// Asks for a vote: the transaction's updates at this partition, and the number of its lead.
    fn prepare(
        &mut self,
        pass: Self::Pass,
        at: PartId,
        by: u64,
        tx: TxId,
        s: &VTime,
        lead: u8,
        updates: &UpdateList<C::Effect>,
    ) -> (Self::Pass, Result<Step, AllocError>)
        requires may { MayCall sees numbers (sites self.old) (parts self.old) self.old pass (Some by) at (AskPrepare
            tx s.now (led_by lead) updates.now) }
        ensures stays { stays self.old self.new }
        ensures same { (n : ℕ) → numbers result.0 n ≡ numbers pass n }
        ensures tells { IfOk result.1 (λ line. tells self.old self.new at line) }
        ensures ok { IfOk result.1 (λ r. (run : List (Call C.Effect)) → sees self.old pass run →
            IsAllowed (sites self.old) (parts self.old) run (Some by) at (AskPrepare tx s.now (led_by lead) updates.now) →
            GoesOn sees numbers self.new result.0 run (Some by) at (AskPrepare tx s.now (led_by lead) updates.now) r) }
        ensures err { IfErr result.1 (λ e. (run : List (Call C.Effect)) → sees self.old pass run →
            Stays sees numbers self.new result.0 run) };

    /// Asks the lead to decide, with the commit vector.
    fn decide(
        &mut self,
        pass: Self::Pass,
        at: PartId,
        by: u64,
        tx: TxId,
        c: &VTime,
    ) -> (Self::Pass, Result<Step, AllocError>)
        requires may { MayCall {E = C.Effect} sees numbers (sites self.old) (parts self.old) self.old pass (Some by)
            at (AskDecide tx c.now) }
        ensures stays { stays self.old self.new }
        ensures same { (n : ℕ) → numbers result.0 n ≡ numbers pass n }
        ensures tells { IfOk result.1 (λ line. tells self.old self.new at line) }
        ensures ok { IfOk result.1 (λ r. (run : List (Call C.Effect)) → sees self.old pass run →
            IsAllowed (sites self.old) (parts self.old) run (Some by) at (AskDecide tx c.now) →
            GoesOn sees numbers self.new result.0 run (Some by) at (AskDecide tx c.now) r) }
        ensures err { IfErr result.1 (λ e. (run : List (Call C.Effect)) → sees self.old pass run →
            Stays sees numbers self.new result.0 run) };

    /// Asks a participant to finish a decided transaction.
    fn finish(
        &mut self,
        pass: Self::Pass,
        at: PartId,
        tx: TxId,
        c: &VTime,
    ) -> (Self::Pass, Result<Step, AllocError>)
        requires may { MayCall {E = C.Effect} sees numbers (sites self.old) (parts self.old) self.old pass None at
            (AskFinish tx c.now) }
        ensures stays { stays self.old self.new }
        ensures same { (n : ℕ) → numbers result.0 n ≡ numbers pass n }
        ensures tells { IfOk result.1 (λ line. tells self.old self.new at line) }
        ensures ok { IfOk result.1 (λ r. (run : List (Call C.Effect)) → sees self.old pass run →
            IsAllowed (sites self.old) (parts self.old) run None at (AskFinish tx c.now) →
            GoesOn sees numbers self.new result.0 run None at (AskFinish tx c.now) r) }
        ensures err { IfErr result.1 (λ e. (run : List (Call C.Effect)) → sees self.old pass run →
            Stays sees numbers self.new result.0 run) };

    /// Asks a participant to abort, on the word of the transaction's session.
    fn abort(
        &mut self,
        pass: Self::Pass,
        at: PartId,
        by: u64,
        tx: TxId,
    ) -> (Self::Pass, Result<Step, AllocError>)
        requires may { MayCall {E = C.Effect} sees numbers (sites self.old) (parts self.old) self.old pass (Some by)
            at (AskAbort tx) }
        ensures stays { stays self.old self.new }
        ensures same { (n : ℕ) → numbers result.0 n ≡ numbers pass n }
        ensures tells { IfOk result.1 (λ line. tells self.old self.new at line) }
        ensures ok { IfOk result.1 (λ r. (run : List (Call C.Effect)) → sees self.old pass run →
            IsAllowed (sites self.old) (parts self.old) run (Some by) at (AskAbort tx) →
            GoesOn sees numbers self.new result.0 run (Some by) at (AskAbort tx) r) }
        ensures err { IfErr result.1 (λ e. (run : List (Call C.Effect)) → sees self.old pass run →
            Stays sees numbers self.new result.0 run) };

    /// Makes a message for another site, from the bound `from` or the last one sent, and the number by which it is handed
    /// on: who numbers messages shows its line. Or answers the line that says why it isn't made.
    fn release(
        &mut self,
        pass: Self::Pass,
        at: PartId,
        to: u8,
        from: Option<u64>,
    ) -> (
        Self::Pass,
        Result<Result<(Message<C::Effect>, u64), Step>, AllocError>,
    )
        requires other { IsOther (sites self.old) at.site to }
        requires may { MayCall sees numbers (sites self.old) (parts self.old) self.old pass None at
            (AskMessage to from) }
        ensures stays { stays self.old self.new }
        ensures same { (n : ℕ) → numbers result.0 n ≡ numbers pass n }
        ensures tells { IfOk result.1 (λ r. IfErr r (λ line. tells self.old self.new at line)) }
        ensures ok { IfOk result.1 (λ r. IfOk r (λ m. m.0.to ≡ to) × ((run : List (Call C.Effect)) →
            sees self.old pass run →
            Does sees numbers sent_count numbered self.new result.0 run at (AskMessage to from) (λ m. Sent from m) r)) }
        ensures err { IfErr result.1 (λ e. (run : List (Call C.Effect)) → sees self.old pass run →
            Stays sees numbers self.new result.0 run) };

    /// Hands on a message, by the number that its making answered. The line bears this number.
    fn take(
        &mut self,
        pass: Self::Pass,
        at: PartId,
        number: u64,
        message: &Message<C::Effect>,
    ) -> (Self::Pass, Result<Step, AllocError>)
        requires may { (own : ℕ) × numbered own number × MayCall sees numbers (sites self.old) (parts self.old)
            self.old pass None at (AskTake own message.now) }
        ensures stays { stays self.old self.new }
        ensures same { (n : ℕ) → numbers result.0 n ≡ numbers pass n }
        ensures tells { IfOk result.1 (λ line. (told : Line) × (line ≡ handed_as number told) × tells self.old self.new at told) }
        ensures ok { IfOk result.1 (λ r. (own : ℕ) → numbered own number → (run : List (Call C.Effect)) →
            sees self.old pass run →
            IsAllowed (sites self.old) (parts self.old) run None at (AskTake own message.now) →
            HandsOn sees numbers self.new result.0 run at (AskTake own message.now) number r) }
        ensures err { IfErr result.1 (λ e. (run : List (Call C.Effect)) → sees self.old pass run →
            Stays sees numbers self.new result.0 run) };

    /// Asks for the bounds of a partition, and the number by which they are handed on: who numbers reports shows their
    /// line. Or answers the line that says why it doesn't tell them.
    fn report(
        &mut self,
        pass: Self::Pass,
        at: PartId,
    ) -> (Self::Pass, Result<Result<(VTime, u64), Step>, AllocError>)
        requires may { MayCall {E = C.Effect} sees numbers (sites self.old) (parts self.old) self.old pass None at
            AskReport }
        ensures stays { stays self.old self.new }
        ensures same { (n : ℕ) → numbers result.0 n ≡ numbers pass n }
        ensures tells { IfOk result.1 (λ r. IfErr r (λ line. tells self.old self.new at line)) }
        ensures ok { IfOk result.1 (λ r. (run : List (Call C.Effect)) → sees self.old pass run →
            Does sees numbers report_count numbered self.new result.0 run at AskReport (λ b. Reported b) r) }
        ensures err { IfErr result.1 (λ e. (run : List (Call C.Effect)) → sees self.old pass run →
            Stays sees numbers self.new result.0 run) };

    /// Hands on the report of the partition `part` of the site, by the number that it was told with. The line bears this
    /// number.
    fn hear(
        &mut self,
        pass: Self::Pass,
        at: PartId,
        number: u64,
        part: u8,
        bounds: &VTime,
    ) -> (Self::Pass, Result<Step, AllocError>)
        requires may { (own : ℕ) × numbered own number × MayCall sees numbers (sites self.old) (parts self.old)
            self.old pass None at (AskHear own part bounds.now) }
        ensures stays { stays self.old self.new }
        ensures same { (n : ℕ) → numbers result.0 n ≡ numbers pass n }
        ensures tells { IfOk result.1 (λ line. (told : Line) × (line ≡ handed_as number told) × tells self.old self.new at told) }
        ensures ok { IfOk result.1 (λ r. (own : ℕ) → numbered own number → (run : List (Call C.Effect)) →
            sees self.old pass run →
            IsAllowed (sites self.old) (parts self.old) run None at (AskHear own part bounds.now) →
            HandsOn sees numbers self.new result.0 run at (AskHear own part bounds.now) number r) }
        ensures err { IfErr result.1 (λ e. (run : List (Call C.Effect)) → sees self.old pass run →
            Stays sees numbers self.new result.0 run) };

    /// As `read`, but where the answer is a wait the partition is told the clock, or time goes by, and it is asked again. A
    /// store that nobody else calls does so once, and only where the clock is behind. After `AllocError` what was told of
    /// the clock stands.
    fn read_wait<K: Clock>(
        &mut self,
        pass: Self::Pass,
        at: PartId,
        who: &Text,
        by: u64,
        tx: TxId,
        s: &VTime,
        object: &ObjectId,
        own: &[Upd<C::Effect>],
        clock: &K,
    ) -> (Self::Pass, Result<Step, AllocError>)
        requires has { C.has object.now.kind ≡ true }
        requires may { (m : MayCall sees numbers (sites self.old) (parts self.old) self.old pass (Some by) at (AskRead tx s.now object.now own.now)) ×
            (who.now ≡ session_of (entries m.run) tx) }
        ensures stays { stays self.old self.new }
        ensures same { (n : ℕ) → numbers result.0 n ≡ numbers pass n }
        ensures ok { IfOk result.1 (λ r. (run : List (Call C.Effect)) → sees self.old pass run →
            IsAllowed (sites self.old) (parts self.old) run (Some by) at (AskRead tx s.now object.now own.now) → who.now ≡ session_of (entries run) tx →
            Later (numbers result.0) (K.shows clock.now) (entry s.now at.site) by at (AskRead tx s.now object.now own.now) (is_late r) (λ whole. GoesOn sees numbers self.new result.0 whole (Some by) at (AskRead tx s.now object.now own.now) r) run) }
        ensures err { IfErr result.1 (λ e. (run : List (Call C.Effect)) → sees self.old pass run →
            IsAllowed (sites self.old) (parts self.old) run (Some by) at (AskRead tx s.now object.now own.now) → who.now ≡ session_of (entries run) tx →
            Later (numbers result.0) (K.shows clock.now) (entry s.now at.site) by at (AskRead tx s.now object.now own.now) false (λ whole. Stays sees numbers self.new result.0 whole) run) }
    {
        let (pass, answer) = self.read(pass, at, who, by, tx, s, object, own);
        match settled(answer) {
            Some(answer) => {
                return (pass, answer);
            }
            None => {}
        }
        let (pass, told) = self.tick(pass, at, reading_for(clock, s, at.site));
        if lacks_memory(told) {
            return (pass, Err(AllocError));
        }
        return self.read(pass, at, who, by, tx, s, object, own);
    }

    /// As `update`, with waits as `read_wait` has them.
    fn update_wait<K: Clock>(
        &mut self,
        pass: Self::Pass,
        at: PartId,
        who: &Text,
        by: u64,
        tx: TxId,
        s: &VTime,
        object: &ObjectId,
        own: &[Upd<C::Effect>],
        op: &Op,
        index: u16,
        clock: &K,
    ) -> (Self::Pass, Result<(Step, Option<C::Effect>), AllocError>)
        requires has { C.has object.now.kind ≡ true }
        requires fits { fits_kind C.too_deep object.now op.now ≡ true }
        requires least { 1 ≤ index }
        requires most { index ≤ 256 }
        requires may { (m : MayCall sees numbers (sites self.old) (parts self.old) self.old pass (Some by) at (AskUpdate tx s.now object.now own.now op.now)) ×
            (who.now ≡ session_of (entries m.run) tx) × (index ≡ update_count (entries m.run) tx + 1) }
        ensures stays { stays self.old self.new }
        ensures same { (n : ℕ) → numbers result.0 n ≡ numbers pass n }
        ensures ok { IfOk result.1 (λ r. (run : List (Call C.Effect)) → sees self.old pass run →
            IsAllowed (sites self.old) (parts self.old) run (Some by) at (AskUpdate tx s.now object.now own.now op.now) → who.now ≡ session_of (entries run) tx → index ≡ update_count (entries run) tx + 1 →
            Later (numbers result.0) (K.shows clock.now) (entry s.now at.site) by at (AskUpdate tx s.now object.now own.now op.now) (is_late r.0) (λ whole. Changes sees numbers self.new result.0 whole by at (AskUpdate tx s.now object.now own.now op.now) r.0 r.1) run) }
        ensures err { IfErr result.1 (λ e. (run : List (Call C.Effect)) → sees self.old pass run →
            IsAllowed (sites self.old) (parts self.old) run (Some by) at (AskUpdate tx s.now object.now own.now op.now) → who.now ≡ session_of (entries run) tx → index ≡ update_count (entries run) tx + 1 →
            Later (numbers result.0) (K.shows clock.now) (entry s.now at.site) by at (AskUpdate tx s.now object.now own.now op.now) false (λ whole. Stays sees numbers self.new result.0 whole) run) }
    {
        let (pass, answer) = self.update(pass, at, who, by, tx, s, object, own, op, index);
        match settled_update(answer) {
            Some(answer) => {
                return (pass, answer);
            }
            None => {}
        }
        let (pass, told) = self.tick(pass, at, reading_for(clock, s, at.site));
        if lacks_memory(told) {
            return (pass, Err(AllocError));
        }
        return self.update(pass, at, who, by, tx, s, object, own, op, index);
    }

    /// As `prepare`, with waits as `read_wait` has them.
    fn prepare_wait<K: Clock>(
        &mut self,
        pass: Self::Pass,
        at: PartId,
        by: u64,
        tx: TxId,
        s: &VTime,
        lead: u8,
        updates: &UpdateList<C::Effect>,
        clock: &K,
    ) -> (Self::Pass, Result<Step, AllocError>)
        requires may { MayCall sees numbers (sites self.old) (parts self.old) self.old pass (Some by) at (AskPrepare tx s.now (led_by lead) updates.now) }
        ensures stays { stays self.old self.new }
        ensures same { (n : ℕ) → numbers result.0 n ≡ numbers pass n }
        ensures ok { IfOk result.1 (λ r. (run : List (Call C.Effect)) → sees self.old pass run →
            IsAllowed (sites self.old) (parts self.old) run (Some by) at (AskPrepare tx s.now (led_by lead) updates.now) →
            Later (numbers result.0) (K.shows clock.now) (entry s.now at.site) by at (AskPrepare tx s.now (led_by lead) updates.now) (is_late r) (λ whole. GoesOn sees numbers self.new result.0 whole (Some by) at (AskPrepare tx s.now (led_by lead) updates.now) r) run) }
        ensures err { IfErr result.1 (λ e. (run : List (Call C.Effect)) → sees self.old pass run →
            IsAllowed (sites self.old) (parts self.old) run (Some by) at (AskPrepare tx s.now (led_by lead) updates.now) →
            Later (numbers result.0) (K.shows clock.now) (entry s.now at.site) by at (AskPrepare tx s.now (led_by lead) updates.now) false (λ whole. Stays sees numbers self.new result.0 whole) run) }
    {
        let (pass, answer) = self.prepare(pass, at, by, tx, s, lead, updates);
        match settled(answer) {
            Some(answer) => {
                return (pass, answer);
            }
            None => {}
        }
        let (pass, told) = self.tick(pass, at, reading_for(clock, s, at.site));
        if lacks_memory(told) {
            return (pass, Err(AllocError));
        }
        return self.prepare(pass, at, by, tx, s, lead, updates);
    }

    /// Two passes in place of one: both have seen what it had. The first holds its numbers, the second a new one above them,
    /// which no call bears that either has seen.
    ///
    /// # Errors
    ///
    /// The pass, where no other can be made.
    fn split(&mut self, pass: Self::Pass) -> Result<(Self::Pass, Self::Pass), Self::Pass>
        ensures stays { stays self.old self.new }
        ensures first { IfOk result (λ r. ((n : ℕ) →
            numbers r.0 n ≡ numbers pass n) × ((run : List (Call C.Effect)) → sees self.old pass run →
            Stays sees numbers self.new r.0 run)) }
        ensures second { IfOk result (λ r. IsNew (numbers pass) (numbers r.1) × ((run : List (Call C.Effect)) →
            sees self.old pass run → SeesStill sees (numbers pass) self.new r.1 run)) }
        ensures unborne { IfOk result (λ r. IsUnborne sees (numbers r.1) self.new r.0 × IsUnborne sees (numbers r.1)
            self.new r.1) }
        ensures err { IfErr result (λ r. ((n : ℕ) → numbers r n ≡ numbers pass n) × ((run : List (Call C.Effect)) →
            sees self.old pass run → Stays sees numbers self.new r run)) };

    /// One pass in place of two: it has seen what either had, and no call more of either's numbers, and holds the numbers
    /// of both.
    fn meet(&mut self, first: Self::Pass, second: Self::Pass) -> Self::Pass
        ensures stays { stays self.old self.new }
        ensures numbers { (n : ℕ) → numbers result n ≡ (numbers first n || numbers second n) }
        ensures first { (run : List (Call C.Effect)) → sees self.old first run →
            SeesStill sees (numbers first) self.new result run }
        ensures second { (run : List (Call C.Effect)) → sees self.old second run →
            SeesStill sees (numbers second) self.new result run };

    /// What a pass has seen is a run of the world, whose transactions' callers are one each.
    ghost legal: { (store : Self) (pass : Self.Pass) (run : List (Call C.Effect)) → sees store pass run → IsLegal (kinds_of C.laws) (sites store) (parts store) run };

    /// A call changes no number of sites or partitions.
    ghost keeps: { (a b : Self) → stays a b → (sites b ≡ sites a) × (parts b ≡ parts a) };

    /// What no call was made of stays.
    ghost rests: { (a : Self) → stays a a };

    /// What two calls leave is what both leave.
    ghost follows: { (a b c : Self) → stays a b → stays b c → stays a c };
}
