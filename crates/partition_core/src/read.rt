ghost use Rattle.std.specs.Prelude.{◌≡◌, ◌≤◌, ℕ, List, [], length, true, false, not, ◌&&◌, None, IfOk, OnOk, MatchOption, if◌then◌else◌};
ghost use Rattle.site_vector.specs.Vector.{entry};
ghost use Rattle.crdt_core.specs.declared.record.Part.{Part};
ghost use Rattle.crdt_core.specs.EffectForm.{HoldsSpelled, IsReady};
ghost use Rattle.crdt_core.specs.Fits.{fits};
ghost use Rattle.crdt_core.specs.Folds.{effects_of};
ghost use Rattle.crdt_core.specs.History.{folded};
ghost use Rattle.crdt_core.specs.KindsOf.{fits_kind, kinds_of};
ghost use Rattle.crdt_core.specs.Objects.{same_object};
ghost use Rattle.crdt_core.specs.Parts.{seen_parts};
ghost use Rattle.crdt_core.specs.Spelled.{is_tx};
ghost use Rattle.prepared_table.specs.Entries.{first_on};
ghost use Rattle.world_model.specs.rules.Event.{AskRead, AskUpdate, Updated};
ghost use Rattle.world_model.specs.rules.Event as event;
ghost use Rattle.partition_core.specs.Answers.{Called};
ghost use Rattle.partition_core.specs.Numbered.{are_numbered, have_ids};
ghost use Rattle.partition_core.specs.Reads.{applied};
ghost use Rattle.partition_core.specs.Waits.{IsWait, MayRead};
ghost use Rattle.partition_core.specs.Steps.{Anything};

use crate::{CallError, Partition, Refusal};
use crdt_core::{Crdt, Kind, ObjectId, Op, Upd, Value, fits};
use effect_store::Store;
use prepared_table::{Leased, Prepared};
use site_vector::{Dot, TxId, VTime};
use std::alloc::{AllocError, Global};

impl<C: Crdt> Partition<C> {
    /// What an object shows under a transaction's snapshot, with the transaction's own earlier updates of it, in the
    /// order of their numbers.
    ///
    /// # Errors
    ///
    /// `ClockBehind` where the clock hasn't reached the snapshot, with what it shows; else `TxPending` where what is
    /// pending here changes the object and may belong to the snapshot, with the first such transaction; else `NoMemory`
    /// where memory runs out.
    pub fn read(
        &mut self,
        alloc: Global,
        tx: TxId,
        s: &VTime,
        object: &ObjectId,
        own: &[Upd<C::Effect>],
    ) -> Result<Value, CallError>
        requires has { C.has object.now.kind ≡ true }
        requires width { length s.now ≡ self.old.sites }
        ensures { Called (kinds_of C.laws) self.old Anything (AskRead tx s.now object.now own.now) (λ v e. (read : List (Part C.Effect)) × (e ≡ event.Read tx s.now object.now own.now read v)) result self.new }
    {
        if let Some(why) = wait_for(&self.clock, &self.prepared, self.id.site, s, object) {
            return Err(CallError::Refused(why));
        }
        if own.len() == 0 {
            let value = self.store.value(alloc, object, s)?;
            return Ok(value);
        }
        let state = state_read::<C>(alloc, &mut self.store, tx, s, object, own)?;
        let value = C::value(alloc, &state)?;
        Ok(value)
    }

    /// The effect of an operation on an object under a transaction's snapshot, with the transaction's own earlier
    /// updates of the object, in the order of their numbers; and its stamp, if its kind has stamps. The caller gives it
    /// its number. The effect can be put, where the ids of these updates and of all that is held can be.
    ///
    /// # Errors
    ///
    /// `BadOp` where the operation isn't one of the object's kind, or leads deeper than the type reaches; else, where
    /// the kind's effects depend on the state, `ClockBehind` and `TxPending` as in a read; else `NoMemory` where memory
    /// runs out.
    pub fn update(
        &mut self,
        alloc: Global,
        tx: TxId,
        s: &VTime,
        object: &ObjectId,
        own: &[Upd<C::Effect>],
        op: &Op,
    ) -> Result<(C::Effect, Option<u64>), CallError>
        requires has { C.has object.now.kind ≡ true }
        requires width { length s.now ≡ self.old.sites }
        ensures answers { (index : ℕ) → Called (kinds_of C.laws) self.old Anything (AskUpdate tx s.now object.now own.now op.now) (λ x e. (read : List (Part C.Effect)) × (e ≡ Updated tx s.now object.now own.now op.now read (record { object = object.now; index = index; effect = x.0 }) x.1)) result self.new }
        ensures ready { have_ids self.old.held ≡ true → is_tx tx ≡ true → are_numbered own.now ≡ true → IfOk result (λ x. IsReady C.is_of C.can_put C.sets C.spelling object.now.kind op.now.path op.now.act x.0) }
    {
        if !is_operation::<C>(object.kind, op) {
            return Err(CallError::Refused(Refusal::BadOp));
        }
        self.update_fitting(alloc, tx, s, object, own, op)
    }

    /// What `update` does of an operation that fits the object's kind, for whoever has tested that.
    ///
    /// # Errors
    ///
    /// As those of `update`, without `BadOp`.
    pub fn update_fitting(
        &mut self,
        alloc: Global,
        tx: TxId,
        s: &VTime,
        object: &ObjectId,
        own: &[Upd<C::Effect>],
        op: &Op,
    ) -> Result<(C::Effect, Option<u64>), CallError>
        requires has { C.has object.now.kind ≡ true }
        requires width { length s.now ≡ self.old.sites }
        requires fits { fits_kind C.too_deep object.now op.now ≡ true }
        ensures answers { (index : ℕ) → Called (kinds_of C.laws) self.old Anything (AskUpdate tx s.now object.now own.now op.now) (λ x e. (read : List (Part C.Effect)) × (e ≡ Updated tx s.now object.now own.now op.now read (record { object = object.now; index = index; effect = x.0 }) x.1)) result self.new }
        ensures ready { have_ids self.old.held ≡ true → is_tx tx ≡ true → are_numbered own.now ≡ true → IfOk result (λ x. IsReady C.is_of C.can_put C.sets C.spelling object.now.kind op.now.path op.now.act x.0) }
    {
        let kind = object.kind;
        if !C::needs_state(kind, op) {
            let state = C::empty(alloc, kind)?;
            let made = made::<C>(alloc, kind, op, &state, self.clock.now())?;
            return Ok(made);
        }
        if let Some(why) = wait_for(&self.clock, &self.prepared, self.id.site, s, object) {
            return Err(CallError::Refused(why));
        }
        let now = self.clock.now();
        let made = made_under::<C>(alloc, &mut self.store, tx, s, object, own, op, now)?;
        Ok(made)
    }
}

/// What a read of the object under the snapshot has to wait for, if anything.
fn wait_for<E>(
    clock: &Leased,
    prepared: &Prepared<E>,
    site: u8,
    s: &VTime,
    object: &ObjectId,
) -> Option<Refusal>
    requires least { 1 ≤ site }
    requires most { site ≤ length s.now }
    ensures { MatchOption result (MayRead clock.now.clock prepared.now.entries site s.now object.now) (λ why. IsWait clock.now.clock prepared.now.entries site s.now object.now why) }
{
    let at = clock.now();
    let upto = s.get(site);
    if at < upto {
        return Some(Refusal::ClockBehind { at });
    }
    if let Some((tx, time)) = prepared.on(object, upto) {
        return Some(Refusal::TxPending { tx, time });
    }
    None
}

/// The state of an object under a snapshot, with a transaction's own updates applied.
fn state_read<C: Crdt>(
    alloc: Global,
    store: &mut Store<C>,
    tx: TxId,
    s: &VTime,
    object: &ObjectId,
    own: &[Upd<C::Effect>],
) -> Result<C::State, AllocError>
    requires has { C.has object.now.kind ≡ true }
    requires width { length s.now ≡ store.old.sites }
    ensures state { IfOk result (λ state. state ≡ applied C.applied object.now tx (folded (C.initial object.now.kind) C.applied (effects_of object.now [] (seen_parts object.now s.now store.old.parts))) own.now) }
    ensures same { store.new ≡ store.old }
{
    let mut state = store.state(alloc, object, s)?;
    apply_own::<C>(alloc, &mut state, tx, own, object)?;
    Ok(state)
}

/// The effect of an operation of the object's kind on what the object shows under a snapshot, with a transaction's own
/// updates applied, at a clock value; and its stamp. The state is copied only where it must be changed for that.
fn made_under<C: Crdt>(
    alloc: Global,
    store: &mut Store<C>,
    tx: TxId,
    s: &VTime,
    object: &ObjectId,
    own: &[Upd<C::Effect>],
    op: &Op,
    now: u64,
) -> Result<(C::Effect, Option<u64>), AllocError>
    requires has { C.has object.now.kind ≡ true }
    requires width { length s.now ≡ store.old.sites }
    requires fit { (fits object.now.kind op.now.path op.now.act && not (C.too_deep object.now.kind op.now.path)) ≡ true }
    ensures same { store.new ≡ store.old }
    ensures effect { IfOk result (λ x. x.0 ≡ C.generated object.now.kind (applied C.applied object.now tx (folded (C.initial object.now.kind) C.applied (effects_of object.now [] (seen_parts object.now s.now store.old.parts))) own.now) op.now.path op.now.act now) }
    ensures ready { HoldsSpelled C.holds (applied C.applied object.now tx (folded (C.initial object.now.kind) C.applied (effects_of object.now [] (seen_parts object.now s.now store.old.parts))) own.now) → IfOk result (λ x. IsReady C.is_of C.can_put C.sets C.spelling object.now.kind op.now.path op.now.act x.0) }
    ensures stamp { IfOk result (λ x. x.1 ≡ C.stamp_of x.0) }
{
    if own.len() == 0 {
        store.bring_forward(alloc, object, s)?;
        if let Some(state) = store.standing(object, s) {
            return made::<C>(alloc, object.kind, op, state, now);
        }
    }
    let state = state_read::<C>(alloc, store, tx, s, object, own)?;
    made::<C>(alloc, object.kind, op, &state, now)
}

/// Applies those of a transaction's updates that are of the object.
fn apply_own<C: Crdt>(
    alloc: Global,
    state: &mut C::State,
    tx: TxId,
    own: &[Upd<C::Effect>],
    object: &ObjectId,
) -> Result<(), AllocError>
    ensures { OnOk result (state.new ≡ applied C.applied object.now tx state.old own.now) }
{
    for update in own {
        apply_one::<C>(alloc, state, tx, update, object)?;
    }
    Ok(())
}

/// Applies an update where it is of the object.
fn apply_one<C: Crdt>(
    alloc: Global,
    state: &mut C::State,
    tx: TxId,
    update: &Upd<C::Effect>,
    object: &ObjectId,
) -> Result<(), AllocError>
    ensures { OnOk result (state.new ≡ (if same_object update.now.object object.now then C.applied state.old (record { tx = tx; index = update.now.index }) update.now.effect else state.old)) }
{
    if update.object == *object {
        let dot = Dot {
            tx,
            index: update.index,
        };
        return C::apply(alloc, state, dot, &update.effect);
    }
    Ok(())
}

/// Whether the kind has the operation, within the depth that the type reaches.
fn is_operation<C: Crdt>(kind: Kind, op: &Op) -> bool
    ensures { result ≡ (fits kind op.now.path op.now.act && not (C.too_deep kind op.now.path)) }
{
    fits(kind, op) && !C::is_too_deep(kind, op.path.as_slice())
}

/// The effect of an operation of the kind on a state, at a clock value, and its stamp.
fn made<C: Crdt>(
    alloc: Global,
    kind: Kind,
    op: &Op,
    state: &C::State,
    now: u64,
) -> Result<(C::Effect, Option<u64>), AllocError>
    requires { (fits kind op.now.path op.now.act && not (C.too_deep kind op.now.path)) ≡ true }
    ensures effect { IfOk result (λ x. x.0 ≡ C.generated kind state.now op.now.path op.now.act now) }
    ensures ready { C.has kind ≡ true → HoldsSpelled C.holds state.now → IfOk result (λ x. IsReady C.is_of C.can_put C.sets C.spelling kind op.now.path op.now.act x.0) }
    ensures stamp { IfOk result (λ x. x.1 ≡ C.stamp_of x.0) }
{
    let effect = C::effect(alloc, kind, op.path.as_slice(), &op.act, state, now)?;
    let stamp = C::stamp(&effect);
    Ok((effect, stamp))
}
