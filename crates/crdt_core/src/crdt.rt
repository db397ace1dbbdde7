ghost use Rattle.std.specs.Prelude.{◌≡◌, ◌≤◌, ◌↔◌, ◌++◌, ℕ, List, [], length, Bool, true, false, Option, OnOk, OnErr, IfOk};
ghost use Rattle.field_codec.specs.Reading.{Read, Gives};
ghost use Rattle.site_vector.specs.declared.ids.Dot.{Dot};
ghost use Rattle.crdt_core.specs.declared.kind.Kind.{Kind};
ghost use Rattle.crdt_core.specs.declared.object.Field.{Field};
ghost use Rattle.crdt_core.specs.declared.operation.Act.{Act};
ghost use Rattle.crdt_core.specs.declared.value.Value.{Value};
ghost use Rattle.crdt_core.specs.Seen.{Update};
ghost use Rattle.crdt_core.specs.Kinds.{reads_state};
ghost use Rattle.crdt_core.specs.Fits.{fits};
ghost use Rattle.crdt_core.specs.InMaps.{KeepsInMaps};
ghost use Rattle.crdt_core.specs.Resets.{ResetsWhatIsLeft};
ghost use Rattle.crdt_core.specs.Law.{KeepsLaw};
ghost use Rattle.crdt_core.specs.EffectForm.{SpellsEffects, HoldsSpelled, IsReady};
ghost use Rattle.crdt_core.specs.NamedDots.{NamesAreSpelled};

use crate::table::fits_at;
use crate::{Act, Field, GenError, Kind, Op, Value};
use field_codec::TakeError;
use site_vector::Dot;
use std::alloc::{AllocError, Global};

/// A type whose replicas exchange effects of updates (operation-based replicated data types, as in AntidoteDB's
/// library).
///
/// An update's effect is generated on the state that the update has seen, and applied to every replica, in any order
/// that applies causes before what has seen them. The ghost member `laws` is the law of a kind: what a replica shows
/// then is the meaning of the updates, whatever the order was.
pub trait Crdt {
    type State: Drop;

    type Effect: Drop;

    /// Whether the type has the kind.
    ghost has: { Kind → Bool };

    /// Whether the path leads through maps to a kind that the inner type lacks.
    ghost too_deep: { Kind → List Field → Bool } = { λ _ _. false };

    /// The state of no update.
    ghost initial: { Kind → Self.State };

    /// The state once an effect is applied.
    ghost applied: { Self.State → Dot → Self.Effect → Self.State };

    /// The effect of an act at a path, generated on a state at a clock value.
    ghost generated: { Kind → Self.State → List Field → Act → ℕ → Self.Effect };

    /// What a state shows.
    ghost value_of: { Self.State → Value };

    /// The stamp of an effect.
    ghost stamp_of: { Self.Effect → Option ℕ };

    /// What updates mean, by which of them have seen which alone.
    ghost meaning: { Kind → List Update → Value };

    /// Whether the dot stands in the effect's bytes.
    ghost names: { Self.Effect → Dot → Bool };

    /// Whether the dot is kept in the state. A state that updates left keeps the dots that an effect made on it can
    /// name, and no other (`named` and `nameable` of the law).
    ghost holds: { Self.State → Dot → Bool };

    /// The law of a kind.
    ghost laws: { KeepsLaw has too_deep initial applied generated value_of stamp_of meaning names holds };

    /// Whether nothing is left in the state that a reset could undo.
    ghost is_blank: { Self.State → Bool };

    /// What a map around the kind needs of it.
    ghost in_maps: { KeepsInMaps has too_deep initial applied generated is_blank };

    /// Of the kinds that may stand in a map that resets: a reset names no update where it is made on a blank state, and
    /// an update where it is made on a state that a history left and that isn't blank.
    ghost resets: { ResetsWhatIsLeft has too_deep initial applied generated is_blank names };

    /// Whether the effect is one of the kind.
    ghost is_of: { Kind → Self.Effect → Bool } = { λ _ _. true };

    /// What `put_effect` takes: an effect whose numbers and updates are within their bounds, and whose lists of
    /// elements and of fields are in order. That its sets of updates are in order is not asked, since their type keeps
    /// them so.
    ghost can_put: { Self.Effect → Bool };

    /// What the types of its parts hold of an effect besides: that texts are texts, and sets of updates in order. What
    /// it is of each kind, `law_types` of crdt_any says.
    ghost keeps: { Self.Effect → Bool } = { λ _. true };

    /// What has a spelling. Of what can be put, all has one whose bytes are fewer than 2^32 (`all` of each form).
    ghost is_spelled: { Self.Effect → Bool };

    /// The sets of updates that stand in an effect's bytes, in turn.
    ghost sets: { Self.Effect → List (List Dot) };

    /// The bytes of an effect.
    ghost spelling: { Self.Effect → List ℕ };

    /// What reading an effect of a kind at a place answers.
    ghost reading: { Kind → List ℕ → ℕ → Read Self.Effect };

    /// Each effect is spelled in one way, none begins another of its kind, and what can be put has a spelling.
    ghost spells: { SpellsEffects has is_of can_put keeps is_spelled spelling reading };

    /// An effect names exactly the updates in the sets that stand in its bytes.
    ghost named: { NamesAreSpelled can_put names sets spelling };

    /// Whether the type has the kind. Takes no memory.
    fn has(kind: Kind) -> bool
        ensures { result ≡ has kind };

    /// The state of no update of an object of the kind.
    ///
    /// # Errors
    ///
    /// `AllocError` where memory runs out.
    fn empty(alloc: Global, kind: Kind) -> Result<Self::State, AllocError>
        ensures { IfOk result (λ s. s ≡ initial kind) };

    /// Whether the operation's effect depends on the state: false exactly for `CounterPn` and `SetGo`. Takes no memory.
    fn needs_state(kind: Kind, op: &Op) -> bool
        ensures { result ≡ reads_state kind };

    /// Whether the path leads through maps to a field whose kind the inner type lacks. Takes no memory.
    fn is_too_deep(kind: Kind, path: &[Field]) -> bool
        ensures { result ≡ too_deep kind path.now };

    /// Whether nothing is left of updates in the state, as in the state of no update: a reset would undo nothing. Takes
    /// no memory.
    fn is_blank(state: &Self::State) -> bool
        ensures { result ≡ is_blank state.now };

    /// The effect of an operation that fits, for whoever has tested that: of an act at a path, on the state that was
    /// read, at a clock value in ticks.
    ///
    /// # Errors
    ///
    /// `AllocError` where memory runs out.
    fn effect(
        alloc: Global,
        kind: Kind,
        path: &[Field],
        act: &Act,
        state: &Self::State,
        now: u64,
    ) -> Result<Self::Effect, AllocError>
        requires fitting { fits kind path.now act.now ≡ true }
        requires shallow { too_deep kind path.now ≡ false }
        ensures made { IfOk result (λ e. e ≡ generated kind state.now path.now act.now now) }
        ensures ready { has kind ≡ true → HoldsSpelled holds state.now → IfOk result (λ e. IsReady is_of can_put sets spelling kind path.now act.now e) };

    /// The effect of an act at a path, on the state that was read, at a clock value in ticks, for whoever hasn't tested
    /// whether the operation fits.
    ///
    /// # Errors
    ///
    /// `TooDeep` exactly where the path leads through maps to a field whose kind the inner type lacks, `BadOp` exactly
    /// where the operation isn't one of the kind and `TooDeep` isn't due, `NoMemory` where memory runs out.
    fn generate(
        alloc: Global,
        kind: Kind,
        path: &[Field],
        act: &Act,
        state: &Self::State,
        now: u64,
    ) -> Result<Self::Effect, GenError>
        ensures made { IfOk result (λ e. e ≡ generated kind state.now path.now act.now now) }
        ensures ready { has kind ≡ true → HoldsSpelled holds state.now → IfOk result (λ e. IsReady is_of can_put sets spelling kind path.now act.now e) }
        ensures fitting { OnOk result ((fits kind path.now act.now ≡ true) × (too_deep kind path.now ≡ false)) }
        ensures too_deep { (result ≡ Err GenError.TooDeep) ↔ (too_deep kind path.now ≡ true) }
        ensures bad_op { (result ≡ Err GenError.BadOp) ↔ ((fits kind path.now act.now ≡ false) × (too_deep kind path.now ≡ false)) }
    {
        if Self::is_too_deep(kind, path) {
            return Err(GenError::TooDeep);
        }
        if !fits_at(kind, path, act) {
            return Err(GenError::BadOp);
        }
        Ok(Self::effect(alloc, kind, path, act, state, now)?)
    }

    /// The stamp of an assign to a `RegisterLww`, else `None`. Takes no memory.
    fn stamp(effect: &Self::Effect) -> Option<u64>
        ensures { result ≡ stamp_of effect.now };

    /// Applies the effect of the update with this dot.
    ///
    /// # Errors
    ///
    /// `AllocError` where memory runs out. The state may only be dropped then.
    fn apply(
        alloc: Global,
        state: &mut Self::State,
        dot: Dot,
        effect: &Self::Effect,
    ) -> Result<(), AllocError>
        ensures { OnOk result (state.new ≡ applied state.old dot effect.now) };

    /// An equal state.
    ///
    /// # Errors
    ///
    /// `AllocError` where memory runs out.
    fn copy(alloc: Global, state: &Self::State) -> Result<Self::State, AllocError>
        ensures { IfOk result (λ s. s ≡ state.now) };

    /// An equal effect.
    ///
    /// # Errors
    ///
    /// `AllocError` where memory runs out.
    fn copy_effect(alloc: Global, effect: &Self::Effect) -> Result<Self::Effect, AllocError>
        ensures { IfOk result (λ e. e ≡ effect.now) };

    /// What the state shows.
    ///
    /// # Errors
    ///
    /// `AllocError` where memory runs out.
    fn value(alloc: Global, state: &Self::State) -> Result<Value, AllocError>
        ensures { IfOk result (λ v. v ≡ value_of state.now) };

    /// Appends the bytes of the effect.
    ///
    /// # Errors
    ///
    /// `AllocError` where memory runs out, or where a list has 2^32 members or more. `out` is as before then.
    fn put_effect(out: &mut Vec<u8>, effect: &Self::Effect) -> Result<(), AllocError>
        requires { can_put effect.now ≡ true }
        ensures spelled { OnOk result (is_spelled effect.now ≡ true) }
        ensures ok { OnOk result (out.new.items ≡ out.old.items ++ spelling effect.now) }
        ensures err { OnErr result (out.new.items ≡ out.old.items) };

    /// The effect of the kind at a place, and the place after it.
    ///
    /// # Errors
    ///
    /// The first field that fails: `Short` where it is cut off, `Bad` where it is whole and the form refuses it, each
    /// with the place of its first byte; `NoMemory` where memory runs out.
    fn take_effect(
        alloc: Global,
        kind: Kind,
        bytes: &[u8],
        at: usize,
    ) -> Result<(Self::Effect, usize), TakeError>
        ensures answer { Gives result (reading kind bytes.now at) }
        ensures end { IfOk result (λ x. x.1 ≤ length bytes.now) };
}
