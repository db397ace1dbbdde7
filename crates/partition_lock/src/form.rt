ghost use Rattle.std.specs.Prelude.{◌≡◌, ℕ, List, Ok, false};
ghost use Rattle.site_vector.specs.declared.ids.PartId.{PartId as Place};
ghost use Rattle.crdt_core.specs.KindsOf.{kinds_of};
ghost use Rattle.partition_log.specs.Codec.{codec_of};
ghost use Rattle.world_model.specs.rules.Asking.{MayCall};
ghost use Rattle.world_model.specs.rules.Event.{Ask, Event, Entry, Refused, Refusal as Why, is_restart};
ghost use Rattle.world_model.specs.rules.Partition.{PartState};
ghost use Rattle.world_model.specs.rules.Plan.{IsFit};
ghost use Rattle.world_model.specs.rules.World.{IsWorldRun};
ghost use Rattle.world_model.specs.threads.Allowed.{HasBegun};
ghost use Rattle.partition_core.specs.Moments.{CallsOn};
ghost use Rattle.site_partitions.specs.Asked.{IsAskable};
ghost use Rattle.site_partitions.specs.Reaches.{types_of, PutsEvent};
ghost use Rattle.partition_lock.specs.Answers.{IsDone};

use crdt_core::Crdt;
use disk_core::Disk;
use partition_core::{DurableError, DurablePartition};
use std::alloc::Global;

/// A call of a partition on its disk: what it asks, and which event each answer tells.
pub(crate) trait PartitionCall<C: Crdt, D: Disk + Drop> {
    type Out;

    ghost ask: { Self → Ask C.Effect };

    /// What its caller owes whatever was seen.
    ghost fit: { Self → Type 0 };

    /// What its caller owes of the calls that were seen.
    ghost given: { Self → List (Entry C.Effect) → Type 0 };

    /// What it rests on of the partition's state.
    ghost premise: { Self → PartState C.Effect → Type 0 };

    ghost shows: { Self → Self.Out → Event C.Effect → Type 0 };

    /// Makes the call of a partition of which it may be asked.
    fn make(
        &self,
        alloc: Global,
        partition: &mut DurablePartition<C, D>,
    ) -> Result<Self::Out, DurableError>
        requires fit { fit self.now }
        requires asked { (sites : ℕ) × (parts : ℕ) × (at : Place) × (a : IsAskable (types_of C.laws C.spells D.state) sites parts at partition.old (ask self.now)) × HasBegun a.run (ask self.now) }
        ensures called { CallsOn (kinds_of C.laws) (codec_of C.spells) D.state partition.old partition.new (premise self.now) (ask self.now) (shows self.now) result }
        ensures puts { (x : Self.Out) → result ≡ Ok x → (e : Event C.Effect) → shows self.now x e → PutsEvent (types_of C.laws C.spells D.state) e };

    /// It is no restart.
    ghost plain: { (call : Self) → is_restart (ask call) ≡ false };

    /// Where it may be asked, the state is as it rests on.
    ghost knows: { (call : Self) (sites parts : ℕ) (at : Place) (run : List (Entry C.Effect)) (state : Place → PartState C.Effect) → IsWorldRun (kinds_of C.laws) sites parts run state → MayCall sites parts run at (ask call) → premise call (state at) };

    /// A refusal of it fits.
    ghost fits: { (call : Self) → fit call → (why : Why) → IsFit (kinds_of C.laws) (Refused (ask call) why) };

    /// What an answer tells did what was asked.
    ghost done: { (call : Self) (sites parts : ℕ) (at : Place) (x : Self.Out) (run : List (Entry C.Effect)) → MayCall sites parts run at (ask call) → given call run → (e : Event C.Effect) → shows call x e → IsDone (types_of C.laws C.spells D.state) run (ask call) e };
}
