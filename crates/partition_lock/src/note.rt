ghost use Rattle.std.specs.Prelude.{◌≡◌, ◌<◌, ◌+◌, ◌*◌, ◌^◌, length, true};
ghost use Rattle.crdt_core.specs.KindsOf.{kinds_of};
ghost use Rattle.seat_rule.specs.Laws.{MayNote};
ghost use Rattle.seat_rule.specs.Lists.{has, at};
ghost use Rattle.seat_rule.specs.Sizes.{places, size};
ghost use Rattle.seat_rule.specs.Views.{IsNoted};
ghost use Rattle.seat_rule.specs.world.Traces.{IsLawful};
ghost use Rattle.site_partitions.specs.Reaches.{types_of, PutsEvent};
ghost use Rattle.partition_lock.specs.Events.{event_of};

use crate::form::PartitionCall;
use crate::law::WorldLaw;
use crate::naming::Naming;
use crate::told::Told;
use crdt_core::Crdt;
use disk_core::Disk;
use partition_core::{DurableError, DurablePartition};
use seat_rule::{Notes, Seat, Traces, append};
use site_vector::PartId;

/// Adds the step of a partition that a call's answer tells. What the step is like is picked by what is handed here.
pub(crate) fn note<
    C: Crdt,
    D: Disk + Drop,
    J: Naming,
    K: PartitionCall<C, D>,
    N: Notes<Told<C::Effect>>,
>(
    traces: &Traces<Told<C::Effect>, WorldLaw<C, D>>,
    seat: &mut Seat<Told<C::Effect>>,
    word: usize,
    id: PartId,
    stamp: u128,
    by: u64,
    call: &K,
    answer: &Result<K::Out, DurableError>,
    partition: &DurablePartition<C, D>,
)
    requires here { (seat.old.table_id ≡ traces.now.table_id) × (traces.now.table_id.words ≡ places traces.now.key + 1) × (traces.now.key ≡ size J.sites J.parts) }
    requires word { word < J.sites * J.parts }
    requires writer { has seat.old.me.0.past.writes word ≡ true }
    requires may { MayNote (IsLawful event_of J.sites J.parts (kinds_of C.laws) (PutsEvent (types_of C.laws C.spells D.state))) N.like seat.old.me.0.past word }
    requires room { length (at seat.old.me.0.past.lists word) + 1 < 2 ^ 64 }
    ensures same { (seat.new.table_id ≡ seat.old.table_id) × (seat.new.id ≡ seat.old.id) }
    ensures noted { IsNoted N.like word seat.old.me seat.new.me }
{
    append::<Told<C::Effect>, WorldLaw<C, D>, N>(traces, seat, word);
}
