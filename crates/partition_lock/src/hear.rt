ghost use Rattle.std.specs.Prelude.{◌≡◌, ◌+◌};
ghost use Rattle.crdt_core.specs.KindsOf.{kinds_of};
ghost use Rattle.seat_rule.specs.Laws.{Heard};
ghost use Rattle.seat_rule.specs.Sizes.{places, size};
ghost use Rattle.seat_rule.specs.world.Traces.{IsLawful};
ghost use Rattle.site_partitions.specs.Reaches.{types_of, PutsEvent};
ghost use Rattle.partition_lock.specs.Events.{event_of};

use crate::law::WorldLaw;
use crate::naming::Naming;
use crate::told::Told;
use crdt_core::Crdt;
use disk_core::Disk;
use seat_rule::{Seat, Traces};

/// Tells what the rule says of a seat of this table, and changes nothing.
pub(crate) fn look<C: Crdt, D: Disk + Drop, J: Naming>(
    traces: &Traces<Told<C::Effect>, WorldLaw<C, D>>,
    seat: &mut Seat<Told<C::Effect>>,
)
    requires here { (seat.old.table_id ≡ traces.now.table_id) × (traces.now.table_id.words ≡ places traces.now.key + 1) × (traces.now.key ≡ size J.sites J.parts) }
    ensures same { (seat.new.table_id ≡ seat.old.table_id) × (seat.new.id ≡ seat.old.id) × (seat.new.me ≡ seat.old.me) }
    ensures heard { Heard (IsLawful event_of J.sites J.parts (kinds_of C.laws) (PutsEvent (types_of C.laws C.spells D.state))) seat.old.me.0 }
{
    seat_rule::look(traces, seat);
}
