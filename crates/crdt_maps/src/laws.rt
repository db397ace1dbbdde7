ghost use Rattle.std.specs.Prelude.{◌≡◌, ℕ, List, [], true};
ghost use Rattle.crdt_core.specs.declared.kind.Kind.{Kind};
ghost use Rattle.crdt_core.specs.declared.operation.Act.{Act};
ghost use Rattle.crdt_core.specs.Seen.{Update};
ghost use Rattle.crdt_core.specs.History.{IsHistory, state_after};
ghost use Rattle.crdt_core.specs.Law.{made_by, all_fit};
ghost use Rattle.crdt_meanings.specs.Maps.{EachNames};

use crate::MapRr;
use crdt_core::Crdt;

/// A drop of a field and a reset of the map list no field of which nothing is left: each reset that they list names an update.
pub fn law_resets<I: Crdt>()
    ensures { let M = ⟦<MapRr<I> as Crdt>⟧ in (k : Kind) (us : List Update) (a : Act) (n : ℕ) → M.has k ≡ true → IsHistory us → all_fit M.too_deep k us ≡ true → EachNames I.names (M.generated k (state_after (M.initial k) M.applied (made_by M.generated k) us) [] a n) }
{}
