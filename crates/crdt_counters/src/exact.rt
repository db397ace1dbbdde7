ghost use Rattle.std.specs.Prelude.{◌≡◌, ◌≤◌, ◌^◌, ℕ, List, length, true};
ghost use Rattle.std.specs.List.{filter};
ghost use Rattle.crdt_core.specs.declared.kind.Kind.{Kind};
ghost use Rattle.crdt_core.specs.declared.value.Value.{Value};
ghost use Rattle.crdt_core.specs.Seen.{Update, is_live};
ghost use Rattle.crdt_meanings.specs.CounterMeaning.{total, counter_meaning};
ghost use Rattle.crdt_counters.specs.Exact.{are_amounts};

/// No counter wraps: over at most 2^90 updates whose amounts are from -2^31 to 2^31, the meaning is the sum of the live ones
/// itself.
pub fn law_exact_sums()
    ensures { (k : Kind) (us : List Update) → length us ≤ 2 ^ 90 → are_amounts us ≡ true → counter_meaning k us ≡ Value.Int (total (filter (is_live us) us)) }
{}
