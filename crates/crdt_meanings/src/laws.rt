ghost use Rattle.std.specs.Prelude.{◌≡◌, ◌≢◌, ◌≤◌, ◌<◌, ◌⊎◌, ◌+ℤ◌, ℕ, ℤ, pos, Bool, true, false, List, [], Some};
ghost use Rattle.std.specs.Int.{int_wrap, w128};
ghost use Rattle.crdt_core.specs.declared.kind.Kind.{Kind};
ghost use Rattle.crdt_core.specs.declared.operation.Act.{Act};
ghost use Rattle.crdt_core.specs.declared.operation.Act.TheVariants.{Increment, Decrement};
ghost use Rattle.crdt_core.specs.Fits.{is_map, is_amount, fits};
ghost use Rattle.crdt_core.specs.Kinds.{same_path};
ghost use Rattle.crdt_core.specs.Seen.{Update, sees, is_reset, is_assign};
ghost use Rattle.crdt_core.specs.Stamps.{last_stamp, stamp_due};
ghost use Rattle.crdt_core.proofs.Members.{In};
ghost use Rattle.crdt_core.specs.declared.value.Value.{Value};
ghost use Rattle.crdt_meanings.specs.CounterMeaning.{amount, counter_meaning};
ghost use Rattle.crdt_meanings.specs.FlagMeaning.{flag_meaning};
ghost use Rattle.crdt_meanings.specs.SetMeaning.{go_meaning, set_meaning};
ghost use Rattle.crdt_meanings.specs.RegisterMeaning.{lww_meaning, mv_meaning};
ghost use Rattle.crdt_meanings.specs.MapMeaning.{map_meaning};
ghost use Rattle.crdt_meanings.specs.Nothing.{EmptyIsNothing};
ghost use Rattle.crdt_meanings.specs.Shows.{Shows, IsSilent};

/// A decrement counts as much as an increment of the same amount takes to undo it.
pub fn law_amounts()
    ensures up { (n : ℤ) → amount (Increment n) ≡ n }
    ensures down { (n : ℤ) → (amount (Increment n) +ℤ amount (Decrement n)) ≡ pos 0 }
{}

/// The stamp of an assign is above the stamp of each assign of its register that it has seen, and no less than the clock value,
/// up to the last stamp, where stamps stay.
pub fn law_stamps()
    ensures seen { (k : Kind) (us : List Update) (u v : Update) (m n : ℕ) → stamp_due k us u ≡ Some n → In v us → sees u v.dot ≡ true → is_assign v.act ≡ true → same_path v.path u.path ≡ true → v.stamp ≡ Some m → (m < n) ⊎ (n ≡ last_stamp) }
    ensures clock { (k : Kind) (us : List Update) (u : Update) (n : ℕ) → stamp_due k us u ≡ Some n → (u.now ≤ n) ⊎ (n ≡ last_stamp) }
    ensures last { (k : Kind) (us : List Update) (u : Update) (n : ℕ) → stamp_due k us u ≡ Some n → n ≤ last_stamp }
{}

/// A value is empty exactly where it is what its kind means by no update. So a map whose fields can be dropped, which hides
/// those whose value is empty (`shown`), hides exactly those that show what no update means.
pub fn law_nothing()
    ensures counters { EmptyIsNothing counter_meaning }
    ensures flags { (disables_win : Bool) → EmptyIsNothing (flag_meaning disables_win) }
    ensures grown { EmptyIsNothing go_meaning }
    ensures sets { (removes_win : Bool) → EmptyIsNothing (set_meaning removes_win) }
    ensures last { EmptyIsNothing lww_meaning }
    ensures concurrent { EmptyIsNothing mv_meaning }
    ensures maps { (drops : Bool) (has : Kind → Bool) (meaning : Kind → List Update → Value) → EmptyIsNothing (map_meaning drops has meaning) }
{}

/// The acts of a kind without fields, but for resets, are exactly those that change what it shows: each that it has does
/// so after some history, an amount if it isn't 0 in 128 bits, and no other does after any updates.
pub fn law_acts()
    ensures shows { (k : Kind) (a : Act) → is_map k ≡ false → fits k [] a ≡ true → is_reset a ≡ false → (is_amount a ≡ true → int_wrap w128 (amount a) ≢ pos 0) → Shows k a }
    ensures silent { (k : Kind) (a : Act) → is_map k ≡ false → fits k [] a ≡ false → is_reset a ≡ false → IsSilent k a }
{}
