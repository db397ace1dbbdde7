ghost use Rattle.std.specs.Prelude.{◌≡◌, true, ◌||◌, List, [], ◌∷◌};
ghost use Rattle.crdt_core.specs.declared.kind.Kind.{Kind};
ghost use Rattle.crdt_core.specs.declared.kind.Kind.TheVariants.{MapGo, MapRr};
ghost use Rattle.crdt_core.specs.declared.object.Field.{Field};
ghost use Rattle.crdt_core.specs.declared.operation.Act.{Act};
ghost use Rattle.crdt_core.specs.declared.operation.Act.TheVariants.{Reset, DropField};
ghost use Rattle.crdt_core.specs.Fits.{fits, leads_to, allows, nests_in, is_map, is_amount, is_add, is_remove, is_switch, is_drop};
ghost use Rattle.crdt_core.specs.Seen.{is_reset, is_assign};
ghost use Rattle.crdt_core.specs.Kinds.{reads_state};

use crate::{Act, Field, Kind, Op};

/// The most fields of a path: an object has that many levels below its own.
const MOST_FIELDS: usize = 3;

/// Whether the kind has the operation. Takes no memory.
pub fn fits(kind: Kind, op: &Op) -> bool
    ensures { result ≡ fits kind op.now.path op.now.act }
{
    fits_at(kind, op.path.as_slice(), &op.act)
}

/// Whether the kind has the act at the path. Takes no memory.
pub fn fits_at(kind: Kind, path: &[Field], act: &Act) -> bool
    ensures { result ≡ fits kind path.now act.now }
{
    path.len() <= MOST_FIELDS && leads_to(kind, path, act)
}

fn leads_to(kind: Kind, path: &[Field], act: &Act) -> bool
    ensures { result ≡ leads_to kind path.now act.now }
{
    let mut reached = kind;
    for field in path {
        if !nests_in(reached, field.kind) {
            return false;
        }
        reached = field.kind;
    }
    allows(reached, act)
}

/// Whether a field of the inner kind may stand in an object of the outer one.
pub fn nests_in(outer: Kind, inner: Kind) -> bool
    ensures { result ≡ nests_in outer inner }
{
    match outer {
        Kind::MapGo => true,
        Kind::MapRr => has_reset(inner),
        _ => false,
    }
}

/// Whether every update of the kind can be undone.
fn has_reset(kind: Kind) -> bool
    ensures { result ≡ nests_in Kind.MapRr kind }
{
    match kind {
        Kind::CounterFat
        | Kind::SetAw
        | Kind::SetRw
        | Kind::FlagEw
        | Kind::FlagDw
        | Kind::RegisterMv
        | Kind::MapRr => true,
        _ => false,
    }
}

/// Whether the act is one of the kind's own.
fn allows(kind: Kind, act: &Act) -> bool
    ensures { result ≡ allows kind act.now }
{
    match kind {
        Kind::CounterPn => is_amount(act),
        Kind::CounterFat => is_amount(act) || is_reset(act),
        Kind::SetGo => is_add(act),
        Kind::SetAw | Kind::SetRw => is_add(act) || is_remove(act) || is_reset(act),
        Kind::FlagEw | Kind::FlagDw => is_switch(act) || is_reset(act),
        Kind::RegisterLww => is_assign(act),
        Kind::RegisterMv => is_assign(act) || is_reset(act),
        Kind::MapGo => false,
        Kind::MapRr => is_drop(act) || is_reset(act),
    }
}

fn is_amount(act: &Act) -> bool
    ensures { result ≡ is_amount act.now }
{
    matches!(act, Act::Increment(_) | Act::Decrement(_))
}

fn is_reset(act: &Act) -> bool
    ensures { result ≡ is_reset act.now }
{
    matches!(act, Act::Reset)
}

fn is_switch(act: &Act) -> bool
    ensures { result ≡ is_switch act.now }
{
    matches!(act, Act::Enable | Act::Disable)
}

fn is_assign(act: &Act) -> bool
    ensures { result ≡ is_assign act.now }
{
    matches!(act, Act::Assign(_))
}

fn is_add(act: &Act) -> bool
    ensures { result ≡ is_add act.now }
{
    match act {
        Act::Add(names) => !names.as_slice().is_empty(),
        _ => false,
    }
}

fn is_remove(act: &Act) -> bool
    ensures { result ≡ is_remove act.now }
{
    match act {
        Act::Remove(names) => !names.as_slice().is_empty(),
        _ => false,
    }
}

fn is_drop(act: &Act) -> bool
    ensures { result ≡ is_drop act.now }
{
    match act {
        Act::DropField(field) => has_reset(field.kind),
        _ => false,
    }
}

/// What may stand in a map whose fields can be dropped, and be dropped there, is what can be reset. The other map has
/// fields of each kind, and no kind but the maps has fields. A map's own acts are resets and drops.
pub fn law_table()
    ensures resets { (k : Kind) → nests_in MapRr k ≡ fits k [] Reset }
    ensures drops { (f : Field) → fits MapRr [] (DropField f) ≡ fits f.kind [] Reset }
    ensures any { (k : Kind) → nests_in MapGo k ≡ true }
    ensures fields { (k : Kind) (f : Field) (p : List Field) (a : Act) → fits k (f ∷ p) a ≡ true → is_map k ≡ true }
    ensures own { (k : Kind) (a : Act) → is_map k ≡ true → fits k [] a ≡ true → (fits k [] Reset ≡ true) × ((is_reset a || is_drop a) ≡ true) }
{}

/// Whether an update's effect depends on the state that it read.
pub fn reads_state(kind: Kind) -> bool
    ensures { result ≡ reads_state kind }
{
    !matches!(kind, Kind::CounterPn | Kind::SetGo)
}
