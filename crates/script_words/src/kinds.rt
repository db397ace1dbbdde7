ghost use Rattle.std.specs.Prelude.{◌≡◌, ℕ, List, Some};
ghost use Rattle.crdt_core.specs.declared.kind.Kind.{Kind};
ghost use Rattle.script_words.specs.Kinds as kinds;

use crate::bare::spells;
use crdt_core::Kind;

/// The name of the kind.
pub fn kind_name(kind: Kind) -> &'static str
    ensures { result.now ≡ kinds.kind_name kind }
{
    match kind {
        Kind::CounterPn => "counter_pn",
        Kind::CounterFat => "counter_fat",
        Kind::SetGo => "set_go",
        Kind::SetAw => "set_aw",
        Kind::SetRw => "set_rw",
        Kind::FlagEw => "flag_ew",
        Kind::FlagDw => "flag_dw",
        Kind::RegisterLww => "register_lww",
        Kind::RegisterMv => "register_mv",
        Kind::MapGo => "map_go",
        Kind::MapRr => "map_rr",
    }
}

/// The kind of this name.
pub fn kind_named(name: &[u8]) -> Option<Kind>
    ensures { result ≡ kinds.kind_named name.now }
{
    if spells(name, "counter_pn") {
        return Some(Kind::CounterPn);
    }
    if spells(name, "counter_fat") {
        return Some(Kind::CounterFat);
    }
    if spells(name, "set_go") {
        return Some(Kind::SetGo);
    }
    if spells(name, "set_aw") {
        return Some(Kind::SetAw);
    }
    if spells(name, "set_rw") {
        return Some(Kind::SetRw);
    }
    if spells(name, "flag_ew") {
        return Some(Kind::FlagEw);
    }
    if spells(name, "flag_dw") {
        return Some(Kind::FlagDw);
    }
    if spells(name, "register_lww") {
        return Some(Kind::RegisterLww);
    }
    if spells(name, "register_mv") {
        return Some(Kind::RegisterMv);
    }
    if spells(name, "map_go") {
        return Some(Kind::MapGo);
    }
    if spells(name, "map_rr") {
        return Some(Kind::MapRr);
    }
    None
}

/// The law of the names: each kind is the one of its name, and has no other name.
pub fn law_kind_names()
    ensures named { (kind : Kind) → kinds.kind_named (kinds.kind_name kind) ≡ Some kind }
    ensures only { (name : List ℕ) (kind : Kind) → kinds.kind_named name ≡ Some kind → name ≡ kinds.kind_name kind }
{}
