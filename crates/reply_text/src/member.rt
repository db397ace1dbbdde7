ghost use Rattle.std.specs.Prelude.{◌≡◌};
ghost use Rattle.std.specs.Ordering.{nat_cmp, eq_by_cmp, as_partial_cmp};
ghost use Rattle.std.specs.Cmp.Lexicographic.{slice_cmp};
ghost use Rattle.std.specs.Cmp.{eq_by_cmp_equiv, partial_equiv_from_equiv, partial_order_from_total};
ghost use Rattle.std.specs.Cmp.Rules.{comparing};
ghost use Rattle.std.proofs.Common.{rules};
ghost use Rattle.crdt_core.specs.Texts.{text_cmp_total};
ghost use Rattle.reply_text.specs.Members.{kind_place};

use crdt_core::{Field, Kind};
use std::cmp::Ordering;
use std::marker::Model;

/// A field, which contracts see as the name of its member. Members are in the order of their names, and none is made.
#[derive(Drop)]
pub struct Member<'a> {
    pub field: &'a Field,
}

impl<'a> Model for Member<'a> {
    ghost use Rattle.std.specs.Prelude.{ℕ, List};
    ghost use Rattle.reply_text.specs.Values.{member_name};

    ghost Value = { List ℕ };

    ghost view = { λ m. member_name m.field.now };
}

/// The place of the kind's name, with a colon behind it, among those of all kinds.
fn place_of(kind: Kind) -> u8
    ensures { result ≡ kind_place kind }
{
    match kind {
        Kind::CounterFat => 0,
        Kind::CounterPn => 1,
        Kind::FlagDw => 2,
        Kind::FlagEw => 3,
        Kind::MapGo => 4,
        Kind::MapRr => 5,
        Kind::RegisterLww => 6,
        Kind::RegisterMv => 7,
        Kind::SetAw => 8,
        Kind::SetGo => 9,
        Kind::SetRw => 10,
    }
}

impl<'a> PartialEq for Member<'a> {
    ghost eq = { eq_by_cmp (slice_cmp nat_cmp) };

    ghost laws = { partial_equiv_from_equiv (eq_by_cmp_equiv text_cmp_total) };

    fn eq(&self, other: &Member<'a>) -> bool {
        self.cmp(other).is_eq()
    }
}

impl<'a> Eq for Member<'a> {
    ghost laws = { eq_by_cmp_equiv text_cmp_total };
}

impl<'a> PartialOrd for Member<'a> {
    ghost partial_cmp = { as_partial_cmp (slice_cmp nat_cmp) };

    ghost laws = { partial_order_from_total text_cmp_total };

    fn partial_cmp(&self, other: &Member<'a>) -> Option<Ordering> {
        Some(self.cmp(other))
    }
}

impl<'a> Ord for Member<'a> {
    ghost cmp = { slice_cmp nat_cmp };

    ghost total = { text_cmp_total };

    ghost matches_partial_cmp = { Prim.search (comparing, rules) };

    ghost matches_eq = { Prim.search (comparing, rules) };

    #[tactic(auto, using(crate::proofs::MemberOrder::one_kind, crate::proofs::MemberOrder::two_kinds))]
    fn cmp(&self, other: &Member<'a>) -> Ordering {
        let (one, two) = (place_of(self.field.kind), place_of(other.field.kind));
        if one == two {
            return self.field.name.cmp(&other.field.name);
        }
        one.cmp(&two)
    }
}
