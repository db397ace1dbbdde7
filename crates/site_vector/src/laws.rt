ghost use Rattle.std.specs.Prelude.{◌≡◌, ◌≤◌, ℕ, List, true, length};
ghost use Rattle.std.specs.Cmp.{IsTotalOrder};
ghost use Rattle.std.specs.declared.cmp.Ordering.TheVariants.{Less, Equal};
ghost use Rattle.site_vector.specs.declared.ids.PartId.{PartId};
ghost use Rattle.site_vector.specs.declared.ids.TxId.{TxId};
ghost use Rattle.site_vector.specs.declared.ids.Dot.{Dot};
ghost use Rattle.site_vector.specs.Order.{part_cmp, tx_cmp, dot_cmp};
ghost use Rattle.site_vector.specs.Vector.{le, join, meet, entry, order};

use crate::{Dot, PartId, TxId};

/// The law of `VTime::cmp_order`: a total order in which only equal vectors tie, and in which a vector
/// stands before every other one of its width that it is at most.
#[tactic(auto, using(crate::specs::VectorLaws::order_total, crate::specs::VectorLaws::order_exact, crate::specs::VectorLaws::order_extends_le))]
pub fn law_order()
    ensures total { IsTotalOrder order }
    ensures exact { (u v : List ℕ) → order u v ≡ Equal → u ≡ v }
    ensures extends { (u v : List ℕ) → length u ≡ length v → le u v ≡ true → (u ≡ v → ⊥) → order u v ≡ Less }
{}

/// The laws of `VTime::le`, `join` and `meet`: vectors of one width are partially ordered by all their entries, the join of two
/// is the least that both are at most, and the meet the greatest that is at most both.
#[tactic(auto, using(crate::specs::VectorLaws::le_refl, crate::specs::VectorLaws::le_trans, crate::specs::VectorLaws::le_antisym, crate::specs::VectorLaws::le_entry, crate::specs::VectorLaws::le_join, crate::specs::VectorLaws::le_join_right, crate::specs::VectorLaws::join_le, crate::specs::VectorLaws::meet_le, crate::specs::VectorLaws::meet_le_right, crate::specs::VectorLaws::le_meet))]
pub fn law_lattice()
    ensures reflexive { (u : List ℕ) → le u u ≡ true }
    ensures transitive { (u v w : List ℕ) → le u v ≡ true → le v w ≡ true → le u w ≡ true }
    ensures antisymmetric { (u v : List ℕ) → length u ≡ length v → le u v ≡ true → le v u ≡ true → u ≡ v }
    ensures entries { (u v : List ℕ) (site : ℕ) → le u v ≡ true → entry u site ≤ entry v site }
    ensures join_above { (u v : List ℕ) → length u ≡ length v → (le u (join u v) ≡ true) × (le v (join u v) ≡ true) }
    ensures join_least { (u v w : List ℕ) → le u w ≡ true → le v w ≡ true → le (join u v) w ≡ true }
    ensures meet_below { (u v : List ℕ) → length u ≡ length v → (le (meet u v) u ≡ true) × (le (meet u v) v ≡ true) }
    ensures meet_greatest { (u v w : List ℕ) → length u ≡ length v → le w u ≡ true → le w v ≡ true → le w (meet u v) ≡ true }
{}

/// Places, transactions and updates are ordered by their fields: a place by its site and then its partition, a
/// transaction by its place and then its time, an update by its transaction and then its number.
pub fn law_ids()
    ensures parts { (p q : PartId) → ⟦<PartId as Ord>⟧.cmp p q ≡ part_cmp p q }
    ensures transactions { (t u : TxId) → ⟦<TxId as Ord>⟧.cmp t u ≡ tx_cmp t u }
    ensures dots { (d e : Dot) → ⟦<Dot as Ord>⟧.cmp d e ≡ dot_cmp d e }
{}
