ghost use Rattle.std.specs.Prelude.{◌≡◌, List, true, false};
ghost use Rattle.crdt_core.specs.declared.kind.Kind.{Kind};
ghost use Rattle.crdt_core.specs.declared.object.Field.{Field};
ghost use Rattle.crdt_core.specs.declared.operation.Act.{Act};
ghost use Rattle.crdt_core.specs.Fits.{is_map, fits};
ghost use Rattle.crdt_core.specs.Seen.{Update};
ghost use Rattle.crdt_meanings.specs.Shows.{plain_meaning};
ghost use Rattle.crdt_any.specs.Depth.{leads_past};
ghost use Rattle.crdt_any.specs.Meanings.{HasMeanings};
ghost use Rattle.crdt_any.specs.declared.effect.LayerEffect.{LayerEffect};
ghost use Rattle.crdt_any.specs.LayerForm.{layer_keeps};

use crate::{Any, Layer};
use crdt_core::Crdt;

/// What `Any` reaches: every kind, and in maps three fields below the object, as deep as an operation of a kind leads.
#[tactic(auto, using(crate::specs::Depth::four_deep, crate::specs::Depth::fits_four))]
pub fn law_any()
    ensures kinds { (k : Kind) → ⟦<Any as Crdt>⟧.has k ≡ true }
    ensures too_deep { (k : Kind) (p : List Field) → ⟦<Any as Crdt>⟧.too_deep k p ≡ leads_past 3 k p }
    ensures fits { (k : Kind) (p : List Field) (a : Act) → fits k p a ≡ true → ⟦<Any as Crdt>⟧.too_deep k p ≡ false }
{}

/// What each kind of a layer means, by the definition of its crate: the fields of a map mean what they mean in the
/// layer within. What the laws of acts say of kinds without fields (`plain_meaning`) is said of these meanings.
#[tactic(auto, using(crate::specs::Meanings::layer_meanings, crate::specs::Meanings::layer_plain))]
pub fn law_meanings<I: Crdt>()
    ensures kinds { HasMeanings I.has I.meaning ⟦<Layer<I> as Crdt>⟧.meaning }
    ensures plain { (k : Kind) (us : List Update) → is_map k ≡ false → ⟦<Layer<I> as Crdt>⟧.meaning k us ≡ plain_meaning k us }
{}

/// What types hold of the effects of each kind beside what `put_effect` asks (`simple_keeps` lists it): that texts are
/// texts, and sets of updates in order. What can be put and is held so has a spelling (`law_effects`).
pub fn law_types<I: Crdt>()
    ensures { (e : LayerEffect I.Effect) → ⟦<Layer<I> as Crdt>⟧.keeps e ≡ layer_keeps I.keeps e }
{}
