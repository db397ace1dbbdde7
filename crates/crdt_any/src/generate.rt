ghost use Rattle.std.specs.Prelude.{◌≡◌, IfOk, true, false};
ghost use Rattle.crdt_core.specs.EffectForm.{HoldsSpelled, IsReady};
ghost use Rattle.crdt_core.specs.Fits.{fits};
ghost use Rattle.crdt_any.specs.Layer.{layer_made, layer_too_deep, layer_holds};
ghost use Rattle.crdt_any.specs.LayerForm.{layer_is_of, layer_can_put, layer_sets, layer_spelling};

use crate::inner::made_on;
use crate::{LayerEffect, LayerState, Simple};
use crdt_core::{Act, Crdt, Field, Kind};
use crdt_maps::{Boxed, MapGo, MapRr};
use std::alloc::{AllocError, Global};

/// The effect of an act that the kind has.
///
/// # Errors
///
/// `AllocError` where memory runs out.
pub fn effect_of<I: Crdt>(
    alloc: Global,
    kind: Kind,
    path: &[Field],
    act: &Act,
    state: &LayerState<I::State>,
    now: u64,
) -> Result<LayerEffect<I::Effect>, AllocError>
    requires fitting { fits kind path.now act.now ≡ true }
    requires shallow { layer_too_deep I.has I.too_deep kind path.now ≡ false }
    ensures made { IfOk result (λ e. e ≡ layer_made I.has I.initial I.generated I.is_blank kind state.now path.now act.now now) }
    ensures ready { HoldsSpelled (layer_holds I.holds) state.now → IfOk result (λ e. IsReady layer_is_of (layer_can_put I.has I.is_of I.can_put I.spelling) (layer_sets I.sets) (layer_spelling I.spelling) kind path.now act.now e) }
{
    match kind {
        Kind::MapGo => {
            let effect = made_on::<MapGo<I>>(alloc, kind, path, act, state.map_go(), now)?;
            let boxed = Boxed::new(alloc, effect)?;
            Ok(LayerEffect::MapGo(boxed))
        }
        Kind::MapRr => {
            let effect = made_on::<MapRr<I>>(alloc, kind, path, act, state.map_rr(), now)?;
            let boxed = Boxed::new(alloc, effect)?;
            Ok(LayerEffect::MapRr(boxed))
        }
        _ => {
            let effect = made_on::<Simple>(alloc, kind, path, act, state.simple(), now)?;
            Ok(LayerEffect::Simple(effect))
        }
    }
}
