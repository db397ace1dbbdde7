ghost use Rattle.std.specs.Prelude.{◌≡◌};
ghost use Rattle.std.specs.Option.{option_copied};
ghost use Rattle.crdt_any.specs.Layer.{simple_effect, map_go_effect, map_rr_effect};

use crate::SimpleEffect;
use crdt_maps::{Boxed, MapEffect};

/// The effect of an update of any kind, where `E` are the effects of the fields of maps. That of a map has memory of its
/// own: so an effect takes no room for a field's name, nor for all levels of maps.
#[derive(Drop)]
pub enum LayerEffect<E> {
    Simple(SimpleEffect),
    MapGo(Boxed<MapEffect<E>>),
    MapRr(Boxed<MapEffect<E>>),
}

impl<E> LayerEffect<E> {
    /// The effect, if it is that of a kind without fields.
    pub fn simple(&self) -> Option<&SimpleEffect>
        ensures { option_copied result ≡ simple_effect self.now }
    {
        match self {
            LayerEffect::Simple(effect) => Some(effect),
            _ => None,
        }
    }

    /// The effect, if it is that of a `MapGo`.
    pub fn map_go(&self) -> Option<&MapEffect<E>>
        ensures { option_copied result ≡ map_go_effect self.now }
    {
        match self {
            LayerEffect::MapGo(effect) => Some(effect.get()),
            _ => None,
        }
    }

    /// The effect, if it is that of a `MapRr`.
    pub fn map_rr(&self) -> Option<&MapEffect<E>>
        ensures { option_copied result ≡ map_rr_effect self.now }
    {
        match self {
            LayerEffect::MapRr(effect) => Some(effect.get()),
            _ => None,
        }
    }
}
