ghost use Rattle.std.specs.Prelude.{◌≡◌};
ghost use Rattle.std.specs.Option.{option_copied};
ghost use Rattle.crdt_any.specs.Layer.{simple_state, map_go_state, map_rr_state};

use crate::SimpleState;
use crdt_maps::Fields;

/// The state of an object of any kind, where `S` are the states of the fields of maps.
#[derive(Drop)]
pub enum LayerState<S> {
    Simple(SimpleState),
    MapGo(Fields<S>),
    MapRr(Fields<S>),
}

impl<S> LayerState<S> {
    /// The state, if it is that of a kind without fields.
    pub fn simple(&self) -> Option<&SimpleState>
        ensures { option_copied result ≡ simple_state self.now }
    {
        match self {
            LayerState::Simple(state) => Some(state),
            _ => None,
        }
    }

    /// The state, if it is that of a `MapGo`.
    pub fn map_go(&self) -> Option<&Fields<S>>
        ensures { option_copied result ≡ map_go_state self.now }
    {
        match self {
            LayerState::MapGo(state) => Some(state),
            _ => None,
        }
    }

    /// The state, if it is that of a `MapRr`.
    pub fn map_rr(&self) -> Option<&Fields<S>>
        ensures { option_copied result ≡ map_rr_state self.now }
    {
        match self {
            LayerState::MapRr(state) => Some(state),
            _ => None,
        }
    }
}
