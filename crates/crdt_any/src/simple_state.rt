ghost use Rattle.std.specs.Prelude.{◌≡◌};
ghost use Rattle.std.specs.Option.{option_copied};
ghost use Rattle.crdt_any.specs.Simple.{counter_pn_state, counter_fat_state, set_go_state, set_aw_state, set_rw_state, flag_ew_state, flag_dw_state, register_lww_state, register_mv_state};

use crdt_core::Kept;
use crdt_counters::Summed;
use crdt_registers::Stamped;
use crdt_sets::{Elements, TextSet};
use field_codec::Text;

/// The state of an object of a kind without fields.
#[derive(Drop)]
pub enum SimpleState {
    CounterPn(i128),
    CounterFat(Summed),
    SetGo(TextSet),
    SetAw(Elements),
    SetRw(Elements),
    FlagEw(Kept<bool>),
    FlagDw(Kept<bool>),
    RegisterLww(Option<Stamped>),
    RegisterMv(Kept<Text>),
}

impl SimpleState {
    /// The state, if it is that of a `CounterPn`.
    pub fn counter_pn(&self) -> Option<&i128>
        ensures { option_copied result ≡ counter_pn_state self.now }
    {
        match self {
            SimpleState::CounterPn(state) => Some(state),
            _ => None,
        }
    }

    /// The state, if it is that of a `CounterFat`.
    pub fn counter_fat(&self) -> Option<&Summed>
        ensures { option_copied result ≡ counter_fat_state self.now }
    {
        match self {
            SimpleState::CounterFat(state) => Some(state),
            _ => None,
        }
    }

    /// The state, if it is that of a `SetGo`.
    pub fn set_go(&self) -> Option<&TextSet>
        ensures { option_copied result ≡ set_go_state self.now }
    {
        match self {
            SimpleState::SetGo(state) => Some(state),
            _ => None,
        }
    }

    /// The state, if it is that of a `SetAw`.
    pub fn set_aw(&self) -> Option<&Elements>
        ensures { option_copied result ≡ set_aw_state self.now }
    {
        match self {
            SimpleState::SetAw(state) => Some(state),
            _ => None,
        }
    }

    /// The state, if it is that of a `SetRw`.
    pub fn set_rw(&self) -> Option<&Elements>
        ensures { option_copied result ≡ set_rw_state self.now }
    {
        match self {
            SimpleState::SetRw(state) => Some(state),
            _ => None,
        }
    }

    /// The state, if it is that of a `FlagEw`.
    pub fn flag_ew(&self) -> Option<&Kept<bool>>
        ensures { option_copied result ≡ flag_ew_state self.now }
    {
        match self {
            SimpleState::FlagEw(state) => Some(state),
            _ => None,
        }
    }

    /// The state, if it is that of a `FlagDw`.
    pub fn flag_dw(&self) -> Option<&Kept<bool>>
        ensures { option_copied result ≡ flag_dw_state self.now }
    {
        match self {
            SimpleState::FlagDw(state) => Some(state),
            _ => None,
        }
    }

    /// The state, if it is that of a `RegisterLww`.
    pub fn register_lww(&self) -> Option<&Option<Stamped>>
        ensures { option_copied result ≡ register_lww_state self.now }
    {
        match self {
            SimpleState::RegisterLww(state) => Some(state),
            _ => None,
        }
    }

    /// The state, if it is that of a `RegisterMv`.
    pub fn register_mv(&self) -> Option<&Kept<Text>>
        ensures { option_copied result ≡ register_mv_state self.now }
    {
        match self {
            SimpleState::RegisterMv(state) => Some(state),
            _ => None,
        }
    }
}
