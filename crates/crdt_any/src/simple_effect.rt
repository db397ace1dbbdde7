ghost use Rattle.std.specs.Prelude.{◌≡◌};
ghost use Rattle.std.specs.Option.{option_copied};
ghost use Rattle.crdt_any.specs.Simple.{counter_pn_effect, counter_fat_effect, set_go_effect, set_aw_effect, set_rw_effect, flag_ew_effect, flag_dw_effect, register_lww_effect, register_mv_effect};

use crdt_counters::FatEffect;
use crdt_flags::FlagEffect;
use crdt_meanings::Boxed;
use crdt_registers::{Assigned, MvEffect};
use crdt_sets::SetEffect;
use field_codec::{ListOf, Text};

/// The effect of an update of a kind without fields. Those that keep a text have memory of their own: so no effect takes
/// room for one.
#[derive(Drop)]
pub enum SimpleEffect {
    CounterPn(i64),
    CounterFat(FatEffect),
    SetGo(ListOf<Text>),
    SetAw(SetEffect),
    SetRw(SetEffect),
    FlagEw(FlagEffect),
    FlagDw(FlagEffect),
    RegisterLww(Boxed<Assigned>),
    RegisterMv(Boxed<MvEffect>),
}

impl SimpleEffect {
    /// The effect, if it is that of a `CounterPn`.
    pub fn counter_pn(&self) -> Option<&i64>
        ensures { option_copied result ≡ counter_pn_effect self.now }
    {
        match self {
            SimpleEffect::CounterPn(effect) => Some(effect),
            _ => None,
        }
    }

    /// The effect, if it is that of a `CounterFat`.
    pub fn counter_fat(&self) -> Option<&FatEffect>
        ensures { option_copied result ≡ counter_fat_effect self.now }
    {
        match self {
            SimpleEffect::CounterFat(effect) => Some(effect),
            _ => None,
        }
    }

    /// The effect, if it is that of a `SetGo`.
    pub fn set_go(&self) -> Option<&ListOf<Text>>
        ensures { option_copied result ≡ set_go_effect self.now }
    {
        match self {
            SimpleEffect::SetGo(effect) => Some(effect),
            _ => None,
        }
    }

    /// The effect, if it is that of a `SetAw`.
    pub fn set_aw(&self) -> Option<&SetEffect>
        ensures { option_copied result ≡ set_aw_effect self.now }
    {
        match self {
            SimpleEffect::SetAw(effect) => Some(effect),
            _ => None,
        }
    }

    /// The effect, if it is that of a `SetRw`.
    pub fn set_rw(&self) -> Option<&SetEffect>
        ensures { option_copied result ≡ set_rw_effect self.now }
    {
        match self {
            SimpleEffect::SetRw(effect) => Some(effect),
            _ => None,
        }
    }

    /// The effect, if it is that of a `FlagEw`.
    pub fn flag_ew(&self) -> Option<&FlagEffect>
        ensures { option_copied result ≡ flag_ew_effect self.now }
    {
        match self {
            SimpleEffect::FlagEw(effect) => Some(effect),
            _ => None,
        }
    }

    /// The effect, if it is that of a `FlagDw`.
    pub fn flag_dw(&self) -> Option<&FlagEffect>
        ensures { option_copied result ≡ flag_dw_effect self.now }
    {
        match self {
            SimpleEffect::FlagDw(effect) => Some(effect),
            _ => None,
        }
    }

    /// The effect, if it is that of a `RegisterLww`.
    pub fn register_lww(&self) -> Option<&Assigned>
        ensures { option_copied result ≡ register_lww_effect self.now }
    {
        match self {
            SimpleEffect::RegisterLww(effect) => Some(effect.get()),
            _ => None,
        }
    }

    /// The effect, if it is that of a `RegisterMv`.
    pub fn register_mv(&self) -> Option<&MvEffect>
        ensures { option_copied result ≡ register_mv_effect self.now }
    {
        match self {
            SimpleEffect::RegisterMv(effect) => Some(effect.get()),
            _ => None,
        }
    }
}
