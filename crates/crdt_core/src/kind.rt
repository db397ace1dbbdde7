ghost use Rattle.std.specs.Prelude.{◌≡◌, ◌<◌, ◌≤◌, IfSome, IfNone, ◌⊎◌};
ghost use Rattle.crdt_core.specs.Kinds.{kind_code};

/// The kinds of objects and fields, in the order of their codes from 1 to 11.
/// The names are those of AntidoteDB's library of types.
#[derive(Clone, Copy, Debug, PartialEq, Eq, Hash)]
pub enum Kind {
    CounterPn,
    CounterFat,
    SetGo,
    SetAw,
    SetRw,
    FlagEw,
    FlagDw,
    RegisterLww,
    RegisterMv,
    MapGo,
    MapRr,
}

impl Kind {
    /// The code of the kind, from 1 to 11.
    pub fn code(self) -> u8
        ensures code { result ≡ kind_code self }
        ensures least { 1 ≤ result }
        ensures most { result ≤ 11 }
    {
        match self {
            Kind::CounterPn => 1,
            Kind::CounterFat => 2,
            Kind::SetGo => 3,
            Kind::SetAw => 4,
            Kind::SetRw => 5,
            Kind::FlagEw => 6,
            Kind::FlagDw => 7,
            Kind::RegisterLww => 8,
            Kind::RegisterMv => 9,
            Kind::MapGo => 10,
            Kind::MapRr => 11,
        }
    }

    /// The kind with this code, or `None` exactly where no kind has it.
    pub fn of_code(code: u8) -> Option<Kind>
        ensures some { IfSome result (λ k. kind_code k ≡ code) }
        ensures none { IfNone result ((code ≡ 0) ⊎ (11 < code)) }
    {
        Some(match code {
            1 => Kind::CounterPn,
            2 => Kind::CounterFat,
            3 => Kind::SetGo,
            4 => Kind::SetAw,
            5 => Kind::SetRw,
            6 => Kind::FlagEw,
            7 => Kind::FlagDw,
            8 => Kind::RegisterLww,
            9 => Kind::RegisterMv,
            10 => Kind::MapGo,
            11 => Kind::MapRr,
            _ => return None,
        })
    }
}
