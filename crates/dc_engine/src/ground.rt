use std::marker::Brand;

/// What the disks of a play rest on, which each call picks.
pub(crate) trait Ground {
    /// Where this holds, each disk that is made fails only where it finds no memory to grow.
    ghost sound: { Type 0 };
}

impl Ground for Brand {
    ghost use Rattle.std.specs.Prelude.{⊤};

    ghost sound = { ⊤ };
}
