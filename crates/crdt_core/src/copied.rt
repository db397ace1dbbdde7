ghost use Rattle.std.specs.Prelude.{◌≡◌};

use field_codec::Text;

/// Values whose clones are the same.
pub trait Copied: Clone + Drop {
    /// A clone is the value that it is a clone of.
    ghost exact: { (value clone : Self) → Self.is_clone value clone → clone ≡ value };
}

impl Copied for i64 {
    ghost exact = { λ value clone same. same };
}

impl Copied for bool {
    ghost exact = { λ value clone same. same };
}

impl Copied for Text {
    ghost exact = { λ value clone same. same };
}
