use crdt_core::Dots;

/// What an update of a `CounterFat` does.
#[derive(Drop)]
pub enum FatEffect {
    /// Puts an amount from -2^31 to 2^31 at its dot.
    Amount(i64),
    /// Takes out the amounts at these dots.
    Reset(Dots),
}
