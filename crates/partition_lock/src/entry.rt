/// What a partition keeps of each step: its stamp, and the number by which its caller made it.
#[derive(Clone, Copy, Debug)]
pub struct Entry {
    /// Greater than those of all steps that the caller had seen.
    pub stamp: u128,
    pub caller: u64,
}
