/// Where a log stands on its disk.
#[derive(Clone, Copy, Debug)]
pub(crate) struct Spot {
    // Whether the second start is in use.
    pub(crate) second: bool,
    // The place of the format byte of the area in use.
    pub(crate) start: u64,
    // The place of the closed gate behind its tail.
    pub(crate) end: u64,
    pub(crate) format: u8,
}
