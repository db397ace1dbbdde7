use site_vector::PartId;

/// Why a client ends early.
#[derive(Clone, Copy, Debug)]
pub enum Fault {
    /// Memory ran out.
    NoMemory,
    /// This partition is down, or refuses for good, or its disk failed.
    Down(PartId),
}
