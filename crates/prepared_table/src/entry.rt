use crdt_core::UpdateList;
use site_vector::{TxId, VTime};

/// A transaction that is prepared and not ended.
#[derive(Drop)]
pub struct Entry<E> {
    pub tx: TxId,
    /// The number of the partition that decides.
    pub lead: u8,
    /// The prepare time, in logical ticks.
    pub time: u64,
    /// The snapshot.
    pub s: VTime,
    /// What it changes at this partition, ascending by number.
    pub updates: UpdateList<E>,
}
