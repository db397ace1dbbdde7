mod clock;
mod reads;
mod streams;
mod votes;

use crate::desk::Desk;
use crate::naming::Naming;
use crate::shared::Shared;
use crdt_core::Crdt;
use disk_core::Disk;
use site_vector::PartId;
use std::sync::{Mutex, Wait};

/// Where a partition stands among those of all sites.
pub(crate) fn index(parts: u8, at: PartId) -> usize {
    usize::from(at.site).saturating_sub(1) * usize::from(parts)
        + usize::from(at.part).saturating_sub(1)
}

impl<R: Wait + Drop, C: Crdt, D: Disk + Drop, J: Naming> Shared<R, C, D, J> {
    /// The lock of this partition.
    pub(crate) fn lock_at(&self, at: PartId) -> Option<&Mutex<Desk<C, D, J>>> {
        self.desks.get(index(self.parts, at))
    }

    /// Wakes who waits for this partition.
    pub(crate) fn wake(&self, at: PartId) {
        if let Some(bell) = self.woken.get(index(self.parts, at)) {
            bell.notify_all();
        }
    }
}
