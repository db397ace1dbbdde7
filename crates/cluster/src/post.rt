use site_vector::{PartId, VTime};

/// A report that is kept: who made it, and the bounds, one time for each site.
#[derive(Clone, Copy, Debug)]
pub(crate) struct Note {
    pub(crate) from: PartId,
    pub(crate) bounds: VTime,
}
