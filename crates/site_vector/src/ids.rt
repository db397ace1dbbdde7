ghost use Rattle.std.specs.Prelude.{Some};
ghost use Rattle.site_vector.specs.Printed.{part_text, tx_text};

use std::fmt;

/// A partition of a site. Sites and partitions are numbered from 1.
#[derive(Clone, Copy, Debug, PartialEq, Eq, PartialOrd, Ord, Hash)]
pub struct PartId {
    pub site: u8,
    pub part: u8,
}

/// A transaction: the partition where it began, and the time in ticks that was drawn for it there.
#[derive(Clone, Copy, Debug, PartialEq, Eq, PartialOrd, Ord, Hash)]
pub struct TxId {
    pub site: u8,
    pub part: u8,
    pub time: u64,
}

/// One update of a transaction. Updates are numbered from 1.
#[derive(Clone, Copy, Debug, PartialEq, Eq, PartialOrd, Ord, Hash)]
pub struct Dot {
    pub tx: TxId,
    pub index: u16,
}

impl fmt::Display for PartId {
    ghost output = { λ p. Some (part_text p) };

    fn fmt<W: fmt::Write>(&self, f: &mut fmt::Formatter<W>) -> fmt::Result {
        write!(f, "{}.{}", self.site, self.part)
    }
}

impl fmt::Display for TxId {
    ghost output = { λ t. Some (tx_text t) };

    fn fmt<W: fmt::Write>(&self, f: &mut fmt::Formatter<W>) -> fmt::Result {
        write!(f, "{}.{}#{}", self.site, self.part, self.time)
    }
}
