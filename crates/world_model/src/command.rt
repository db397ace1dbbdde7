use crdt_core::{ObjectId, Op};
use field_codec::Text;
use site_vector::{PartId, TxId};

/// How a transaction begins.
#[derive(Clone, Copy, Debug, PartialEq, Eq)]
pub enum Mode {
    /// From the present of its own site, and what is stable of the others. Its reads may have to wait.
    Fresh,
    /// From what is stable of all sites, its own among them. Its reads never wait.
    Stable,
}

/// A line of a script, read. Sites and partitions are numbered from 1, `name` names a session, and a
/// numeral without another range is below 2^48.
#[derive(Debug, Drop)]
pub enum Command {
    /// `cluster D N`: makes D sites, from 1 to 8, of N partitions each, from 1 to 16.
    Cluster {
        sites: u8,
        parts: u8,
    },
    /// `clock P n`: the clock of the partition is read at `n`.
    Clock {
        part: PartId,
        n: u64,
    },
    /// `session S d`: makes a session at the site.
    Session {
        name: Text,
        site: u8,
    },
    /// `move S d`: the session goes on at the site.
    Move {
        name: Text,
        site: u8,
    },
    /// `lose S`: removes the session.
    Lose {
        name: Text,
    },
    /// `begin S [P] [stable]`: begins a transaction at the partition, or at the first of the session's site.
    Begin {
        name: Text,
        part: Option<PartId>,
        mode: Mode,
    },
    /// `read S O`: reads the object.
    Read {
        name: Text,
        object: ObjectId,
    },
    /// `update S O path act`: updates the object.
    Update {
        name: Text,
        object: ObjectId,
        op: Op,
    },
    /// `commit S [k]`: makes the steps of the commit that are left, or `k` of them, at least 1.
    Commit {
        name: Text,
        steps: Option<u64>,
    },
    /// `abort S`: gives the transaction up.
    Abort {
        name: Text,
    },
    /// `expire P T`: aborts a transaction that the partition leads and holds prepared.
    Expire {
        part: PartId,
        tx: TxId,
    },
    /// `settle P`: asks the leads of the partition's pending transactions for their fates.
    Settle {
        part: PartId,
    },
    /// `send P d [n]`: makes a message for the site, from the bound `n`, at most 2^62, or the last one sent.
    Send {
        part: PartId,
        site: u8,
        from: Option<u64>,
    },
    /// `deliver mK`: delivers the message.
    Deliver {
        number: u64,
    },
    /// `drop mK`: drops the message.
    DropMessage {
        number: u64,
    },
    /// `drop gK`: drops the report.
    DropReport {
        number: u64,
    },
    /// `report P`: the partition reports its bounds.
    Report {
        part: PartId,
    },
    /// `hear gK P`: the partition hears the report.
    Hear {
        number: u64,
        part: PartId,
    },
    /// `crash P`: the partition loses what it has not stored.
    Crash {
        part: PartId,
    },
    /// `fuse P k n`: the disk's `k`-th call from now on fails, `k` at least 1; a write keeps `n` bytes.
    Fuse {
        part: PartId,
        call: u64,
        keep: u64,
    },
    /// `restart P`: the partition reads its log.
    Restart {
        part: PartId,
    },
}
