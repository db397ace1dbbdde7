ghost use Rattle.std.specs.Prelude.{◌≡◌, IfOk};

use crdt_core::{ObjectId, Value};
use field_codec::{ListOf, Text};
use site_vector::{PartId, TxId, VTime};
use std::alloc::{AllocError, Global};

/// What was done, one for each line of a reply. `S` stands for the session `name`, `P` for `part`, `T` for
/// `tx`, `O` for `object`, and `[s]` for the entries of a vector.
#[derive(Debug, Drop)]
pub enum Step {
    /// `cluster D N`
    MadeCluster {
        sites: u8,
        parts: u8,
    },
    /// `now P n`: the clock's value.
    Ticked {
        part: PartId,
        now: u64,
    },
    /// `session S d`
    MadeSession {
        name: Text,
        site: u8,
    },
    /// `moved S d`
    Moved {
        name: Text,
        site: u8,
    },
    /// `lost S`
    Lost {
        name: Text,
    },
    /// `began S T [s]`: the transaction and its snapshot.
    Began {
        name: Text,
        tx: TxId,
        s: VTime,
    },
    /// `value S O json`
    Value {
        name: Text,
        object: ObjectId,
        value: Value,
    },
    /// `updated S O`, and ` stamp n` after it for an assign to a register that the last writer wins.
    Updated {
        name: Text,
        object: ObjectId,
        stamp: Option<u64>,
    },
    /// `prepared P T n`: prepared at the time `n`.
    Prepared {
        part: PartId,
        tx: TxId,
        time: u64,
    },
    /// `decided P T [c]`: the commit vector.
    Decided {
        part: PartId,
        tx: TxId,
        c: VTime,
    },
    /// `finished P T`
    Finished {
        part: PartId,
        tx: TxId,
    },
    /// `aborted P T`
    Aborted {
        part: PartId,
        tx: TxId,
    },
    /// `pending P T`
    Pending {
        part: PartId,
        tx: TxId,
    },
    /// `ended S`
    Ended {
        name: Text,
    },
    /// `settled P`
    Settled {
        part: PartId,
    },
    /// `sent mK P d (lo,hi] count`: the message's interval, and how many parts it holds.
    Sent {
        number: u64,
        part: PartId,
        to: u8,
        lo: u64,
        hi: u64,
        count: u64,
    },
    /// `took mK hi`
    Took {
        number: u64,
        hi: u64,
    },
    /// `dup mK n`: the receiver's bound, which the message doesn't pass.
    Dup {
        number: u64,
        have: u64,
    },
    /// `gap mK n`: the receiver's bound, which the message begins above.
    Gap {
        number: u64,
        have: u64,
    },
    /// `dropped mK`
    DroppedMessage {
        number: u64,
    },
    /// `dropped gK`
    DroppedReport {
        number: u64,
    },
    /// `report gK P [b]`: the partition's bounds.
    Reported {
        number: u64,
        part: PartId,
        bounds: VTime,
    },
    /// `heard gK P [stable]`: the site's stable vector as the partition knows it.
    Heard {
        number: u64,
        part: PartId,
        stable: VTime,
    },
    /// `crashed P`
    Crashed {
        part: PartId,
    },
    /// `fused P k n`
    Fused {
        part: PartId,
        call: u64,
        keep: u64,
    },
    /// `restarted P now [b]`, then ` decided T` where the log has a decision, its last one, then
    /// ` pending T n` for each pending transaction, with its prepare time.
    Restarted {
        part: PartId,
        now: u64,
        bounds: VTime,
        decided: Option<TxId>,
        pending: ListOf<(TxId, u64)>,
    },

    /// `bad`: the line isn't in the grammar.
    Bad,
    /// `no cluster`
    NoCluster,
    /// `has cluster`
    HasCluster,
    /// `no session`
    NoSession,
    /// `has session`
    HasSession,
    /// `no txn`: the session has no transaction in the state that the command needs.
    NoTxn,
    /// `has txn`: the session isn't idle.
    HasTxn,
    /// `bad op`: the operation isn't one of the kind.
    BadOp,
    /// `no message`: the message or report isn't kept.
    NoMessage,
    /// `no part`: a named place isn't one that the command may name.
    NoPart,
    /// `down P`: the partition crashed or met a disk fault, and has not restarted.
    Down {
        part: PartId,
    },
    /// `wait clock P n`: the partition's clock, at `n`, has not reached the snapshot.
    WaitClock {
        part: PartId,
        now: u64,
    },
    /// `wait txn P T n`: a pending transaction, prepared at `n`, may belong to the snapshot.
    WaitTxn {
        part: PartId,
        tx: TxId,
        time: u64,
    },
    /// `wait stable j n`: the stable entry `n` of the site is below what the session depends on.
    WaitStable {
        site: u8,
        have: u64,
    },
    /// `disk P`: the partition's disk failed in this command.
    Disk {
        part: PartId,
    },
    /// `unsure T`: the lead's disk failed as it decided.
    Unsure {
        tx: TxId,
    },
    /// `gone P T`: the partition holds the transaction in no state that the step needs.
    Gone {
        part: PartId,
        tx: TxId,
    },
    /// `damaged P at`: the log isn't one of the partition's from this byte on.
    Damaged {
        part: PartId,
        at: u64,
    },
    /// `limit log n`: the records would pass the disk's room.
    Full {
        room: u64,
    },
    /// `limit time 4611686018427387904`: the clock is at its end.
    TimeEnd,
    /// `limit sessions 64`
    LimitSessions,
    /// `limit updates 256`
    LimitUpdates,
    /// `limit messages 4096`
    LimitMessages,
    /// `limit reports 4096`
    LimitReports,
    /// `limit unbuilt 1`: the command is in the grammar, and not built yet.
    Unbuilt,
}

/// An equal list.
fn copy_pending(alloc: Global, pending: &[(TxId, u64)]) -> Result<ListOf<(TxId, u64)>, AllocError>
    ensures { IfOk result (λ p. p ≡ pending.now) }
{
    let mut all = ListOf::new(alloc);
    for (tx, time) in pending {
        all.push((*tx, *time))?;
    }
    Ok(all)
}

impl Step {
    /// An equal step.
    ///
    /// # Errors
    ///
    /// `AllocError` where memory runs out.
    pub fn copy(&self, alloc: Global) -> Result<Step, AllocError>
        ensures { IfOk result (λ s. s ≡ self.now) }
    {
        match self {
            Step::MadeCluster { sites, parts } => Ok(Step::MadeCluster {
                sites: *sites,
                parts: *parts,
            }),
            Step::Ticked { part, now } => Ok(Step::Ticked {
                part: *part,
                now: *now,
            }),
            Step::MadeSession { name, site } => Ok(Step::MadeSession {
                name: name.copy(alloc)?,
                site: *site,
            }),
            Step::Moved { name, site } => Ok(Step::Moved {
                name: name.copy(alloc)?,
                site: *site,
            }),
            Step::Lost { name } => Ok(Step::Lost {
                name: name.copy(alloc)?,
            }),
            Step::Began { name, tx, s } => Ok(Step::Began {
                name: name.copy(alloc)?,
                tx: *tx,
                s: *s,
            }),
            Step::Value {
                name,
                object,
                value,
            } => Ok(Step::Value {
                name: name.copy(alloc)?,
                object: object.copy(alloc)?,
                value: value.copy(alloc)?,
            }),
            Step::Updated {
                name,
                object,
                stamp,
            } => Ok(Step::Updated {
                name: name.copy(alloc)?,
                object: object.copy(alloc)?,
                stamp: *stamp,
            }),
            Step::Prepared { part, tx, time } => Ok(Step::Prepared {
                part: *part,
                tx: *tx,
                time: *time,
            }),
            Step::Decided { part, tx, c } => Ok(Step::Decided {
                part: *part,
                tx: *tx,
                c: *c,
            }),
            Step::Finished { part, tx } => Ok(Step::Finished {
                part: *part,
                tx: *tx,
            }),
            Step::Aborted { part, tx } => Ok(Step::Aborted {
                part: *part,
                tx: *tx,
            }),
            Step::Pending { part, tx } => Ok(Step::Pending {
                part: *part,
                tx: *tx,
            }),
            Step::Ended { name } => Ok(Step::Ended {
                name: name.copy(alloc)?,
            }),
            Step::Settled { part } => Ok(Step::Settled { part: *part }),
            Step::Sent {
                number,
                part,
                to,
                lo,
                hi,
                count,
            } => Ok(Step::Sent {
                number: *number,
                part: *part,
                to: *to,
                lo: *lo,
                hi: *hi,
                count: *count,
            }),
            Step::Took { number, hi } => Ok(Step::Took {
                number: *number,
                hi: *hi,
            }),
            Step::Dup { number, have } => Ok(Step::Dup {
                number: *number,
                have: *have,
            }),
            Step::Gap { number, have } => Ok(Step::Gap {
                number: *number,
                have: *have,
            }),
            Step::DroppedMessage { number } => Ok(Step::DroppedMessage { number: *number }),
            Step::DroppedReport { number } => Ok(Step::DroppedReport { number: *number }),
            Step::Reported {
                number,
                part,
                bounds,
            } => Ok(Step::Reported {
                number: *number,
                part: *part,
                bounds: *bounds,
            }),
            Step::Heard {
                number,
                part,
                stable,
            } => Ok(Step::Heard {
                number: *number,
                part: *part,
                stable: *stable,
            }),
            Step::Crashed { part } => Ok(Step::Crashed { part: *part }),
            Step::Fused { part, call, keep } => Ok(Step::Fused {
                part: *part,
                call: *call,
                keep: *keep,
            }),
            Step::Restarted {
                part,
                now,
                bounds,
                decided,
                pending,
            } => Ok(Step::Restarted {
                part: *part,
                now: *now,
                bounds: *bounds,
                decided: *decided,
                pending: copy_pending(alloc, pending.as_slice())?,
            }),
            Step::Bad => Ok(Step::Bad),
            Step::NoCluster => Ok(Step::NoCluster),
            Step::HasCluster => Ok(Step::HasCluster),
            Step::NoSession => Ok(Step::NoSession),
            Step::HasSession => Ok(Step::HasSession),
            Step::NoTxn => Ok(Step::NoTxn),
            Step::HasTxn => Ok(Step::HasTxn),
            Step::BadOp => Ok(Step::BadOp),
            Step::NoMessage => Ok(Step::NoMessage),
            Step::NoPart => Ok(Step::NoPart),
            Step::Down { part } => Ok(Step::Down { part: *part }),
            Step::WaitClock { part, now } => Ok(Step::WaitClock {
                part: *part,
                now: *now,
            }),
            Step::WaitTxn { part, tx, time } => Ok(Step::WaitTxn {
                part: *part,
                tx: *tx,
                time: *time,
            }),
            Step::WaitStable { site, have } => Ok(Step::WaitStable {
                site: *site,
                have: *have,
            }),
            Step::Disk { part } => Ok(Step::Disk { part: *part }),
            Step::Unsure { tx } => Ok(Step::Unsure { tx: *tx }),
            Step::Gone { part, tx } => Ok(Step::Gone {
                part: *part,
                tx: *tx,
            }),
            Step::Damaged { part, at } => Ok(Step::Damaged {
                part: *part,
                at: *at,
            }),
            Step::Full { room } => Ok(Step::Full { room: *room }),
            Step::TimeEnd => Ok(Step::TimeEnd),
            Step::LimitSessions => Ok(Step::LimitSessions),
            Step::LimitUpdates => Ok(Step::LimitUpdates),
            Step::LimitMessages => Ok(Step::LimitMessages),
            Step::LimitReports => Ok(Step::LimitReports),
            Step::Unbuilt => Ok(Step::Unbuilt),
        }
    }
}
