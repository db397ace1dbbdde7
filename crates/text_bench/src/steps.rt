ghost use Rattle.std.specs.Prelude.{IfOk, IfSome};
ghost use Rattle.text_bench.specs.Shown.{Shows};

use crate::values::value_of;
use crdt_core::Kind;
use field_codec::ListOf;
use site_vector::{PartId, TxId, VTime};
use std::alloc::{AllocError, Global};
use world_model::{Command, Step};

/// The transaction of each step.
const TX: TxId = TxId {
    site: 1,
    part: 1,
    time: 1_001,
};

/// The vector of each step.
fn bounds() -> VTime {
    VTime::zero(3).with(1, 2_010)
}

/// The stamp of an assign.
fn stamp_of(kind: Kind) -> Option<u64> {
    match kind {
        Kind::RegisterLww => Some(7),
        _ => None,
    }
}

/// Two pending transactions and their times.
fn two_pending(alloc: Global) -> Result<ListOf<(TxId, u64)>, AllocError> {
    let mut pending = ListOf::new(alloc);
    pending.push((TX, 102))?;
    pending.push((TX, 104))?;
    Ok(pending)
}

/// The step that answers a command about what stands in a partition, with the words of the command.
fn step_at_part(alloc: Global, command: &Command) -> Result<Option<Step>, AllocError>
    ensures { IfOk result (λ found. IfSome found (λ step. Shows command.now step)) }
{
    match command {
        Command::Clock { part, n } => Ok(Some(Step::Ticked {
            part: *part,
            now: *n,
        })),
        Command::Expire { part, tx } => Ok(Some(Step::Aborted {
            part: *part,
            tx: *tx,
        })),
        Command::Settle { part } => Ok(Some(Step::Settled { part: *part })),
        Command::Crash { part } => Ok(Some(Step::Crashed { part: *part })),
        Command::Fuse { part, call, keep } => Ok(Some(Step::Fused {
            part: *part,
            call: *call,
            keep: *keep,
        })),
        Command::Restart { part } => {
            let pending = two_pending(alloc)?;
            Ok(Some(Step::Restarted {
                part: *part,
                now: 2_010,
                bounds: bounds(),
                decided: Some(TX),
                pending,
            }))
        }
        _ => Ok(None),
    }
}

/// The step that answers a command about messages and reports, with the words of the command.
fn step_between_sites(command: &Command) -> Option<Step>
    ensures { IfSome result (λ step. Shows command.now step) }
{
    match command {
        Command::Send { part, site, from } => Some(Step::Sent {
            number: 3,
            part: *part,
            to: *site,
            lo: from.unwrap_or(0),
            hi: 2_010,
            count: 1,
        }),
        Command::Deliver { number } => Some(Step::Took {
            number: *number,
            hi: 2_010,
        }),
        Command::DropMessage { number } => Some(Step::DroppedMessage { number: *number }),
        Command::DropReport { number } => Some(Step::DroppedReport { number: *number }),
        Command::Report { part } => Some(Step::Reported {
            number: 1,
            part: *part,
            bounds: bounds(),
        }),
        Command::Hear { number, part } => Some(Step::Heard {
            number: *number,
            part: *part,
            stable: bounds(),
        }),
        _ => None,
    }
}

/// A transaction that began at the place, or at the first.
fn tx_at(part: Option<PartId>) -> TxId {
    match part {
        None => TX,
        Some(part) => TxId {
            site: part.site,
            part: part.part,
            time: 1_001,
        },
    }
}

/// The step that answers a command about objects, with the words of the command.
fn step_of_object(alloc: Global, command: &Command) -> Result<Option<Step>, AllocError>
    ensures { IfOk result (λ found. IfSome found (λ step. Shows command.now step)) }
{
    match command {
        Command::Read { name, object } => {
            let name = name.copy(alloc)?;
            let value = value_of(alloc, object.kind)?;
            let object = object.copy(alloc)?;
            Ok(Some(Step::Value {
                name,
                object,
                value,
            }))
        }
        Command::Update {
            name,
            object,
            op: _,
        } => {
            let name = name.copy(alloc)?;
            let stamp = stamp_of(object.kind);
            let object = object.copy(alloc)?;
            Ok(Some(Step::Updated {
                name,
                object,
                stamp,
            }))
        }
        _ => Ok(None),
    }
}

/// The step that answers a command of a session, with the words of the command.
fn step_of_session(alloc: Global, command: &Command) -> Result<Option<Step>, AllocError>
    ensures { IfOk result (λ found. IfSome found (λ step. Shows command.now step)) }
{
    match command {
        Command::Session { name, site } => {
            let name = name.copy(alloc)?;
            Ok(Some(Step::MadeSession { name, site: *site }))
        }
        Command::Move { name, site } => {
            let name = name.copy(alloc)?;
            Ok(Some(Step::Moved { name, site: *site }))
        }
        Command::Lose { name } => {
            let name = name.copy(alloc)?;
            Ok(Some(Step::Lost { name }))
        }
        Command::Begin {
            name,
            part,
            mode: _,
        } => {
            let name = name.copy(alloc)?;
            let tx = tx_at(*part);
            Ok(Some(Step::Began {
                name,
                tx,
                s: bounds(),
            }))
        }
        Command::Commit { name, steps: _ } => {
            let name = name.copy(alloc)?;
            Ok(Some(Step::Ended { name }))
        }
        Command::Abort { name } => {
            let name = name.copy(alloc)?;
            Ok(Some(Step::Ended { name }))
        }
        _ => Ok(None),
    }
}

/// A step that answers the command, with its words.
pub fn step_of(alloc: Global, command: &Command) -> Result<Option<Step>, AllocError>
    ensures { IfOk result (λ found. IfSome found (λ step. Shows command.now step)) }
{
    if let Command::Cluster { sites, parts } = command {
        return Ok(Some(Step::MadeCluster {
            sites: *sites,
            parts: *parts,
        }));
    }
    if let Some(step) = step_between_sites(command) {
        return Ok(Some(step));
    }
    if let Some(step) = step_at_part(alloc, command)? {
        return Ok(Some(step));
    }
    if let Some(step) = step_of_object(alloc, command)? {
        return Ok(Some(step));
    }
    step_of_session(alloc, command)
}
