ghost use Rattle.std.specs.Prelude.{◌≡◌};
ghost use Rattle.txn_session.specs.Calls.{handed_as};
ghost use Rattle.partition_core.specs.Answers.{cause};
ghost use Rattle.partition_lock.specs.Lines.{refusal_line, FailsAs};

use partition_core::{DurableError, Refusal};
use site_vector::{PartId, TxId};
use std::alloc::AllocError;
use world_model::Step;

/// No transaction: of a call that names none.
pub(crate) const NO_TX: TxId = TxId {
    site: 0,
    part: 0,
    time: 0,
};

/// The line of a refusal, which may name a transaction or a message.
fn refused(at: PartId, tx: TxId, number: u64, why: Refusal) -> Step
    ensures { result ≡ refusal_line at tx number (cause why) }
{
    match why {
        Refusal::ClockBehind { at: now } => Step::WaitClock { part: at, now },
        Refusal::TxPending { tx, time } => Step::WaitTxn { part: at, tx, time },
        Refusal::StableBehind { site, have } => Step::WaitStable { site, have },
        Refusal::ClockAtEnd => Step::TimeEnd,
        Refusal::BadOp => Step::BadOp,
        Refusal::Gone => Step::Gone { part: at, tx },
        Refusal::Gap { have } => Step::Gap { number, have },
        Refusal::Repeat { have } => Step::Dup { number, have },
    }
}

/// The line of an error; `cut` where the disk cut the call off. Want of memory has none.
pub(crate) fn unanswered(
    at: PartId,
    tx: TxId,
    number: u64,
    cut: Step,
    error: DurableError,
) -> Result<Step, AllocError>
    ensures { FailsAs at tx number cut error result }
{
    match error {
        DurableError::NoMemory => Err(AllocError),
        DurableError::Down => Ok(Step::Down { part: at }),
        DurableError::Disk => Ok(cut),
        DurableError::Full { room } => Ok(Step::Full { room }),
        DurableError::Refused(why) => Ok(refused(at, tx, number, why)),
    }
}

/// The line of a message or report that was handed on by this number.
pub(crate) fn handed(number: u64, line: Step) -> Step
    ensures { result ≡ handed_as number line }
{
    match line {
        Step::Took { number: _, hi } => Step::Took { number, hi },
        Step::Dup { number: _, have } => Step::Dup { number, have },
        Step::Gap { number: _, have } => Step::Gap { number, have },
        Step::Heard {
            number: _,
            part,
            stable,
        } => Step::Heard {
            number,
            part,
            stable,
        },
        other => other,
    }
}
