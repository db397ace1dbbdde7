ghost use Rattle.std.specs.Prelude.{◌≡◌, ◌++◌, OnOk, OnErr};
ghost use Rattle.reply_text.specs.Text.{text_of};
ghost use Rattle.reply_text.specs.Words.{Begins};

use crate::restarted::put_restarted;
use crate::shapes::{
    put_message, put_message_number, put_name, put_number_number, put_one_number, put_one_part,
    put_one_text, put_one_tx, put_part_number, put_part_number_number, put_part_tx,
    put_part_tx_number, put_part_tx_vector, put_report, put_report_part_vector, put_sent,
    put_text_number, put_text_object_value, put_text_tx_vector, put_updated,
};
use std::alloc::{AllocError, Global};
use world_model::Step;

/// Adds the line of the step.
fn put_step(alloc: Global, step: &Step, out: &mut Vec<u8>) -> Result<(), AllocError>
    ensures ok { OnOk result (out.new.items ≡ out.old.items ++ text_of step.now) }
    ensures err { OnErr result (Begins out.old.items out.new.items) }
{
    match step {
        Step::MadeCluster { sites, parts } => put_number_number(
            alloc,
            out,
            "cluster",
            *sites as u64,
            *parts as u64,
        ),
        Step::Ticked { part, now } => put_part_number(out, "now", *part, *now),
        Step::MadeSession { name, site } => put_text_number(
            alloc,
            out,
            "session",
            name,
            *site as u64,
        ),
        Step::Moved { name, site } => put_text_number(alloc, out, "moved", name, *site as u64),
        Step::Lost { name } => put_one_text(alloc, out, "lost", name),
        Step::Began { name, tx, s } => put_text_tx_vector(alloc, out, "began", name, *tx, s),
        Step::Value {
            name,
            object,
            value,
        } => put_text_object_value(alloc, out, "value", name, object, value),
        Step::Updated {
            name,
            object,
            stamp,
        } => put_updated(alloc, out, name, object, *stamp),
        Step::Prepared { part, tx, time } => put_part_tx_number(out, "prepared", *part, *tx, *time),
        Step::Decided { part, tx, c } => put_part_tx_vector(out, "decided", *part, *tx, c),
        Step::Finished { part, tx } => put_part_tx(out, "finished", *part, *tx),
        Step::Aborted { part, tx } => put_part_tx(out, "aborted", *part, *tx),
        Step::Pending { part, tx } => put_part_tx(out, "pending", *part, *tx),
        Step::Ended { name } => put_one_text(alloc, out, "ended", name),
        Step::Settled { part } => put_one_part(out, "settled", *part),
        Step::Sent {
            number,
            part,
            to,
            lo,
            hi,
            count,
        } => put_sent(alloc, out, *number, *part, *to, *lo, *hi, *count),
        Step::Took { number, hi } => put_message_number(out, "took", *number, *hi),
        Step::Dup { number, have } => put_message_number(out, "dup", *number, *have),
        Step::Gap { number, have } => put_message_number(out, "gap", *number, *have),
        Step::DroppedMessage { number } => put_message(alloc, out, "dropped", *number),
        Step::DroppedReport { number } => put_report(alloc, out, "dropped", *number),
        Step::Reported {
            number,
            part,
            bounds,
        } => put_report_part_vector(alloc, out, "report", *number, *part, bounds),
        Step::Heard {
            number,
            part,
            stable,
        } => put_report_part_vector(alloc, out, "heard", *number, *part, stable),
        Step::Crashed { part } => put_one_part(out, "crashed", *part),
        Step::Fused { part, call, keep } => put_part_number_number(
            alloc, out, "fused", *part, *call, *keep,
        ),
        Step::Restarted {
            part,
            now,
            bounds,
            decided,
            pending,
        } => put_restarted(
            alloc,
            out,
            *part,
            *now,
            bounds,
            *decided,
            pending.as_slice(),
        ),
        Step::Bad => put_name(alloc, out, "bad"),
        Step::NoCluster => put_name(alloc, out, "no cluster"),
        Step::HasCluster => put_name(alloc, out, "has cluster"),
        Step::NoSession => put_name(alloc, out, "no session"),
        Step::HasSession => put_name(alloc, out, "has session"),
        Step::NoTxn => put_name(alloc, out, "no txn"),
        Step::HasTxn => put_name(alloc, out, "has txn"),
        Step::BadOp => put_name(alloc, out, "bad op"),
        Step::NoMessage => put_name(alloc, out, "no message"),
        Step::NoPart => put_name(alloc, out, "no part"),
        Step::Down { part } => put_one_part(out, "down", *part),
        Step::WaitClock { part, now } => put_part_number(out, "wait clock", *part, *now),
        Step::WaitTxn { part, tx, time } => put_part_tx_number(out, "wait txn", *part, *tx, *time),
        Step::WaitStable { site, have } => put_number_number(
            alloc,
            out,
            "wait stable",
            *site as u64,
            *have,
        ),
        Step::Disk { part } => put_one_part(out, "disk", *part),
        Step::Unsure { tx } => put_one_tx(alloc, out, "unsure", *tx),
        Step::Gone { part, tx } => put_part_tx(out, "gone", *part, *tx),
        Step::Damaged { part, at } => put_part_number(out, "damaged", *part, *at),
        Step::Full { room } => put_one_number(alloc, out, "limit log", *room),
        Step::TimeEnd => put_name(alloc, out, "limit time 4611686018427387904"),
        Step::LimitSessions => put_name(alloc, out, "limit sessions 64"),
        Step::LimitUpdates => put_name(alloc, out, "limit updates 256"),
        Step::LimitMessages => put_name(alloc, out, "limit messages 4096"),
        Step::LimitReports => put_name(alloc, out, "limit reports 4096"),
        Step::Unbuilt => put_name(alloc, out, "limit unbuilt 1"),
    }
}

/// Adds the one text of the step, with the line feed that ends it.
///
/// # Errors
///
/// `AllocError` where memory runs out. The bytes are as before then.
#[tactic(auto, using(crate::proofs::Front::front_kept))]
pub fn line(alloc: Global, step: &Step, out: &mut Vec<u8>) -> Result<(), AllocError>
    ensures ok { OnOk result (out.new.items ≡ out.old.items ++ text_of step.now) }
    ensures err { OnErr result (out.new.items ≡ out.old.items) }
{
    let before = out.len();
    match put_step(alloc, step, out) {
        Ok(()) => Ok(()),
        Err(error) => {
            out.truncate(before);
            Err(error)
        }
    }
}
