ghost use Rattle.std.specs.Prelude.{◌≡◌, ◌≤◌, ◌++◌, true, take, Err, OnOk, OnErr};
ghost use Rattle.disk_core.specs.States.{Rose};
ghost use Rattle.disk_makers.specs.Makers.{MakesAll};
ghost use Rattle.dc_engine.specs.Makers.{IsUnchanged};
ghost use Rattle.dc_engine.specs.Reading.{makes_cluster};
ghost use Rattle.dc_engine.specs.Replies.{AnswersLine};
ghost use Rattle.dc_engine.specs.Blocks.{Moves, MovesFront, MovesBefore, none_begun};

use crate::responder::{MOST_BEGUN, Responder};
use crate::script::cutter::Cutter;
use crate::script::pending_line::PendingLine;
use crate::script::place::Cut;
use crate::unanswered::Unanswered;
use std::cmp::min;

/// Answers the line that begins with what is kept and ends with this piece. Nothing is kept then.
#[tactic(auto, using(crate::proofs::bytes::Moves::answers_front))]
fn answer_line<R: Responder>(
    responder: &mut R,
    disks: &mut R::Maker,
    piece: &[u8],
    begun: &mut PendingLine,
    out: &mut Vec<u8>,
) -> Result<(), Unanswered>
    requires held { R.holds responder.old disks.old }
    ensures held { R.holds responder.new disks.new }
    ensures later { (R.Maker.state disks.old).faults ≤ (R.Maker.state disks.new).faults }
    ensures cause { result ≡ Err Unanswered.NoDisk → Rose (R.Maker.state disks.old).faults (R.Maker.state disks.new).faults }
    ensures sure { MakesAll R.Maker.makes_all (result ≡ Err Unanswered.NoDisk) disks.old disks.new }
    ensures same { OnOk result (IsUnchanged (R.Maker.state disks.old) (R.Maker.state disks.new)) }
    ensures making { result ≡ Err Unanswered.NoDisk → makes_cluster R.Cutter.framing (take 4099 (begun.old.first ++ piece.now)) ≡ true }
    ensures lacks { result ≡ Err Unanswered.NoDisk → R.lacks responder.old }
    ensures ok { OnOk result (AnswersLine R.reached responder.old responder.new (take 4099 (begun.old.first ++ piece.now)) out.old.items out.new.items) }
    ensures none_begun { OnOk result (begun.new ≡ none_begun) }
    ensures err { OnErr result (out.new.items ≡ out.old.items) }
{
    if begun.is_empty() {
        begun.clear();
        return responder.answer(disks, &piece[..min(MOST_BEGUN, piece.len())], out);
    }
    begun.extend(piece)?;
    responder.answer(disks, begun.as_slice(), out)?;
    begun.clear();
    Ok(())
}

/// Answers each line that ends in the block, in place, and keeps what stands behind the last one.
#[tactic(auto, using(crate::proofs::bytes::Moves::moves_start, crate::proofs::bytes::Moves::moves_front, crate::proofs::commands::Making::unchanged_refl))]
pub(crate) fn answer_lines<R: Responder>(
    responder: &mut R,
    disks: &mut R::Maker,
    block: &[u8],
    begun: &mut PendingLine,
    out: &mut Vec<u8>,
) -> Result<(), Unanswered>
    requires held { R.holds responder.old disks.old }
    ensures held { R.holds responder.new disks.new }
    ensures later { (R.Maker.state disks.old).faults ≤ (R.Maker.state disks.new).faults }
    ensures cause { result ≡ Err Unanswered.NoDisk → Rose (R.Maker.state disks.old).faults (R.Maker.state disks.new).faults }
    ensures sure { MakesAll R.Maker.makes_all (result ≡ Err Unanswered.NoDisk) disks.old disks.new }
    ensures same { OnOk result (IsUnchanged (R.Maker.state disks.old) (R.Maker.state disks.new)) }
    ensures before { result ≡ Err Unanswered.NoDisk → MovesBefore R.Cutter.framing R.reached R.lacks responder.old block.now begun.old out.old.items out.new.items }
    ensures ok { OnOk result (Moves R.Cutter.framing R.reached responder.old responder.new block.now begun.old begun.new out.old.items out.new.items) }
    ensures err { OnErr result (MovesFront R.Cutter.framing R.reached responder.old block.now begun.old out.old.items out.new.items) }
{
    let mut rest = block;
    loop {
        match R::Cutter::cut(begun.at(), rest) {
            Cut::Ends { line, next } => {
                answer_line(responder, disks, &rest[..line], begun, out)?;
                rest = &rest[next..];
            }
            Cut::Leads { at } => {
                begun.lead(rest, at)?;
                return Ok(());
            }
        }
    }
}
