ghost use Rattle.std.specs.Prelude.{◌≡◌, true, []};
ghost use Rattle.disk_core.specs.States.{Rose};
ghost use Rattle.disk_makers.specs.Makers.{MakesAll};
ghost use Rattle.dc_engine.specs.Makers.{IsUnchanged};
ghost use Rattle.dc_engine.specs.Outcome.{Outcome, change};
ghost use Rattle.dc_engine.specs.Replies.{Replies, RepliesBefore};
ghost use Rattle.dc_engine.specs.Status.{ends_whole};

pub(crate) mod blocks;
pub(crate) mod cutter;
pub(crate) mod lines;
pub(crate) mod pending_line;
pub(crate) mod place;

use crate::fault::Fault;
use crate::responder::Responder;
use crate::script::blocks::play_blocks;
use crate::status::Status;
use crate::streams::sink::Sink;
use crate::streams::source::Source;
use std::alloc::Global;

/// How many bytes are read at a time, if they are there.
const BLOCK: usize = 65_536;

/// The most bytes of a script.
const MOST_BYTES: usize = 67_108_864;

/// Plays a script with what answers its lines.
pub(crate) fn play_script<S: Source, K: Sink, R: Responder>(
    alloc: Global,
    source: &mut S,
    sink: &mut K,
    responder: &mut R,
    disks: &mut R::Maker,
) -> Status
    requires fresh { R.reached responder.old [] [] }
    requires held { R.holds responder.old disks.old }
    ensures held { R.holds responder.new disks.new }
    ensures same { ends_whole result ≡ true → IsUnchanged (R.Maker.state disks.old) (R.Maker.state disks.new) }
    ensures sure { MakesAll R.Maker.makes_all (result ≡ Status.NoDisk) disks.old disks.new }
    ensures played { Outcome R.Cutter.framing (R.reached responder.new) (Replies R.reached) (RepliesBefore R.reached R.lacks) (Rose (R.Maker.state disks.old).faults (R.Maker.state disks.new).faults) result (change S.left S.faults source.old source.new) (change K.held K.faults sink.old sink.new) }
{
    match play_blocks(alloc, BLOCK, MOST_BYTES, source, sink, responder, disks) {
        Ok(()) => {
            if responder.has_met_bad() {
                return Status::BadLine;
            }
            Status::Done
        }
        Err(Fault::Read) => Status::ReadFault,
        Err(Fault::Write) => Status::WriteFault,
        Err(Fault::NoMemory) => Status::NoMemory,
        Err(Fault::TooLong) => Status::TooLong,
        Err(Fault::NoDisk) => Status::NoDisk,
    }
}
