ghost use Rattle.std.specs.Prelude.{ℕ, List, Option, ◌≡◌, ◌≢◌, ◌≤◌, ◌<◌, ◌+◌, ◌-◌, ◌^◌, [], length, take, IfOk, IfErr, OnOk, OnErr, Err};
ghost use Rattle.std.specs.Io.KnownBytes.{Appends, Consumes, Keeps, IsAtEnd};
ghost use Rattle.disk_makers.specs.Makers.{MakesAll};
ghost use Rattle.dc_engine.specs.Causes.{Rose};
ghost use Rattle.dc_engine.specs.Makers.{IsUnchanged};
ghost use Rattle.dc_engine.specs.Replies.{Replies};
ghost use Rattle.dc_engine.specs.Played.{Played, PlayedEnded, PlayedTooLong, PlayedFront};
ghost use Rattle.dc_engine.specs.Blocks.{AppendsFront, Writes, WritesFront, WritesBefore, Ends, EndsFront, EndsBefore, TakesOne, Progress, GoesOn, Finished};

use crate::fault::Fault;
use crate::responder::Responder;
use crate::script::lines::answer_lines;
use crate::script::pending_line::PendingLine;
use crate::streams::sink::Sink;
use crate::streams::source::{Failed, Source};
use crate::unanswered::Unanswered;
use std::alloc::{AllocError, Global};
use std::cmp::min;

/// So many bytes that are 0.
fn zeros(alloc: Global, count: usize) -> Result<Vec<u8>, AllocError>
    ensures { IfOk result (λ v. length v.items ≡ count) }
{
    vec![in alloc; 0u8; count]
}

/// Reads what comes next, at most as much as the block and the room hold, to the front of the block.
fn read_block<S: Source>(source: &mut S, block: &mut [u8], room: usize) -> Result<usize, Fault>
    ensures later { S.faults source.old ≤ S.faults source.new }
    ensures cause { IfErr result (λ e. (e ≡ Fault.Read) × Rose (S.faults source.old) (S.faults source.new)) }
    ensures untouched { OnErr result (Keeps (S.left source.old) (S.left source.new)) }
    ensures within { IfOk result (λ n. n ≤ length block.old) }
    ensures in_room { IfOk result (λ n. n ≤ room) }
    ensures bytes { IfOk result (λ n. Consumes (S.left source.old) (S.left source.new) (take n block.new)) }
    ensures end { IfOk result (λ n. n ≡ 0 → 0 < room → 0 < length block.old → IsAtEnd (S.left source.new)) }
{
    let most = min(room, block.len());
    match source.read(&mut block[..most]) {
        Ok(count) => Ok(count),
        Err(Failed) => Err(Fault::Read),
    }
}

/// Whether one byte more comes.
fn has_more<S: Source>(source: &mut S) -> Result<bool, Fault>
    ensures later { S.faults source.old ≤ S.faults source.new }
    ensures cause { IfErr result (λ e. (e ≡ Fault.Read) × Rose (S.faults source.old) (S.faults source.new)) }
    ensures untouched { OnErr result (Keeps (S.left source.old) (S.left source.new)) }
    ensures more { IfOk result (TakesOne (S.left source.old) (S.left source.new)) }
{
    let mut next = [0u8; 1];
    match source.read(&mut next) {
        Ok(0) => Ok(false),
        Ok(_) => Ok(true),
        Err(Failed) => Err(Fault::Read),
    }
}

/// Writes all bytes.
#[tactic(auto, using(crate::proofs::bytes::Written::written_more, crate::proofs::bytes::Written::written_none, crate::proofs::bytes::Written::front_of))]
fn write_all<K: Sink>(sink: &mut K, bytes: &[u8]) -> Result<(), Fault>
    ensures later { K.faults sink.old ≤ K.faults sink.new }
    ensures cause { IfErr result (λ e. (e ≡ Fault.Write) × Rose (K.faults sink.old) (K.faults sink.new)) }
    ensures bytes { OnOk result (Appends (K.held sink.old) (K.held sink.new) bytes.now) }
    ensures front { AppendsFront (K.held sink.old) (K.held sink.new) bytes.now }
{
    let mut done = 0;
    while done < bytes.len() {
        match sink.write(&bytes[done..]) {
            Ok(count) => done += count,
            Err(Failed) => return Err(Fault::Write),
        }
    }
    Ok(())
}

/// Answers the lines that end in the block and writes their replies, those before a want of memory too.
#[tactic(auto, using(crate::proofs::bytes::Written::writes_all))]
fn answer_block<K: Sink, R: Responder>(
    sink: &mut K,
    responder: &mut R,
    disks: &mut R::Maker,
    block: &[u8],
    begun: &mut PendingLine,
    out: &mut Vec<u8>,
) -> Result<(), Fault>
    requires held { R.holds responder.old disks.old }
    ensures held { R.holds responder.new disks.new }
    ensures disks_later { (R.Maker.state disks.old).faults ≤ (R.Maker.state disks.new).faults }
    ensures disks_cause { result ≡ Err Fault.NoDisk → Rose (R.Maker.state disks.old).faults (R.Maker.state disks.new).faults }
    ensures sure { MakesAll R.Maker.makes_all (result ≡ Err Fault.NoDisk) disks.old disks.new }
    ensures same { OnOk result (IsUnchanged (R.Maker.state disks.old) (R.Maker.state disks.new)) }
    ensures later { K.faults sink.old ≤ K.faults sink.new }
    ensures cause { result ≡ Err Fault.Write → Rose (K.faults sink.old) (K.faults sink.new) }
    ensures kinds { IfErr result (λ e. (e ≢ Fault.Read) × (e ≢ Fault.TooLong)) }
    ensures ok { OnOk result (Writes R.Cutter.framing R.reached responder.old responder.new block.now begun.old begun.new (K.held sink.old) (K.held sink.new)) }
    ensures err { OnErr result (WritesFront R.Cutter.framing R.reached responder.old block.now begun.old (K.held sink.old) (K.held sink.new)) }
    ensures before { result ≡ Err Fault.NoDisk → WritesBefore R.Cutter.framing R.reached R.lacks responder.old block.now begun.old (K.held sink.old) (K.held sink.new) }
{
    out.clear();
    match answer_lines(responder, disks, block, begun, out) {
        Ok(()) => {
            write_all(sink, out)?;
            Ok(())
        }
        Err(Unanswered::NoDisk) => {
            write_all(sink, out)?;
            Err(Fault::NoDisk)
        }
        Err(Unanswered::NoMemory) => {
            let _written = write_all(sink, out);
            Err(Fault::NoMemory)
        }
    }
}

/// Answers a last line whose end isn't there, and writes the reply.
#[tactic(auto, using(crate::proofs::bytes::Written::ends_before))]
fn answer_end<K: Sink, R: Responder>(
    sink: &mut K,
    responder: &mut R,
    disks: &mut R::Maker,
    begun: &PendingLine,
    out: &mut Vec<u8>,
) -> Result<(), Fault>
    requires held { R.holds responder.old disks.old }
    ensures held { R.holds responder.new disks.new }
    ensures disks_later { (R.Maker.state disks.old).faults ≤ (R.Maker.state disks.new).faults }
    ensures disks_cause { result ≡ Err Fault.NoDisk → Rose (R.Maker.state disks.old).faults (R.Maker.state disks.new).faults }
    ensures sure { MakesAll R.Maker.makes_all (result ≡ Err Fault.NoDisk) disks.old disks.new }
    ensures same { OnOk result (IsUnchanged (R.Maker.state disks.old) (R.Maker.state disks.new)) }
    ensures later { K.faults sink.old ≤ K.faults sink.new }
    ensures cause { result ≡ Err Fault.Write → Rose (K.faults sink.old) (K.faults sink.new) }
    ensures kinds { IfErr result (λ e. (e ≢ Fault.Read) × (e ≢ Fault.TooLong)) }
    ensures ok { OnOk result (Ends R.Cutter.framing R.reached responder.old responder.new begun.now (K.held sink.old) (K.held sink.new)) }
    ensures err { OnErr result (EndsFront R.Cutter.framing R.reached responder.old begun.now (K.held sink.old) (K.held sink.new)) }
    ensures before { result ≡ Err Fault.NoDisk → EndsBefore R.Cutter.framing R.lacks responder.old begun.now (K.held sink.old) (K.held sink.new) }
{
    if begun.is_empty() {
        return Ok(());
    }
    out.clear();
    responder.answer(disks, begun.as_slice(), out)?;
    write_all(sink, out)?;
    Ok(())
}

/// What is kept of a line whose end hasn't come, and the replies that are to be written.
#[derive(Drop)]
struct Buffers {
    begun: PendingLine,
    out: Vec<u8>,
}

/// Reads a block of at most as many bytes as there is room for, answers it and writes the replies. 0 bytes are the end.
fn play_block<S: Source, K: Sink, R: Responder>(
    source: &mut S,
    sink: &mut K,
    responder: &mut R,
    disks: &mut R::Maker,
    block: &mut [u8],
    room: usize,
    buffers: &mut Buffers,
) -> Result<usize, Fault>
    requires size { 0 < length block.old }
    requires some { 0 < room }
    requires held { R.holds responder.old disks.old }
    ensures held { R.holds responder.new disks.new }
    ensures disks_later { (R.Maker.state disks.old).faults ≤ (R.Maker.state disks.new).faults }
    ensures disks_cause { result ≡ Err Fault.NoDisk → Rose (R.Maker.state disks.old).faults (R.Maker.state disks.new).faults }
    ensures sure { MakesAll R.Maker.makes_all (result ≡ Err Fault.NoDisk) disks.old disks.new }
    ensures same { OnOk result (IsUnchanged (R.Maker.state disks.old) (R.Maker.state disks.new)) }
    ensures read_later { S.faults source.old ≤ S.faults source.new }
    ensures write_later { K.faults sink.old ≤ K.faults sink.new }
    ensures read_cause { result ≡ Err Fault.Read → Rose (S.faults source.old) (S.faults source.new) }
    ensures write_cause { result ≡ Err Fault.Write → Rose (K.faults sink.old) (K.faults sink.new) }
    ensures goes_on { (size most : ℕ) (input before : Option (List ℕ)) → length block.old ≤ size → Progress R.Cutter.framing most R.reached responder.old input (S.left source.old) before (K.held sink.old) buffers.old.begun room → GoesOn R.Cutter.framing size most R.reached R.lacks responder.new input (S.left source.new) before (K.held sink.new) buffers.new.begun room result }
{
    let count = match read_block(source, block, room) {
        Ok(count) => count,
        Err(fault) => return Err(fault),
    };
    if count == 0 {
        return match answer_end(sink, responder, disks, &buffers.begun, &mut buffers.out) {
            Ok(()) => Ok(0),
            Err(fault) => Err(fault),
        };
    }
    let Buffers { begun, out } = buffers;
    match answer_block(sink, responder, disks, &block[..count], begun, out) {
        Ok(()) => Ok(count),
        Err(fault) => Err(fault),
    }
}

/// Answers the last line where no byte more comes.
fn play_end<S: Source, K: Sink, R: Responder>(
    source: &mut S,
    sink: &mut K,
    responder: &mut R,
    disks: &mut R::Maker,
    buffers: &mut Buffers,
) -> Result<(), Fault>
    requires held { R.holds responder.old disks.old }
    ensures held { R.holds responder.new disks.new }
    ensures disks_later { (R.Maker.state disks.old).faults ≤ (R.Maker.state disks.new).faults }
    ensures disks_cause { result ≡ Err Fault.NoDisk → Rose (R.Maker.state disks.old).faults (R.Maker.state disks.new).faults }
    ensures sure { MakesAll R.Maker.makes_all (result ≡ Err Fault.NoDisk) disks.old disks.new }
    ensures same { OnOk result (IsUnchanged (R.Maker.state disks.old) (R.Maker.state disks.new)) }
    ensures read_later { S.faults source.old ≤ S.faults source.new }
    ensures write_later { K.faults sink.old ≤ K.faults sink.new }
    ensures read_cause { result ≡ Err Fault.Read → Rose (S.faults source.old) (S.faults source.new) }
    ensures write_cause { result ≡ Err Fault.Write → Rose (K.faults sink.old) (K.faults sink.new) }
    ensures finished { (size most : ℕ) (input before : Option (List ℕ)) → Progress R.Cutter.framing most R.reached responder.old input (S.left source.old) before (K.held sink.old) buffers.old.begun 0 → Finished R.Cutter.framing size most R.reached R.lacks responder.new input (S.left source.new) before (K.held sink.new) result }
{
    match has_more(source) {
        Ok(true) => Err(Fault::TooLong),
        Ok(false) => match answer_end(sink, responder, disks, &buffers.begun, &mut buffers.out) {
            Ok(()) => Ok(()),
            Err(fault) => Err(fault),
        },
        Err(fault) => Err(fault),
    }
}

/// Plays a script of at most `most` bytes, and writes the replies to a block of at most `size` bytes before it reads on.
pub(crate) fn play_blocks<S: Source, K: Sink, R: Responder>(
    alloc: Global,
    size: usize,
    most: usize,
    source: &mut S,
    sink: &mut K,
    responder: &mut R,
    disks: &mut R::Maker,
) -> Result<(), Fault>
    requires fresh { R.reached responder.old [] [] }
    requires some { 0 < size }
    requires held { R.holds responder.old disks.old }
    ensures held { R.holds responder.new disks.new }
    ensures disks_cause { result ≡ Err Fault.NoDisk → Rose (R.Maker.state disks.old).faults (R.Maker.state disks.new).faults }
    ensures sure { MakesAll R.Maker.makes_all (result ≡ Err Fault.NoDisk) disks.old disks.new }
    ensures same { OnOk result (IsUnchanged (R.Maker.state disks.old) (R.Maker.state disks.new)) }
    ensures finished { Finished R.Cutter.framing size most R.reached R.lacks responder.new (S.left source.old) (S.left source.new) (K.held sink.old) (K.held sink.new) result }
    ensures read_cause { result ≡ Err Fault.Read → Rose (S.faults source.old) (S.faults source.new) }
    ensures write_cause { result ≡ Err Fault.Write → Rose (K.faults sink.old) (K.faults sink.new) }
{
    let mut block = match zeros(alloc, size) {
        Ok(block) => block,
        Err(AllocError) => return Err(Fault::NoMemory),
    };
    let block = block.as_mut_slice();
    let mut buffers = Buffers {
        begun: PendingLine::new(alloc),
        out: Vec::new(alloc),
    };
    let mut room = most;
    while room > 0 {
        match play_block(source, sink, responder, disks, block, room, &mut buffers) {
            Ok(0) => return Ok(()),
            Ok(count) => room -= count,
            Err(fault) => return Err(fault),
        }
    }
    play_end(source, sink, responder, disks, &mut buffers)
}
