ghost use Rattle.std.specs.Prelude.{◌≡◌, ◌≢◌, map, IfSome, IfNone, None, OnOk, Some};
ghost use Rattle.std.specs.Option.{option_copied};
ghost use Rattle.dc_engine.specs.Format.{spelled_in};
ghost use Rattle.dc_engine.specs.Outcome.{PlayOutcome, change};
ghost use Rattle.dc_engine.specs.Told.{IsSoundIn, IsSure, IsTold};
ghost use Rattle.dc_engine.specs.Words.{asked};
ghost use Rattle.dc_engine.specs.declared.framing.Framing.TheVariants as framing;

use crate::format::{Format, Framed, JsonWriter, LineWriter, Writer};
use crate::framing::Framing;
use crate::ground::Ground;
use crate::player::Player;
use crate::player::makers::Memory;
use crate::script::cutter::{ByFrames, ByLines, Cutter};
use crate::script::play_script;
use crate::status::Status;
use crate::streams::sink::Sink;
use crate::streams::source::Source;
use crate::words::{Request, request_of};
use disk_makers::Disks;
use std::alloc::{AllocError, Global};
use std::marker::Brand;

/// Plays a script from the source to the sink, whose lines and those of the replies are told apart by the framing. The
/// bytes written are the lines of one run that answers the script's lines, each spelled in the format, and what a
/// partition answered in it is lawful (Cure over Clock-SI): all of them where the script was read to its end, those to
/// the lines whose end was read where the source fails or the script is too long, those before a cluster whose disk
/// can't be made, and else a front of such a run's lines. A maker that fails at no call makes each disk. A script that
/// is read to its end has the status `BadLine` exactly where one of its lines isn't in the grammar. Then the disks of
/// its cluster go back to their maker, each that is up with the log that the run leaves.
pub fn play<S: Source, K: Sink, M: Disks>(
    alloc: Global,
    framing: Framing,
    format: Format,
    source: &mut S,
    sink: &mut K,
    disks: &mut M,
) -> Status
    ensures played { PlayOutcome (IsSoundIn M.sound None disks.old) framing (spelled_in framing format) M.Disk.state (M.state disks.old) (M.state disks.new) result (change S.left S.faults source.old source.new) (change K.held K.faults sink.old sink.new) }
    ensures sure { M.makes_all disks.old → result ≢ Status.NoDisk }
{
    let request = Request {
        framing,
        format,
        folder: None,
    };
    play_then(alloc, request, source, sink, disks, Memory::Freed)
}

/// Plays a script as `play` does, over disks in the folder that is asked for, and has this become of the cluster's
/// memory.
fn play_then<S: Source, K: Sink, M: Disks>(
    alloc: Global,
    request: Request<'_>,
    source: &mut S,
    sink: &mut K,
    disks: &mut M,
    memory: Memory,
) -> Status
    ensures played { PlayOutcome (IsSoundIn M.sound (option_copied request.entry.folder) disks.old) request.entry.framing (spelled_in request.entry.framing request.entry.format) M.Disk.state (M.state disks.old) (M.state disks.new) result (change S.left S.faults source.old source.new) (change K.held K.faults sink.old sink.new) }
    ensures told { IsTold M.keeps_in M.state (option_copied request.entry.folder) result disks.old }
    ensures sure { IsSure M.makes_all (option_copied request.entry.folder) result disks.old }
{
    match request.framing {
        Framing::Lines => play_lines(alloc, request, source, sink, disks, memory),
        Framing::Frames => play_frames(alloc, request, source, sink, disks, memory),
    }
}

/// Plays a script whose lines end at a line feed.
fn play_lines<S: Source, K: Sink, M: Disks>(
    alloc: Global,
    request: Request<'_>,
    source: &mut S,
    sink: &mut K,
    disks: &mut M,
    memory: Memory,
) -> Status
    ensures played { PlayOutcome (IsSoundIn M.sound (option_copied request.entry.folder) disks.old) framing.Lines (spelled_in framing.Lines request.entry.format) M.Disk.state (M.state disks.old) (M.state disks.new) result (change S.left S.faults source.old source.new) (change K.held K.faults sink.old sink.new) }
    ensures told { IsTold M.keeps_in M.state (option_copied request.entry.folder) result disks.old }
    ensures sure { IsSure M.makes_all (option_copied request.entry.folder) result disks.old }
{
    let folder = request.folder;
    match request.format {
        Format::Lines => play_by::<S, K, M, LineWriter, ByLines>(
            alloc, folder, source, sink, disks, memory,
        ),
        Format::Json => play_by::<S, K, M, JsonWriter, ByLines>(
            alloc, folder, source, sink, disks, memory,
        ),
    }
}

/// Plays a script of frames.
fn play_frames<S: Source, K: Sink, M: Disks>(
    alloc: Global,
    request: Request<'_>,
    source: &mut S,
    sink: &mut K,
    disks: &mut M,
    memory: Memory,
) -> Status
    ensures played { PlayOutcome (IsSoundIn M.sound (option_copied request.entry.folder) disks.old) framing.Frames (spelled_in framing.Frames request.entry.format) M.Disk.state (M.state disks.old) (M.state disks.new) result (change S.left S.faults source.old source.new) (change K.held K.faults sink.old sink.new) }
    ensures told { IsTold M.keeps_in M.state (option_copied request.entry.folder) result disks.old }
    ensures sure { IsSure M.makes_all (option_copied request.entry.folder) result disks.old }
{
    let folder = request.folder;
    match request.format {
        Format::Lines => play_by::<S, K, M, Framed<LineWriter>, ByFrames>(
            alloc, folder, source, sink, disks, memory,
        ),
        Format::Json => play_by::<S, K, M, Framed<JsonWriter>, ByFrames>(
            alloc, folder, source, sink, disks, memory,
        ),
    }
}

/// Plays a script that is cut so, with replies as this writer writes them, over disks in this folder, where there is one.
fn play_by<S: Source, K: Sink, M: Disks, W: Writer, F: Cutter>(
    alloc: Global,
    folder: Option<&str>,
    source: &mut S,
    sink: &mut K,
    disks: &mut M,
    memory: Memory,
) -> Status
    ensures played { PlayOutcome (IsSoundIn M.sound (option_copied folder.entry) disks.old) F.framing W.spelled M.Disk.state (M.state disks.old) (M.state disks.new) result (change S.left S.faults source.old source.new) (change K.held K.faults sink.old sink.new) }
    ensures told { IsTold M.keeps_in M.state (option_copied folder.entry) result disks.old }
    ensures sure { IsSure M.makes_all (option_copied folder.entry) result disks.old }
{
    if keep_in(alloc, folder, disks).is_err() {
        return Status::NoMemory;
    }
    play_over::<S, K, M, W, F, Brand>(alloc, source, sink, disks, memory)
}

/// Plays a script by a new player, whose disks go back to their maker then.
fn play_over<S: Source, K: Sink, M: Disks, W: Writer, F: Cutter, G: Ground>(
    alloc: Global,
    source: &mut S,
    sink: &mut K,
    disks: &mut M,
    memory: Memory,
) -> Status
    requires ground { G.sound → M.sound disks.old }
    ensures played { PlayOutcome G.sound F.framing W.spelled M.Disk.state (M.state disks.old) (M.state disks.new) result (change S.left S.faults source.old source.new) (change K.held K.faults sink.old sink.new) }
    ensures sure { M.makes_all disks.old → result ≢ Status.NoDisk }
{
    let mut player: Player<M, W, F, G> = Player::new(alloc);
    let status = play_script(alloc, source, sink, &mut player, disks);
    player.give_back(disks, memory);
    status
}

/// Has the maker keep its disks in this folder, where there is one.
fn keep_in<M: Disks>(alloc: Global, folder: Option<&str>, disks: &mut M) -> Result<(), AllocError>
    ensures kept { OnOk result (IfSome (option_copied folder.entry) (λ name. M.keeps_in disks.new name)) }
    ensures state { M.state disks.new ≡ M.state disks.old }
    ensures same { IfNone (option_copied folder.entry) (disks.new ≡ disks.old) }
{
    match folder {
        Some(folder) => disks.keep_in(alloc, folder),
        None => Ok(()),
    }
}

/// Does what the process's words ask for, its own name left out: for `play`, which `--json`, `--frames` and a folder
/// may follow in any order (`--data DIR` or `--data=DIR`), it plays the script, with replies as JSON objects, with
/// lines as frames and with disks in that folder; without one, a maker that fails at no call makes each disk. Every
/// other list of words is a fault of usage, which reads and writes nothing. The process is to end then: what memory
/// the tables of the cluster have is left to the system, as by `Vec::leak`.
pub fn run<S: Source, K: Sink, M: Disks>(
    alloc: Global,
    words: &[&str],
    source: &mut S,
    sink: &mut K,
    disks: &mut M,
) -> Status
    ensures played { IfSome (asked (map (λ word. word.now) words.now)) (λ asked. PlayOutcome (IsSoundIn M.sound asked.folder disks.old) asked.framing (spelled_in asked.framing asked.format) M.Disk.state (M.state disks.old) (M.state disks.new) result (change S.left S.faults source.old source.new) (change K.held K.faults sink.old sink.new)) }
    ensures told { IfSome (asked (map (λ word. word.now) words.now)) (λ asked. IsTold M.keeps_in M.state asked.folder result disks.old) }
    ensures sure { IfSome (asked (map (λ word. word.now) words.now)) (λ asked. IsSure M.makes_all asked.folder result disks.old) }
    ensures usage { IfNone (asked (map (λ word. word.now) words.now)) ((result ≡ Status.Usage) × (source.new ≡ source.old) × (sink.new ≡ sink.old) × (disks.new ≡ disks.old)) }
{
    match request_of(words) {
        Some(request) => play_then(alloc, request, source, sink, disks, Memory::Left),
        None => Status::Usage,
    }
}
