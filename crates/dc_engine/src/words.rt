ghost use Rattle.std.specs.Prelude.{◌≡◌, drop, map, IfOk, IfSome, IfNone, OnErr, option_map, string_bytes};
ghost use Rattle.std.specs.Option.{option_copied};
ghost use Rattle.dc_engine.specs.Format.{spelled_in};
ghost use Rattle.dc_engine.specs.Outcome.{PlayOutcome, change};
ghost use Rattle.dc_engine.specs.Told.{IsSoundIn, IsSure, IsTold};
ghost use Rattle.dc_engine.specs.Words.{asked, asked_in, asking_in, as_json, in_frames, kept_in, settled, with_option, with_options, with_word, named, joined};

use crate::format::Format;
use crate::framing::Framing;
use crate::status::Status;
use crate::streams::sink::Sink;
use crate::streams::source::Source;
use crate::top::run;
use disk_makers::Disks;
use std::alloc::{AllocError, Global};

/// What the words of a process ask for: a script is to be played.
#[derive(Clone, Copy, Debug)]
pub(crate) struct Request<'a> {
    /// How lines are told apart.
    pub(crate) framing: Framing,
    /// How the replies are written.
    pub(crate) format: Format,
    /// The folder in which the disks are kept, if they aren't in memory alone.
    pub(crate) folder: Option<&'a str>,
}

/// What the words read so far ask for, and whether the next one is to name the folder.
#[derive(Clone, Copy, Debug)]
struct Asking<'a> {
    request: Request<'a>,
    wants_folder: bool,
}

/// What these words of a process ask for, its own name left out: `play` and then, in any order and each at most once,
/// `--json`, `--frames` and a folder, as `--data DIR` or `--data=DIR`.
pub(crate) fn request_of<'a>(words: &[&'a str]) -> Option<Request<'a>>
    ensures { option_map asked_in result ≡ asked (map (λ word. word.now) words.now) }
{
    match words {
        [play, options @ ..] if *play == "play" => with_options(options),
        _ => None,
    }
}

/// What the words behind `play` ask for.
fn with_options<'a>(words: &[&'a str]) -> Option<Request<'a>>
    ensures { option_map asked_in result ≡ with_options (map (λ word. word.now) words.now) }
{
    let mut asking = settled(Request {
        framing: Framing::Lines,
        format: Format::Lines,
        folder: None,
    });
    for word in words {
        match with_word(asking, word) {
            Some(next) => asking = next,
            None => return None,
        }
    }
    if asking.wants_folder {
        return None;
    }
    Some(asking.request)
}

/// This, with no folder to be named.
fn settled(request: Request<'_>) -> Asking<'_>
    ensures { asking_in result ≡ settled (asked_in request.entry) }
{
    Asking {
        request,
        wants_folder: false,
    }
}

/// One word more.
fn with_word<'a>(asking: Asking<'a>, word: &'a str) -> Option<Asking<'a>>
    ensures { option_map asking_in result ≡ with_word (asking_in asking.entry) word.now }
{
    if asking.wants_folder {
        return kept_in(asking.request, named(word));
    }
    with_option(asking.request, word)
}

/// One option more.
fn with_option<'a>(request: Request<'a>, word: &'a str) -> Option<Asking<'a>>
    ensures { option_map asking_in result ≡ with_option (asked_in request.entry) word.now }
{
    if word == "--json" {
        as_json(request)
    } else if word == "--frames" {
        in_frames(request)
    } else if word == "--data" {
        Some(Asking {
            request,
            wants_folder: true,
        })
    } else {
        kept_in(request, joined(word))
    }
}

/// The replies as JSON objects, which is asked for once.
fn as_json(request: Request<'_>) -> Option<Asking<'_>>
    ensures { option_map asking_in result ≡ as_json request.entry.format (asked_in request.entry) }
{
    match request.format {
        Format::Lines => Some(settled(Request {
            format: Format::Json,
            ..request
        })),
        Format::Json => None,
    }
}

/// The lines as frames, which is asked for once.
fn in_frames(request: Request<'_>) -> Option<Asking<'_>>
    ensures { option_map asking_in result ≡ in_frames request.entry.framing (asked_in request.entry) }
{
    match request.framing {
        Framing::Lines => Some(settled(Request {
            framing: Framing::Frames,
            ..request
        })),
        Framing::Frames => None,
    }
}

/// The disks in this folder, where there is one, which is asked for once.
fn kept_in<'a>(request: Request<'a>, folder: Option<&'a str>) -> Option<Asking<'a>>
    ensures { option_map asking_in result ≡ kept_in (option_copied request.entry.folder) (option_copied folder.entry) (asked_in request.entry) }
{
    match (request.folder, folder) {
        (None, Some(_)) => Some(settled(Request { folder, ..request })),
        _ => None,
    }
}

/// The folder that a word of its own names: it isn't empty, and doesn't look like an option.
fn named(word: &str) -> Option<&str>
    ensures { option_copied result ≡ named word.now }
{
    match word.as_bytes() {
        [] | [b'-', ..] => None,
        _ => Some(word),
    }
}

/// The folder that a word `--data=DIR` names.
fn joined(word: &str) -> Option<&str>
    ensures { option_copied result ≡ joined word.now }
{
    match word.split_once('=') {
        Some((option, folder)) if option == "--data" => named(folder),
        _ => None,
    }
}

/// The words behind the first, which is the program's own name.
fn behind_name(words: &[String]) -> &[String]
    ensures { result.now ≡ drop 1 words.now }
{
    match words {
        [_, rest @ ..] => rest,
        [] => words,
    }
}

/// These words, one by one.
fn texts_of<'a>(alloc: Global, words: &'a [String]) -> Result<Vec<&'a str>, AllocError>
    ensures { IfOk result (λ texts. map (λ text. text.now) texts.items ≡ map string_bytes words.now) }
{
    let mut texts = Vec::new(alloc);
    for word in words {
        texts.push(word.as_str())?;
    }
    Ok(texts)
}

/// Does what the words of a process ask for, of which the first is the program's own name, as `run` does.
///
/// # Errors
///
/// `AllocError` where there is no memory for the words. Nothing is read, written or made then.
pub fn run_words<S: Source, K: Sink, M: Disks>(
    alloc: Global,
    words: &[String],
    source: &mut S,
    sink: &mut K,
    disks: &mut M,
) -> Result<Status, AllocError>
    ensures played { IfSome (asked (map string_bytes (drop 1 words.now))) (λ asked. IfOk result (λ status. PlayOutcome (IsSoundIn M.sound asked.folder disks.old) asked.framing (spelled_in asked.framing asked.format) M.Disk.state (M.state disks.old) (M.state disks.new) status (change S.left S.faults source.old source.new) (change K.held K.faults sink.old sink.new))) }
    ensures told { IfSome (asked (map string_bytes (drop 1 words.now))) (λ asked. IfOk result (λ status. IsTold M.keeps_in M.state asked.folder status disks.old)) }
    ensures sure { IfSome (asked (map string_bytes (drop 1 words.now))) (λ asked. IfOk result (λ status. IsSure M.makes_all asked.folder status disks.old)) }
    ensures usage { IfNone (asked (map string_bytes (drop 1 words.now))) (IfOk result (λ status. (status ≡ Status.Usage) × (source.new ≡ source.old) × (sink.new ≡ sink.old) × (disks.new ≡ disks.old))) }
    ensures unread { OnErr result (source.new ≡ source.old) }
    ensures unwritten { OnErr result (sink.new ≡ sink.old) }
    ensures unmade { OnErr result (disks.new ≡ disks.old) }
{
    let texts = texts_of(alloc, behind_name(words))?;
    let status = run(alloc, texts.as_slice(), source, sink, disks);
    Ok(status)
}
