//! Does what the process's words ask for, over standard input and output.
#![tactic(auto)]

ghost use Rattle.std.specs.Prelude.{◌≡◌, ◌⊎◌, IfOk, IfErr};
ghost use Rattle.std.specs.Vec.Iter.{into_iter_items};

use dc_engine::{ReaderSource, Status, WriterSink, run_words};
use disk_makers::RealDisks;
use std::alloc::{AllocError, Global};
use std::env;
use std::env::Args;
use std::io::ErrorKind;
use std::process::ExitCode;

/// The status where the process's words can't be had: no memory, or a word that isn't UTF-8, which is no call.
fn status_without_words(kind: ErrorKind) -> Status
    ensures no_memory { kind ≡ ErrorKind.OutOfMemory → result ≡ Status.NoMemory }
    ensures usage { (kind ≡ ErrorKind.OutOfMemory) ⊎ (result ≡ Status.Usage) }
{
    match kind {
        ErrorKind::OutOfMemory => Status::NoMemory,
        _ => Status::Usage,
    }
}

/// All of these words.
fn all_of(alloc: Global, args: Args) -> Result<Vec<String>, AllocError>
    ensures { IfOk result (λ words. words.items ≡ into_iter_items args) }
{
    let mut words = Vec::new(alloc);
    for word in args {
        words.push(word)?;
    }
    Ok(words)
}

/// The process's words, or the status where they can't be had.
fn words_of(rt: &HostRuntime) -> Result<Vec<String>, Status>
    ensures { IfErr result (λ status. (status ≡ Status.NoMemory) ⊎ (status ≡ Status.Usage)) }
{
    let args = match env::args(rt) {
        Ok(args) => args,
        Err(error) => return Err(status_without_words(error.kind())),
    };
    match all_of(rt.alloc(), args) {
        Ok(words) => Ok(words),
        Err(AllocError) => Err(Status::NoMemory),
    }
}

fn main(rt: HostRuntime) -> ExitCode {
    let status = match words_of(&rt) {
        Ok(words) => {
            let mut source = ReaderSource::new(rt.stdin());
            let mut sink = WriterSink::new(rt.stdout());
            let mut disks = RealDisks::new(&rt);
            Status::of(run_words(rt.alloc(), &words, &mut source, &mut sink, &mut disks))
        }
        Err(status) => status,
    };
    status.end(&mut rt.stderr()).0
}
