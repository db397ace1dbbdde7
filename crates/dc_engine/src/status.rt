ghost use Rattle.std.specs.Prelude.{◌≡◌, IfSome, IfNone, IfOk, OnOk, OnErr, Some, None};
ghost use Rattle.std.specs.Io.KnownBytes.{Appends};
ghost use Rattle.std.specs.Process.{exit_status};
ghost use Rattle.dc_engine.specs.Status.{code_of, text_of, told};

use std::alloc::AllocError;
use std::io;
use std::io::Write;
use std::process::ExitCode;

/// How a run ended. The process ends with its code.
#[derive(Clone, Copy, Debug, PartialEq, Eq)]
pub enum Status {
    /// 0: the input was answered, and each of its lines is in the grammar.
    Done,
    /// 1: the input was answered, and a line of it isn't in the grammar.
    BadLine,
    /// 2: the words are no call.
    Usage,
    /// 3: the source failed.
    ReadFault,
    /// 4: the sink failed.
    WriteFault,
    /// 5: memory ran out.
    NoMemory,
    /// 6: the script has more bytes than may be read.
    TooLong,
    /// 7: a disk couldn't be made.
    NoDisk,
}

impl Status {
    /// The status that a run had, which is want of memory where it didn't begin.
    pub fn of(run: Result<Status, AllocError>) -> Status
        ensures ran { IfOk run (λ status. result ≡ status) }
        ensures no_memory { OnErr run (result ≡ Status.NoMemory) }
    {
        match run {
            Ok(status) => status,
            Err(AllocError) => Status::NoMemory,
        }
    }

    /// The code that the process ends with, from 0 to 7.
    pub fn code(self) -> u8
        ensures { result ≡ code_of self }
    {
        match self {
            Status::Done => 0,
            Status::BadLine => 1,
            Status::Usage => 2,
            Status::ReadFault => 3,
            Status::WriteFault => 4,
            Status::NoMemory => 5,
            Status::TooLong => 6,
            Status::NoDisk => 7,
        }
    }

    /// The line on standard error, without its LF.
    pub fn text(self) -> Option<&'static str>
        ensures some { IfSome result (λ t. text_of self ≡ Some t.now) }
        ensures none { IfNone result (text_of self ≡ None) }
    {
        match self {
            Status::Done | Status::BadLine => None,
            Status::Usage => Some(
                "usage: dc_shell play [--json] [--data DIR] [--frames] or storm D N clients txns number [--trace]",
            ),
            Status::ReadFault => Some("read fault"),
            Status::WriteFault => Some("write fault"),
            Status::NoMemory => Some("out of memory"),
            Status::TooLong => Some("script too long"),
            Status::NoDisk => Some("no disk"),
        }
    }

    /// Writes the line on standard error to this writer, where there is one.
    ///
    /// # Errors
    ///
    /// That of the writer.
    fn tell<W: Write>(self, err: &mut W) -> io::Result<()>
        ensures { OnOk result (Appends (W.contents err.old) (W.contents err.new) (told self)) }
    {
        match self.text() {
            Some(text) => {
                err.write_all(text.as_bytes())?;
                err.write_all(b"\n")
            }
            None => Ok(()),
        }
    }

    /// The code that a process ends with, and how the telling of its line went, which changes no code.
    pub fn end<W: Write>(self, err: &mut W) -> (ExitCode, io::Result<()>)
        ensures code { exit_status result.0 ≡ code_of self }
        ensures told { OnOk result.1 (Appends (W.contents err.old) (W.contents err.new) (told self)) }
    {
        let told = self.tell(err);
        (ExitCode::from(self.code()), told)
    }
}
