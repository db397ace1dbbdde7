// A file that a disk is kept in: the trusted edge to the files of the system.
ghost use Rattle.std.specs.Prelude.{◌≡◌, ◌++◌, Option, None, option_map, OnOk};
ghost use Rattle.disk_core.specs.Images.{Content, after_write, after_cut, after_sync};

use disk_core::Failed;
use std::fs::OpenFile;
use std::io;
use std::io::{Seek, SeekFrom, Write};

/// A file that a disk is kept in.
///
/// What it holds, and what a crash may leave of that, is known where it tells so, as a file in memory does. One of the
/// system tells nothing, since nobody can say what else becomes of it. After a call that fails nothing is known.
pub trait BackingFile {
    ghost held: { Self → Option Content };

    /// Writes three pieces, one behind the other, from this place on, over what is there and past the end.
    ///
    /// # Errors
    ///
    /// `Failed` where the file fails.
    fn write_pieces(
        &mut self,
        at: u64,
        front: &[u8],
        middle: &[u8],
        back: &[u8],
    ) -> Result<(), Failed>
        ensures { OnOk result (held self.new
            ≡ option_map (after_write at (front.now ++ middle.now ++ back.now)) (held self.old)) };

    /// Cuts what it holds to this length, which is at most what it has.
    ///
    /// # Errors
    ///
    /// `Failed` where the file fails.
    fn cut(&mut self, len: u64) -> Result<(), Failed>
        ensures { OnOk result (held self.new ≡ option_map (after_cut len) (held self.old)) };

    /// Makes all that was written durable.
    ///
    /// # Errors
    ///
    /// `Failed` where the file fails.
    fn sync(&mut self) -> Result<(), Failed>
        ensures { OnOk result (held self.new ≡ option_map after_sync (held self.old)) };
}

/// An open file of the system.
#[derive(Drop)]
pub struct SystemFile<F: Write + Seek + OpenFile + Drop> {
    file: F,
}

impl<F: Write + Seek + OpenFile + Drop> SystemFile<F> {
    /// This file, which is open for writing.
    pub fn new(file: F) -> Self {
        SystemFile { file }
    }
}

impl<F: Write + Seek + OpenFile + Drop> BackingFile for SystemFile<F> {
    ghost held = { λ _. None };

    fn write_pieces(
        &mut self,
        at: u64,
        front: &[u8],
        middle: &[u8],
        back: &[u8],
    ) -> Result<(), Failed> {
        or_failed(self.file.seek(SeekFrom::Start(at)))?;
        for piece in [front, middle, back] {
            or_failed(self.file.write_all(piece))?;
        }
        Ok(())
    }

    fn cut(&mut self, len: u64) -> Result<(), Failed> {
        or_failed(self.file.set_len(len))
    }

    fn sync(&mut self) -> Result<(), Failed> {
        or_failed(self.file.sync_data())
    }
}

/// What a call of the system answered, without why it failed.
pub(crate) fn or_failed<T: Drop>(answer: io::Result<T>) -> Result<T, Failed> {
    match answer {
        Ok(value) => Ok(value),
        Err(_) => Err(Failed),
    }
}
