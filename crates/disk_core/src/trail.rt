// What a disk in memory held before. It exists only in proofs, and takes no memory.
ghost use Rattle.std.specs.Prelude.{◌≡◌, []};
ghost use base.Fml.{ftrue};
ghost use Rattle.disk_core.specs.Trail.{History, history_code};

use std::marker::Model;

#[derive(Drop)]
pub(crate) struct Trail {
    ghost history: { History } by { history_code },
}

impl Model for Trail {
    ghost also_owns = { λ _. ftrue };
}

// It owns nothing.
unsafe impl Send for Trail {}

// A change, with the bytes before it, their least and greatest length, and the range of a write.
#[derive(Clone, Copy, Drop)]
pub(crate) enum Note<'a> {
    Write(&'a [u8], usize, usize, usize, usize),
    Cut(&'a [u8], usize, usize),
    Sync(&'a [u8], usize, usize),
}

impl Trail {
    ghost use Rattle.disk_core.specs.Noted.{noted};

    pub(crate) fn new() -> Trail
        ensures { result.history ≡ record { written = []; past = [] } }
    {
        Trail {}
    }

    // The trail with one more change.
    #[inline(always)]
    pub(crate) fn with(&self, _note: &Note<'_>) -> Trail
        ensures { result.history ≡ noted self.now.history _note.now }
    {
        Trail {}
    }
}
