// A reader that gives pieces.
use std::cmp::min;
use std::io;
use std::io::Read;

/// What is left of some bytes, and how many a call gives at most.
#[derive(Drop)]
pub(crate) struct Pieces<'a> {
    left: &'a [u8],
    size: usize,
}

impl<'a> Pieces<'a> {
    pub(crate) fn new(bytes: &'a [u8], size: usize) -> Pieces<'a> {
        Pieces { left: bytes, size }
    }
}

impl<'a> Read for Pieces<'a> {
    fn read(&mut self, buf: &mut [u8]) -> io::Result<usize> {
        let size = min(self.size, min(buf.len(), self.left.len()));
        buf[..size].copy_from_slice(&self.left[..size]);
        self.left = &self.left[size..];
        Ok(size)
    }
}
