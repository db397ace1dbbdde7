ghost use Rattle.std.specs.Prelude.{◌≡◌, [], ◌++◌, length, map, IfOk, OnOk, OnErr};
ghost use Rattle.frame_session.specs.Frames.{frames_of, rest_of};

use crate::cut::cut;
use std::alloc::{AllocError, Global};
use std::marker::Model;

/// Cuts the bytes that it is fed into frames, however they come, and is seen as the bytes that it holds: those behind
/// the last whole frame. They are 65,536 at most.
#[derive(Drop)]
pub struct Frames {
    held: Vec<u8>,
}

impl Model for Frames {
    ghost use Rattle.std.specs.Prelude.{ℕ, List};

    ghost Value = { List ℕ };

    ghost view = { λ frames. frames.held.items };
}

impl Frames {
    /// Nothing was fed yet. Takes no memory.
    pub fn new(alloc: Global) -> Frames
        ensures { result ≡ rest_of [] }
    {
        Frames {
            held: Vec::new(alloc),
        }
    }

    /// The bodies of the frames of what was held and a piece of bytes, in order. What is behind the last is held then.
    ///
    /// # Errors
    ///
    /// `AllocError` where memory runs out. Nothing of the piece was taken then.
    pub fn feed(&mut self, piece: &[u8]) -> Result<Vec<Vec<u8>>, AllocError>
        ensures frames { IfOk result (λ frames. map (λ f. f.items) frames.items ≡ frames_of (self.old ++ piece.now)) }
        ensures held { OnOk result (self.new ≡ rest_of (self.old ++ piece.now)) }
        ensures err { OnErr result (self.new ≡ self.old) }
    {
        let before = self.held.len();
        self.held.extend_from_slice(piece)?;
        match let_go(&mut self.held) {
            Ok(frames) => Ok(frames),
            Err(error) => {
                self.held.truncate(before);
                Err(error)
            }
        }
    }

    /// How many bytes are held.
    pub fn rest(&self) -> usize
        ensures { result ≡ length self.now }
    {
        self.held.len()
    }
}

/// Takes the frames off the front of what is held.
fn let_go(held: &mut Vec<u8>) -> Result<Vec<Vec<u8>>, AllocError>
    ensures frames { IfOk result (λ frames. map (λ f. f.items) frames.items ≡ frames_of held.old.items) }
    ensures held { OnOk result (held.new.items ≡ rest_of held.old.items) }
    ensures err { OnErr result (held.new.items ≡ held.old.items) }
{
    let alloc = *held.allocator();
    let (frames, done) = cut(alloc, held.as_slice())?;
    // What is held of a long frame isn't copied again for each piece.
    if done > 0 {
        *held = Vec::from_slice(alloc, &held[done..])?;
    }
    Ok(frames)
}
