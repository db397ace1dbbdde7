ghost use Rattle.std.specs.Prelude.{◌≡◌, ◌++◌, ◌==◌, ◌≤◌, [], length, take, OnOk, OnErr};
ghost use Rattle.dc_engine.specs.Blocks.{none_begun};

use crate::responder::MOST_BEGUN;
use crate::script::place::Place;
use std::alloc::{AllocError, Global};
use std::cmp::min;
use std::marker::Model;

/// The first bytes of a line whose end hasn't come, as many of them as are answered, and the place that it is read to.
#[derive(Drop)]
pub(crate) struct PendingLine {
    bytes: Vec<u8>,
    at: Place,
}

impl Model for PendingLine {
    ghost use Rattle.std.specs.Prelude.{◌≤◌, length};
    ghost use Rattle.dc_engine.specs.Blocks.{Begun};

    ghost Value = { Begun };

    ghost view = { λ k. record { first = k.bytes.items; at = k.at } };

    ghost invariant = { λ k. length k.bytes.items ≤ 4099 };
}

impl PendingLine {
    /// No byte. Takes no memory.
    pub(crate) fn new(alloc: Global) -> PendingLine
        ensures { result ≡ none_begun }
    {
        PendingLine {
            bytes: Vec::new(alloc),
            at: Place::Start,
        }
    }

    /// The place that the line is read to.
    pub(crate) fn at(&self) -> Place
        ensures { result ≡ self.now.at }
    {
        self.at
    }

    pub(crate) fn is_empty(&self) -> bool
        ensures { result ≡ (length self.now.first == 0) }
    {
        self.bytes.is_empty()
    }

    pub(crate) fn as_slice(&self) -> &[u8]
        ensures value { result.now ≡ self.now.first }
        ensures small { length self.now.first ≤ 4099 }
    {
        self.bytes.as_slice()
    }

    pub(crate) fn clear(&mut self)
        ensures { self.new ≡ none_begun }
    {
        self.bytes.clear();
        self.at = Place::Start;
    }

    /// Keeps more of the line, what goes past the limit left out.
    ///
    /// # Errors
    ///
    /// `AllocError` where memory runs out. What is kept stays as before then.
    pub(crate) fn extend(&mut self, piece: &[u8]) -> Result<(), AllocError>
        ensures ok { OnOk result (self.new.first ≡ take 4099 (self.old.first ++ piece.now)) }
        ensures at { self.new.at ≡ self.old.at }
        ensures err { OnErr result (self.new.first ≡ self.old.first) }
    {
        extend_to(&mut self.bytes, piece)
    }

    /// Keeps more of the line, which leads to this place.
    ///
    /// # Errors
    ///
    /// `AllocError` where memory runs out. What is kept stays as before then.
    pub(crate) fn lead(&mut self, piece: &[u8], at: Place) -> Result<(), AllocError>
        ensures first { OnOk result (self.new.first ≡ take 4099 (self.old.first ++ piece.now)) }
        ensures at { OnOk result (self.new.at ≡ at) }
        ensures err { OnErr result (self.new.first ≡ self.old.first) }
        ensures same { OnErr result (self.new.at ≡ self.old.at) }
    {
        self.extend(piece)?;
        self.at = at;
        Ok(())
    }
}

#[tactic(auto, using(crate::proofs::bytes::Takes::extended))]
fn extend_to(bytes: &mut Vec<u8>, piece: &[u8]) -> Result<(), AllocError>
    requires { length bytes.old.items ≤ 4099 }
    ensures ok { OnOk result (bytes.new.items ≡ take 4099 (bytes.old.items ++ piece.now)) }
    ensures small { length bytes.new.items ≤ 4099 }
    ensures err { OnErr result (bytes.new.items ≡ bytes.old.items) }
{
    let count = min(MOST_BEGUN - bytes.len(), piece.len());
    bytes.extend_from_slice(&piece[..count])?;
    Ok(())
}
