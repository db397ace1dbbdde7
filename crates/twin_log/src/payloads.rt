ghost use Rattle.std.specs.Prelude.{◌≡◌, ◌⊎◌, ◌≤◌, ◌+◌, ◌^◌, ◌++◌, [], true, false, length, take, drop, MatchOption};
ghost use Rattle.std.specs.Iterator.{YieldsFirstBy, item_count};
ghost use Rattle.gate_log.specs.Damage.{is_whole, told_length};
ghost use Rattle.gate_log.specs.Payloads.{walked};

use gate_log::{Payloads as TailPayloads, whole_payload};
use std::alloc::Global;
use std::marker::Model;

/// The payloads of a log, each with the place of its first byte, seen as the list of those that are left.
#[derive(Drop)]
pub struct Payloads<'a> {
    // From a length of the image on, which stands at this place.
    bytes: &'a [u8],
    place: u64,
    // How many of the image are left.
    count: usize,
    tail: TailPayloads<'a>,
}

impl<'a> Model for Payloads<'a> {
    ghost use Rattle.std.specs.Prelude.{◌≤◌, ◌+◌, ◌^◌, ◌++◌, ℕ, List, length};

    ghost Value = { List (ℕ × List ℕ) };

    ghost use Rattle.twin_log.specs.Payloads.{walked_items};

    ghost view = { λ left. walked_items left.count left.place left.bytes.now ++ left.tail };

    ghost invariant = { λ left. left.place + length left.bytes.now ≤ 2 ^ 32 };
}

impl<'a> Payloads<'a> {
    ghost use Rattle.twin_log.specs.Payloads.{walked_items};

    fn from_length(
        bytes: &'a [u8],
        place: u64,
        count: usize,
        tail: TailPayloads<'a>,
    ) -> Payloads<'a>
        requires { place + length bytes.now ≤ 2 ^ 32 }
        ensures { result ≡ walked_items count place bytes.now ++ tail.entry }
    {
        Payloads {
            bytes,
            place,
            count,
            tail,
        }
    }
}

// All that was read at opening, with the places of the first length of its image and of the first gate of its tail; or
// no bytes.
#[derive(Drop)]
pub(crate) struct Contents {
    pub(crate) bytes: Vec<u8>,
    pub(crate) image: usize,
    pub(crate) images: usize,
    pub(crate) tail: usize,
    pub(crate) records: usize,
    ghost small: { length bytes.items ≤ 2 ^ 31 },
    ghost image_within: { image ≤ length bytes.items },
    ghost tail_within: { tail ≤ length bytes.items },
}

impl Contents {
    ghost use Rattle.gate_log.specs.Payloads.{AreWithin};
    ghost use Rattle.twin_log.specs.Payloads.{walked_items};

    // Nothing was read.
    pub(crate) fn none(alloc: Global) -> Contents
        ensures { walked_items result.images result.image (drop result.image result.bytes.items)
            ++ walked result.records result.tail (drop result.tail result.bytes.items) ≡ [] }
    {
        Contents {
            bytes: Vec::new(alloc),
            image: 0,
            images: 0,
            tail: 0,
            records: 0,
        }
    }

    // Lets go what was read, with its memory.
    pub(crate) fn forget(&mut self)
        ensures { walked_items self.new.images self.new.image (drop self.new.image self.new.bytes.items)
            ++ walked self.new.records self.new.tail (drop self.new.tail self.new.bytes.items) ≡ [] }
    {
        let alloc = self.allocator();
        *self = Contents::none(alloc);
    }

    // Whose memory it is in.
    pub(crate) fn allocator(&self) -> Global {
        *self.bytes.allocator()
    }

    pub(crate) fn payloads(&self) -> Payloads<'_>
        ensures walked { result ≡ walked_items self.now.images self.now.image (drop self.now.image self.now.bytes.items)
            ++ walked self.now.records self.now.tail (drop self.now.tail self.now.bytes.items) }
        ensures within { AreWithin (walked_items self.now.images self.now.image
            (drop self.now.image self.now.bytes.items)
            ++ walked self.now.records self.now.tail (drop self.now.tail self.now.bytes.items)) }
    {
        let tail = TailPayloads::from_gate(
            &self.bytes[self.tail..],
            self.tail as u64,
            self.records,
        );
        Payloads::from_length(
            &self.bytes[self.image..],
            self.image as u64,
            self.images,
            tail,
        )
    }
}

// The payload behind the length at the front, where one of so many is left and stands there whole, and what is behind it.
fn split_item(bytes: &[u8], count: usize) -> Option<(&[u8], &[u8])>
    ensures { MatchOption result ((count ≡ 0) ⊎ (is_whole bytes.now ≡ false))
        (λ parts. (1 ≤ count) × (is_whole bytes.now ≡ true) × (length parts.0.now ≡ told_length bytes.now)
        × (parts.0.now ≡ take (told_length bytes.now) (drop 4 bytes.now))
        × (parts.1.now ≡ drop (4 + told_length bytes.now) bytes.now)
        × (length bytes.now ≡ 4 + told_length bytes.now + length parts.1.now)) }
{
    if count == 0 {
        return None;
    }
    let told = whole_payload(bytes)?;
    Some((&bytes[4..4 + told], &bytes[4 + told..]))
}

impl<'a> Iterator for Payloads<'a> {
    type Item = (u64, &'a [u8]);

    ghost next_gives = { YieldsFirstBy (λ item. (item.0, item.1.now)) (λ left. left) };

    ghost remaining = { item_count (λ left. left) };

    fn next(&mut self) -> Option<(u64, &'a [u8])> {
        let Some((payload, rest)) = split_item(self.bytes, self.count) else {
            return self.tail.next();
        };
        let place = self.place + 4;
        self.place = place + payload.len() as u64;
        self.bytes = rest;
        self.count -= 1;
        Some((place, payload))
    }
}
