// How a script is cut into lines, one way or the other.
ghost use Rattle.std.specs.Prelude.{◌≡◌, ◌+◌, ◌*◌, Some, option_map};
ghost use Rattle.std.specs.Io.BufRead.{strip_last};
ghost use Rattle.dc_engine.specs.Ends.{Cuts, last_at, in_head};
ghost use Rattle.dc_engine.specs.Reading.{text_in};
ghost use Rattle.dc_engine.specs.declared.framing.Framing.{Framing};
ghost use Rattle.dc_engine.specs.declared.framing.Framing.TheVariants.{Lines, Frames};

use crate::framing::Framing;
use crate::script::place::{Cut, Place};
use memchr::memchr;

/// How the lines of a script are told apart.
pub(crate) trait Cutter {
    ghost framing: { Framing };

    /// Where the line that was read up to this place goes on among these bytes.
    fn cut(at: Place, bytes: &[u8]) -> Cut
        ensures { Cuts framing at bytes.now result };

    /// What is read of a line: without what only ends it, and nothing where its end isn't there.
    fn text_in(line: &[u8]) -> Option<&[u8]>
        ensures { option_map (λ text. text.now) result ≡ text_in framing line.now };
}

/// Lines end at a line feed.
pub(crate) struct ByLines;

impl Cutter for ByLines {
    ghost framing = { Lines };

    #[tactic(auto, using(crate::proofs::bytes::Cutting::line_ends, crate::proofs::bytes::Cutting::line_leads))]
    fn cut(at: Place, bytes: &[u8]) -> Cut {
        match memchr(b'\n', bytes) {
            Some(line) => Cut::Ends {
                line,
                next: line + 1,
            },
            None => Cut::Leads { at },
        }
    }

    fn text_in(line: &[u8]) -> Option<&[u8]> {
        Some(without_return(line))
    }
}

/// The line without one carriage return at its end.
fn without_return(line: &[u8]) -> &[u8]
    ensures { result.now ≡ strip_last 13 line.now }
{
    match line.split_last() {
        Some((b'\r', front)) => front,
        _ => line,
    }
}

/// Lines are frames.
pub(crate) struct ByFrames;

impl Cutter for ByFrames {
    ghost framing = { Frames };

    #[tactic(auto, using(crate::proofs::bytes::Cutting::frame_ends, crate::proofs::bytes::Cutting::frame_leads, crate::proofs::bytes::Cutting::head_leads))]
    fn cut(at: Place, bytes: &[u8]) -> Cut {
        match last_at(at, bytes) {
            Some(last) if last < bytes.len() => Cut::Ends {
                line: last + 1,
                next: last + 1,
            },
            Some(last) => Cut::Leads {
                at: Place::InBody {
                    more: last - bytes.len(),
                },
            },
            None => Cut::Leads {
                at: in_head(at, bytes),
            },
        }
    }

    fn text_in(line: &[u8]) -> Option<&[u8]> {
        match line {
            [high, low, body @ ..] if body.len() == size_of(*high, *low) => Some(body),
            _ => None,
        }
    }
}

/// How long a body is, by the two bytes of its head.
fn size_of(high: u8, low: u8) -> usize
    ensures { result ≡ high * 256 + low }
{
    usize::from(high) * 256 + usize::from(low)
}

/// Before how many of the bytes that come after this place the last one of the frame stands, where its head is there.
fn last_at(at: Place, bytes: &[u8]) -> Option<usize>
    ensures { result ≡ last_at at bytes.now }
{
    match (at, bytes) {
        (Place::Start, [high, low, ..]) => Some(1 + size_of(*high, *low)),
        (Place::InHead { high }, [low, ..]) => Some(size_of(high, *low)),
        (Place::InBody { more }, _) => Some(more),
        _ => None,
    }
}

/// The place behind bytes with which the head of a frame isn't whole.
fn in_head(at: Place, bytes: &[u8]) -> Place
    ensures { result ≡ in_head at bytes.now }
{
    match bytes {
        [high, ..] => Place::InHead { high: *high },
        [] => at,
    }
}
