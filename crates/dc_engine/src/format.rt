ghost use Rattle.std.specs.Prelude.{◌≡◌, ◌≤◌, ◌+◌, ◌++◌, ℕ, List, length, take, drop, OnOk, OnErr};
ghost use Rattle.field_codec.specs.Spelling.{number};
ghost use Rattle.world_model.specs.declared.step.Step.{Step};
ghost use Rattle.dc_engine.specs.Format.{in_frame, spelled_as};
ghost use Rattle.dc_engine.specs.declared.format.Format.TheVariants.{Lines, Json};

use byteorder::{BigEndian, ByteOrder};
use reply_text::{json_line, line};
use std::alloc::{AllocError, Global};
use std::marker::PhantomData;
use world_model::Step;

/// How the replies to a script are written.
#[derive(Clone, Copy, Debug, PartialEq, Eq)]
pub enum Format {
    /// Each as a line of text.
    Lines,
    /// Each as a JSON object on a line of its own, with the number of the script's line that it answers, from 1.
    Json,
}

/// What writes replies in one format.
pub(crate) trait Writer {
    /// The bytes of a reply to the script's line of this number.
    ghost spelled: { ℕ → Step → List ℕ };

    /// Adds a reply to the script's line of this number.
    ///
    /// # Errors
    ///
    /// `AllocError` where memory runs out. The bytes are as before then.
    fn write(alloc: Global, number: u64, step: &Step, out: &mut Vec<u8>) -> Result<(), AllocError>
        ensures ok { OnOk result (out.new.items ≡ out.old.items ++ spelled number step.now) }
        ensures err { OnErr result (out.new.items ≡ out.old.items) };
}

/// Writes lines of text.
pub(crate) struct LineWriter;

impl Writer for LineWriter {
    ghost spelled = { spelled_as Lines };

    fn write(alloc: Global, number: u64, step: &Step, out: &mut Vec<u8>) -> Result<(), AllocError> {
        line(alloc, step, out)
    }
}

/// Writes JSON objects.
pub(crate) struct JsonWriter;

impl Writer for JsonWriter {
    ghost spelled = { spelled_as Json };

    fn write(alloc: Global, number: u64, step: &Step, out: &mut Vec<u8>) -> Result<(), AllocError> {
        json_line(alloc, number, step, out)
    }
}

/// Writes as frames what this writer writes as lines.
pub(crate) struct Framed<W: Writer> {
    lines: PhantomData<W>,
}

impl<W: Writer> Writer for Framed<W> {
    ghost spelled = { λ number step. in_frame (W.spelled number step) };

    fn write(alloc: Global, number: u64, step: &Step, out: &mut Vec<u8>) -> Result<(), AllocError> {
        let start = out.len();
        match write_frame::<W>(alloc, number, step, out) {
            Ok(()) => Ok(()),
            Err(error) => {
                out.truncate(start);
                Err(error)
            }
        }
    }
}

/// Writes a reply as a frame; on an error what was written of it stands behind what was there.
fn write_frame<W: Writer>(
    alloc: Global,
    number: u64,
    step: &Step,
    out: &mut Vec<u8>,
) -> Result<(), AllocError>
    ensures ok { OnOk result (out.new.items ≡ out.old.items ++ in_frame (W.spelled number step.now)) }
    ensures err { OnErr result (take (length out.old.items) out.new.items ≡ out.old.items) }
{
    let start = out.len();
    out.extend_from_slice(&[0; 4])?;
    let head_end = out.len();
    W::write(alloc, number, step, out)?;
    // A line ends at a line feed, which a frame hasn't.
    let size = (out.len() - head_end).saturating_sub(1);
    out.truncate(head_end + size);
    let Ok(size) = u32::try_from(size) else {
        return Err(AllocError);
    };
    write_head(out, start, size);
    Ok(())
}

/// Writes the head of a frame, for which there is room at this place.
fn write_head(out: &mut Vec<u8>, start: usize, size: u32)
    requires { start + 4 ≤ length out.old.items }
    ensures { out.new.items ≡ take start out.old.items ++ (number 4 size ++ drop (start + 4) out.old.items) }
{
    BigEndian::write_u32(&mut out[start..], size);
}
