ghost use Rattle.std.specs.Prelude.{◌≡◌, Some, None, Err, OnOk, option_and_then};
ghost use Rattle.dc_engine.specs.Reading.{reading_of, text_in, AsksSaid};

use crate::script::cutter::Cutter;
use script_text::{ParseError, Parsed, parse};
use std::alloc::Global;

/// Reads a line, as it was cut, into `parsed`.
///
/// # Errors
///
/// `Bad` exactly where the line isn't in the grammar; `NoMemory` where memory runs out. What `parsed` holds then is
/// not told.
pub(crate) fn reading<F: Cutter>(
    alloc: Global,
    line: &[u8],
    parsed: &mut Parsed,
) -> Result<(), ParseError>
    ensures read { OnOk result (Some parsed.new ≡ option_and_then reading_of (text_in F.framing line.now)) }
    ensures said { OnOk result (AsksSaid (Some parsed.new)) }
    ensures bad { result ≡ Err ParseError.Bad → None ≡ option_and_then reading_of (text_in F.framing line.now) }
{
    match F::text_in(line) {
        Some(text) => parse(alloc, text, parsed),
        None => Err(ParseError::Bad),
    }
}
