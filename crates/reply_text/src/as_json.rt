#![tactic(auto, using(crate::specs::Words::begins_same, crate::specs::Words::begins_after))]

ghost use Rattle.std.specs.Prelude.{◌≡◌, ◌++◌, codes, decimal, IfOk, OnOk, OnErr};
ghost use Rattle.json.specs.Print.{quoted};
ghost use Rattle.reply_text.specs.Json.{reply_of, shown_of, json_of};
ghost use Rattle.reply_text.specs.Words.{Begins};

use crate::bytes::{put, put_number};
use crate::escaped::put_json_string;
use crate::step::line;
use crate::value::put_value;
use std::alloc::{AllocError, Global};
use world_model::Step;

/// The text of the step, without the line feed that ends it.
fn reply_of(alloc: Global, step: &Step) -> Result<Vec<u8>, AllocError>
    ensures { IfOk result (λ text. text.items ≡ reply_of step.now) }
{
    let mut text = Vec::new(alloc);
    line(alloc, step, &mut text)?;
    text.pop();
    Ok(text)
}

/// Adds the value that the step shows, as a member, where it shows one.
fn put_shown(alloc: Global, out: &mut Vec<u8>, step: &Step) -> Result<(), AllocError>
    ensures ok { OnOk result (out.new.items ≡ out.old.items ++ shown_of step.now) }
    ensures err { OnErr result (Begins out.old.items out.new.items) }
{
    match step {
        Step::Value { value, .. } => {
            put(out, b",\"value\":")?;
            put_value(alloc, out, value)
        }
        _ => Ok(()),
    }
}

/// Adds the number of the script's line, as the first member of an object.
fn put_number_of_line(out: &mut Vec<u8>, number: u64) -> Result<(), AllocError>
    ensures ok { OnOk result (out.new.items ≡ out.old.items ++ (codes "{\"line\":" ++ decimal number)) }
    ensures err { OnErr result (Begins out.old.items out.new.items) }
{
    put(out, b"{\"line\":")?;
    put_number(out, number)
}

/// Adds the object of the step.
#[tactic(auto, using(crate::specs::Words::begins_same, crate::specs::Words::begins_after, crate::proofs::Escapes::json_is))]
fn put_object(alloc: Global, number: u64, step: &Step, out: &mut Vec<u8>) -> Result<(), AllocError>
    ensures ok { OnOk result (out.new.items ≡ out.old.items ++ json_of number step.now) }
    ensures err { OnErr result (Begins out.old.items out.new.items) }
{
    let reply = reply_of(alloc, step)?;
    put_number_of_line(out, number)?;
    put(out, b",\"reply\":")?;
    put_json_string(out, reply.as_slice())?;
    put_shown(alloc, out, step)?;
    put(out, b"}\n")
}

/// Adds the step as a JSON object on a line of its own, with the number of the script's line that it answers: the text of
/// the step is its member `reply`, and the value that a read shows its member `value`.
///
/// # Errors
///
/// `AllocError` where memory runs out. The bytes are as before then.
#[tactic(auto, using(crate::proofs::Front::front_kept))]
pub fn json_line(
    alloc: Global,
    number: u64,
    step: &Step,
    out: &mut Vec<u8>,
) -> Result<(), AllocError>
    ensures ok { OnOk result (out.new.items ≡ out.old.items ++ json_of number step.now) }
    ensures err { OnErr result (out.new.items ≡ out.old.items) }
{
    let before = out.len();
    match put_object(alloc, number, step, out) {
        Ok(()) => Ok(()),
        Err(error) => {
            out.truncate(before);
            Err(error)
        }
    }
}
