ghost use Rattle.std.specs.Prelude.{◌≡◌, Err, IfOk, IfSome, IfNone, Some, None, [], option_map};
ghost use Rattle.script_text.specs.Front.{after_at};
ghost use Rattle.script_text.specs.Objects as objects;
ghost use Rattle.script_text.specs.Split.{words};
ghost use Rattle.script_text.specs.Texts as texts;

use crate::ParseError;
use crate::split::{end_of_word, next, trimmed};
use crate::text::{empty, empty_into, text, text_into};
use crdt_core::{Field, ObjectId};
use field_codec::Text;
use script_words::kind_named;
use std::alloc::Global;

/// A name and a kind.
pub fn field(alloc: Global, name: &str, kind: &str) -> Result<Field, ParseError>
    ensures ok { IfOk result (λ f. objects.field name.now kind.now ≡ Some f) }
    ensures bad { result ≡ Err ParseError.Bad → objects.field name.now kind.now ≡ None }
{
    let name = text(alloc, name)?;
    match kind_named(kind.as_bytes()) {
        Some(kind) => Ok(Field { name, kind }),
        None => Err(ParseError::Bad),
    }
}

/// What follows an at sign at the front.
#[tactic(auto, using(crate::proofs::Cuts::after_first))]
fn after_at(line: &str) -> Option<&str>
    ensures some { IfSome result (λ r. after_at line.now ≡ Some r.now) }
    ensures none { IfNone result (after_at line.now ≡ None) }
{
    match line.as_bytes() {
        [b'@', ..] => Some(&line[1..]),
        _ => None,
    }
}

/// The name of the bucket after an at sign, where one stands at the front, and what follows it.
#[tactic(auto, using(crate::proofs::Fronts::not_at, crate::proofs::Cuts::at_end_of_word))]
fn named(line: &str) -> Option<(&str, &str)>
    ensures some { IfSome result (λ p. objects.bucket (words line.now) ≡ option_map (λ t. (t, words p.1.now)) (texts.text p.0.now)) }
    ensures none { IfNone result (objects.bucket (words line.now) ≡ Some ([], words line.now)) }
{
    let rest = after_at(trimmed(line))?;
    Some(rest.split_at(end_of_word(rest.as_bytes())))
}

/// The bucket after an at sign, where it stands at the front, and what follows it; else the empty text.
fn bucket(alloc: Global, line: &str) -> Result<(Text, &str), ParseError>
    ensures ok { IfOk result (λ p. objects.bucket (words line.now) ≡ Some (p.0, words p.1.now)) }
    ensures bad { result ≡ Err ParseError.Bad → objects.bucket (words line.now) ≡ None }
{
    match named(line) {
        Some((name, after)) => Ok((text(alloc, name)?, after)),
        None => Ok((empty(alloc)?, line)),
    }
}

/// A key, a kind and maybe a bucket, and what follows them.
pub fn object(alloc: Global, line: &str) -> Result<(ObjectId, &str), ParseError>
    ensures ok { IfOk result (λ p. objects.object (words line.now) ≡ Some (p.0, words p.1.now)) }
    ensures bad { result ≡ Err ParseError.Bad → objects.object (words line.now) ≡ None }
{
    let Some((key, rest)) = next(line) else {
        return Err(ParseError::Bad);
    };
    let Some((kind, rest)) = next(rest) else {
        return Err(ParseError::Bad);
    };
    let key = text(alloc, key)?;
    let Some(kind) = kind_named(kind.as_bytes()) else {
        return Err(ParseError::Bad);
    };
    let (bucket, rest) = bucket(alloc, rest)?;
    Ok((ObjectId { bucket, key, kind }, rest))
}

/// Makes `place` the bucket after an at sign, where it stands at the front, else the empty text. Gives what follows.
fn bucket_into<'a>(alloc: Global, line: &'a str, place: &mut Text) -> Result<&'a str, ParseError>
    ensures ok { IfOk result (λ r. objects.bucket (words line.now) ≡ Some (place.new, words r.now)) }
    ensures bad { result ≡ Err ParseError.Bad → objects.bucket (words line.now) ≡ None }
{
    match named(line) {
        Some((name, after)) => {
            text_into(alloc, name, place)?;
            Ok(after)
        }
        None => {
            empty_into(alloc, place)?;
            Ok(line)
        }
    }
}

/// Makes `place` the object of a key, a kind and maybe a bucket, and gives what follows them.
pub fn object_into<'a>(
    alloc: Global,
    line: &'a str,
    place: &mut ObjectId,
) -> Result<&'a str, ParseError>
    ensures ok { IfOk result (λ r. objects.object (words line.now) ≡ Some (place.new, words r.now)) }
    ensures bad { result ≡ Err ParseError.Bad → objects.object (words line.now) ≡ None }
{
    let Some((key, rest)) = next(line) else {
        return Err(ParseError::Bad);
    };
    let Some((kind, rest)) = next(rest) else {
        return Err(ParseError::Bad);
    };
    text_into(alloc, key, &mut place.key)?;
    let Some(kind) = kind_named(kind.as_bytes()) else {
        return Err(ParseError::Bad);
    };
    place.kind = kind;
    bucket_into(alloc, rest, &mut place.bucket)
}
