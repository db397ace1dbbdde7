ghost use Rattle.std.specs.Prelude.{◌≡◌, ◌<◌, ◌++◌, ◌∷◌, [], length, Err, IfOk, IfSome, IfNone, OnOk, Some, None, option_map, option_and_then};
ghost use Rattle.script_text.specs.Acts as acts;
ghost use Rattle.script_text.specs.Front as front;
ghost use Rattle.script_text.specs.Objects as objects;
ghost use Rattle.script_text.specs.Split.{words};

use crate::ParseError;
use crate::number::integer;
use crate::object::field;
use crate::split::{next, only, only_two, trimmed};
use crate::text::text;
use crdt_core::{Act, Field, Op};
use field_codec::{ListOf, Text};
use script_words::spells;
use std::alloc::Global;

/// The texts of the words.
#[tactic(auto, using(crate::proofs::Lists::texts_start, crate::proofs::Lists::texts_more, crate::proofs::Lists::texts_end, crate::proofs::Lists::texts_bad))]
fn texts(alloc: Global, line: &str) -> Result<ListOf<Text>, ParseError>
    ensures ok { IfOk result (λ ts. acts.texts (words line.now) ≡ Some ts) }
    ensures bad { result ≡ Err ParseError.Bad → acts.texts (words line.now) ≡ None }
{
    let mut all = ListOf::new(alloc);
    let mut rest = line;
    while let Some((word, after)) = next(rest) {
        all.push(text(alloc, word)?)?;
        rest = after;
    }
    Ok(all)
}

/// One text or more.
fn some_texts(alloc: Global, line: &str) -> Result<ListOf<Text>, ParseError>
    ensures ok { IfOk result (λ ts. acts.some_texts (words line.now) ≡ Some ts) }
    ensures bad { result ≡ Err ParseError.Bad → acts.some_texts (words line.now) ≡ None }
{
    if next(line).is_none() {
        return Err(ParseError::Bad);
    }
    texts(alloc, line)
}

/// What follows `in` and the space after it, where they stand at the front.
#[tactic(auto, using(crate::proofs::Cuts::after_third))]
fn after_in(line: &str) -> Option<&str>
    ensures some { IfSome result (λ r. front.after_in line.now ≡ Some r.now) }
    ensures none { IfNone result (front.after_in line.now ≡ None) }
{
    match line.as_bytes() {
        [b'i', b'n', b' ', ..] => Some(&line[3..]),
        _ => None,
    }
}

/// The name and the kind after `in`, and what follows them, where `in` and two words stand at the front.
#[tactic(auto, using(crate::proofs::Fronts::in_front, crate::proofs::Fronts::not_in))]
fn next_field(line: &str) -> Option<(&str, &str, &str)>
    ensures some { IfSome result (λ p. objects.path (words line.now)
        ≡ option_and_then (λ f. option_map (λ q. (f ∷ q.0, q.1)) (objects.path (words p.2.now))) (objects.field p.0.now p.1.now)) }
    ensures shorter { IfSome result (λ p. length (words p.2.now) < length (words line.now)) }
    ensures none { IfNone result (objects.path (words line.now) ≡ Some ([], words line.now)) }
{
    let rest = after_in(trimmed(line))?;
    let (name, rest) = next(rest)?;
    let (kind, rest) = next(rest)?;
    Some((name, kind, rest))
}

/// The fields that lead to what changes, each after `in`, and what follows them.
#[tactic(auto, using(crate::proofs::Lists::path_start, crate::proofs::Lists::path_more, crate::proofs::Lists::path_end, crate::proofs::Lists::path_bad))]
fn path(alloc: Global, line: &str) -> Result<(ListOf<Field>, &str), ParseError>
    ensures ok { IfOk result (λ p. objects.path (words line.now) ≡ Some (p.0, words p.1.now)) }
    ensures bad { result ≡ Err ParseError.Bad → objects.path (words line.now) ≡ None }
{
    let mut fields = ListOf::new(alloc);
    let mut rest = line;
    while let Some((name, kind, after)) = next_field(rest) {
        fields.push(field(alloc, name, kind)?)?;
        rest = after;
    }
    Ok((fields, rest))
}

/// The one amount.
fn amount(line: &str) -> Option<i32>
    ensures { result ≡ acts.amount (words line.now) }
{
    integer(only(line)?)
}

/// The act, where nothing follows.
fn alone(act: Act, line: &str) -> Option<Act>
    ensures { result ≡ acts.alone act (words line.now) }
{
    match next(line) {
        None => Some(act),
        Some(_) => None,
    }
}

/// The assign of the one text.
fn assigned(alloc: Global, line: &str) -> Result<Act, ParseError>
    ensures ok { IfOk result (λ a. acts.assigned (words line.now) ≡ Some a) }
    ensures bad { result ≡ Err ParseError.Bad → acts.assigned (words line.now) ≡ None }
{
    let Some(word) = only(line) else {
        return Err(ParseError::Bad);
    };
    Ok(Act::Assign(text(alloc, word)?))
}

/// The drop of the one field.
fn dropped(alloc: Global, line: &str) -> Result<Act, ParseError>
    ensures ok { IfOk result (λ a. acts.dropped (words line.now) ≡ Some a) }
    ensures bad { result ≡ Err ParseError.Bad → acts.dropped (words line.now) ≡ None }
{
    let Some((name, kind)) = only_two(line) else {
        return Err(ParseError::Bad);
    };
    Ok(Act::DropField(field(alloc, name, kind)?))
}

/// The act of this name, and of nothing else in memory than its amount.
fn plain(name: &[u8], line: &str) -> Option<Act>
    ensures { result ≡ acts.plain_named name.now (words line.now) }
{
    if spells(name, "increment") {
        return amount(line).map(Act::Increment);
    }
    if spells(name, "decrement") {
        return amount(line).map(Act::Decrement);
    }
    if spells(name, "reset") {
        return alone(Act::Reset, line);
    }
    if spells(name, "enable") {
        return alone(Act::Enable, line);
    }
    if spells(name, "disable") {
        return alone(Act::Disable, line);
    }
    None
}

/// The act of this name, mostly one that keeps texts. What these are built in is set to zero only where one is read.
#[inline(never)]
fn kept_named(alloc: Global, name: &[u8], line: &str) -> Result<Act, ParseError>
    ensures ok { IfOk result (λ a. acts.act_named name.now (words line.now) ≡ Some a) }
    ensures bad { result ≡ Err ParseError.Bad → acts.act_named name.now (words line.now) ≡ None }
{
    if spells(name, "add") {
        return Ok(Act::Add(some_texts(alloc, line)?));
    }
    if spells(name, "remove") {
        return Ok(Act::Remove(some_texts(alloc, line)?));
    }
    if spells(name, "assign") {
        return assigned(alloc, line);
    }
    if spells(name, "drop") {
        return dropped(alloc, line);
    }
    match plain(name, line) {
        Some(act) => Ok(act),
        None => Err(ParseError::Bad),
    }
}

/// Makes `place` the act of this name. Those that keep no text come first, as most are.
#[tactic(auto, using(crate::proofs::Acts::plain_is))]
fn act_into(alloc: Global, name: &[u8], line: &str, place: &mut Act) -> Result<(), ParseError>
    ensures ok { OnOk result (acts.act_named name.now (words line.now) ≡ Some place.new) }
    ensures bad { result ≡ Err ParseError.Bad → acts.act_named name.now (words line.now) ≡ None }
{
    match plain(name, line) {
        Some(act) => {
            *place = act;
            Ok(())
        }
        None => {
            *place = kept_named(alloc, name, line)?;
            Ok(())
        }
    }
}

/// Makes `place` the operation of a path and an act.
pub fn op_into(alloc: Global, line: &str, place: &mut Op) -> Result<(), ParseError>
    ensures ok { OnOk result (acts.op (words line.now) ≡ Some place.new) }
    ensures bad { result ≡ Err ParseError.Bad → acts.op (words line.now) ≡ None }
{
    let (path, rest) = path(alloc, line)?;
    place.path = path;
    let Some((name, rest)) = next(rest) else {
        return Err(ParseError::Bad);
    };
    act_into(alloc, name.as_bytes(), rest, &mut place.act)
}
