ghost use Rattle.std.specs.Prelude.{◌≡◌, ◌≢◌, ◌∷◌, [], Err, OnOk, Some, None, option_and_then, option_map, true};
ghost use Rattle.world_model.specs.declared.command.Command.{Command};
ghost use Rattle.script_text.specs.Brief.{command_of};
ghost use Rattle.script_text.specs.Line.{command_as, is_update};
ghost use Rattle.script_text.specs.Grammar as grammar;
ghost use Rattle.script_text.specs.Places as places;
ghost use Rattle.script_text.specs.Split.{words};

use crate::act::op_into;
use crate::brief::{Brief, put, put_brief};
use crate::number::{ranged, small};
use crate::object::{object, object_into};
use crate::place::{MOST, number, numbered, part, site, time, tx};
use crate::split::{next, only, only_two};
use crate::text::{empty, name_into, text};
use crate::{ParseError, Parsed};
use crdt_core::{Act, Kind, ObjectId, Op};
use field_codec::{ListOf, Text};
use script_words::spells;
use site_vector::PartId;
use std::alloc::Global;
use world_model::{Command, Mode};

fn cluster(line: &str) -> Option<Brief>
    ensures { option_map command_of result ≡ grammar.with_two grammar.cluster (words line.now) }
{
    let (sites, parts) = only_two(line)?;
    let sites = site(sites)?;
    let parts = small(parts, 1, 16)?;
    Some(Brief::Cluster { sites, parts })
}

fn clock(line: &str) -> Option<Brief>
    ensures { option_map command_of result ≡ grammar.with_two grammar.clock (words line.now) }
{
    let (at, n) = only_two(line)?;
    let part = part(at)?;
    let n = number(n)?;
    Some(Brief::Clock { part, n })
}

fn expire(line: &str) -> Option<Brief>
    ensures { option_map command_of result ≡ grammar.with_two grammar.expire (words line.now) }
{
    let (at, id) = only_two(line)?;
    let part = part(at)?;
    let tx = tx(id)?;
    Some(Brief::Expire { part, tx })
}

fn hear(line: &str) -> Option<Brief>
    ensures { option_map command_of result ≡ grammar.with_two grammar.hear (words line.now) }
{
    let (report, at) = only_two(line)?;
    let number = numbered(report, b'g')?;
    let part = part(at)?;
    Some(Brief::Hear { number, part })
}

fn settle(line: &str) -> Option<Brief>
    ensures { option_map command_of result ≡ grammar.with_one grammar.settle (words line.now) }
{
    let part = part(only(line)?)?;
    Some(Brief::Settle { part })
}

fn report(line: &str) -> Option<Brief>
    ensures { option_map command_of result ≡ grammar.with_one grammar.reported (words line.now) }
{
    let part = part(only(line)?)?;
    Some(Brief::Report { part })
}

fn crash(line: &str) -> Option<Brief>
    ensures { option_map command_of result ≡ grammar.with_one grammar.crash (words line.now) }
{
    let part = part(only(line)?)?;
    Some(Brief::Crash { part })
}

fn restart(line: &str) -> Option<Brief>
    ensures { option_map command_of result ≡ grammar.with_one grammar.restart (words line.now) }
{
    let part = part(only(line)?)?;
    Some(Brief::Restart { part })
}

fn deliver(line: &str) -> Option<Brief>
    ensures { option_map command_of result ≡ grammar.with_one grammar.deliver (words line.now) }
{
    let number = numbered(only(line)?, b'm')?;
    Some(Brief::Deliver { number })
}

/// What a message or a report is dropped by.
#[tactic(auto, using(crate::proofs::Cuts::after_first))]
fn dropped(word: &str) -> Option<Brief>
    ensures { option_map command_of result ≡ grammar.drop word.now }
{
    match word.as_bytes() {
        [b'm', ..] => {
            let number = number(&word[1..])?;
            Some(Brief::DropMessage { number })
        }
        _ => {
            let number = numbered(word, b'g')?;
            Some(Brief::DropReport { number })
        }
    }
}

fn drop(line: &str) -> Option<Brief>
    ensures { option_map command_of result ≡ grammar.with_one grammar.drop (words line.now) }
{
    dropped(only(line)?)
}

#[inline(never)]
fn session(alloc: Global, line: &str, parsed: &mut Parsed) -> Result<(), ParseError>
    ensures ok { OnOk result (Some parsed.new ≡ command_as (grammar.with_two grammar.session (words line.now))) }
    ensures bad { result ≡ Err ParseError.Bad → grammar.with_two grammar.session (words line.now) ≡ None }
{
    let Some((name, at)) = only_two(line) else {
        return Err(ParseError::Bad);
    };
    let name = text(alloc, name)?;
    match site(at) {
        Some(site) => {
            put(parsed, Command::Session { name, site });
            Ok(())
        }
        None => Err(ParseError::Bad),
    }
}

#[inline(never)]
fn moved(alloc: Global, line: &str, parsed: &mut Parsed) -> Result<(), ParseError>
    ensures ok { OnOk result (Some parsed.new ≡ command_as (grammar.with_two grammar.moved (words line.now))) }
    ensures bad { result ≡ Err ParseError.Bad → grammar.with_two grammar.moved (words line.now) ≡ None }
{
    let Some((name, at)) = only_two(line) else {
        return Err(ParseError::Bad);
    };
    let name = text(alloc, name)?;
    match site(at) {
        Some(site) => {
            put(parsed, Command::Move { name, site });
            Ok(())
        }
        None => Err(ParseError::Bad),
    }
}

#[inline(never)]
fn lose(alloc: Global, line: &str, parsed: &mut Parsed) -> Result<(), ParseError>
    ensures ok { OnOk result (Some parsed.new ≡ command_as (grammar.with_one grammar.lose (words line.now))) }
    ensures bad { result ≡ Err ParseError.Bad → grammar.with_one grammar.lose (words line.now) ≡ None }
{
    let Some(name) = only(line) else {
        return Err(ParseError::Bad);
    };
    let name = text(alloc, name)?;
    put(parsed, Command::Lose { name });
    Ok(())
}

#[inline(never)]
fn abort(alloc: Global, line: &str, parsed: &mut Parsed) -> Result<(), ParseError>
    ensures ok { OnOk result (Some parsed.new ≡ command_as (grammar.with_one grammar.abort (words line.now))) }
    ensures bad { result ≡ Err ParseError.Bad → grammar.with_one grammar.abort (words line.now) ≡ None }
{
    let Some(name) = only(line) else {
        return Err(ParseError::Bad);
    };
    let name = text(alloc, name)?;
    put(parsed, Command::Abort { name });
    Ok(())
}

/// The place and the mode, where the line goes on with a place, with `stable`, or with both in this order, and no more.
fn place_and_mode(line: &str) -> Option<(Option<PartId>, Mode)>
    ensures { result ≡ grammar.begins (words line.now) }
{
    let Some((word, rest)) = next(line) else {
        return Some((None, Mode::Fresh));
    };
    let Some((last, rest)) = next(rest) else {
        return place_or_stable(word);
    };
    if next(rest).is_some() {
        return None;
    }
    if !spells(last.as_bytes(), "stable") {
        return None;
    }
    Some((Some(part(word)?), Mode::Stable))
}

/// The place and the mode of a begin that goes on with this word alone.
fn place_or_stable(word: &str) -> Option<(Option<PartId>, Mode)>
    ensures { result ≡ grammar.begins (word.now ∷ []) }
{
    if spells(word.as_bytes(), "stable") {
        return Some((None, Mode::Stable));
    }
    Some((Some(part(word)?), Mode::Fresh))
}

/// The count of steps, where the line goes on with one, and no more.
fn maybe_steps(line: &str) -> Option<Option<u64>>
    ensures { result ≡ grammar.maybe grammar.steps (words line.now) }
{
    match next(line) {
        None => Some(None),
        Some((word, rest)) => {
            if next(rest).is_some() {
                return None;
            }
            Some(Some(ranged(word, 1, MOST)?))
        }
    }
}

/// The time, where the line goes on with one, and no more.
fn maybe_time(line: &str) -> Option<Option<u64>>
    ensures { result ≡ grammar.maybe places.time (words line.now) }
{
    match next(line) {
        None => Some(None),
        Some((word, rest)) => {
            if next(rest).is_some() {
                return None;
            }
            Some(Some(time(word)?))
        }
    }
}

#[inline(never)]
fn begin(alloc: Global, line: &str, parsed: &mut Parsed) -> Result<(), ParseError>
    ensures ok { OnOk result (Some parsed.new ≡ command_as (grammar.begin (words line.now))) }
    ensures bad { result ≡ Err ParseError.Bad → grammar.begin (words line.now) ≡ None }
{
    let Some((name, rest)) = next(line) else {
        return Err(ParseError::Bad);
    };
    let name = text(alloc, name)?;
    match place_and_mode(rest) {
        Some((part, mode)) => {
            put(parsed, Command::Begin { name, part, mode });
            Ok(())
        }
        None => Err(ParseError::Bad),
    }
}

#[inline(never)]
fn commit(alloc: Global, line: &str, parsed: &mut Parsed) -> Result<(), ParseError>
    ensures ok { OnOk result (Some parsed.new ≡ command_as (grammar.commit (words line.now))) }
    ensures bad { result ≡ Err ParseError.Bad → grammar.commit (words line.now) ≡ None }
{
    let Some((name, rest)) = next(line) else {
        return Err(ParseError::Bad);
    };
    let name = text(alloc, name)?;
    match maybe_steps(rest) {
        Some(steps) => {
            put(parsed, Command::Commit { name, steps });
            Ok(())
        }
        None => Err(ParseError::Bad),
    }
}

fn send(line: &str) -> Option<Brief>
    ensures { option_map command_of result ≡ grammar.send (words line.now) }
{
    let (at, rest) = next(line)?;
    let (to, rest) = next(rest)?;
    let part = part(at)?;
    let site = site(to)?;
    let from = maybe_time(rest)?;
    Some(Brief::Send { part, site, from })
}

fn fuse(line: &str) -> Option<Brief>
    ensures { option_map command_of result ≡ grammar.fuse (words line.now) }
{
    let (at, rest) = next(line)?;
    let (call, keep) = only_two(rest)?;
    let part = part(at)?;
    let call = ranged(call, 1, MOST)?;
    let keep = number(keep)?;
    Some(Brief::Fuse { part, call, keep })
}

#[inline(never)]
fn read(alloc: Global, line: &str, parsed: &mut Parsed) -> Result<(), ParseError>
    ensures ok { OnOk result (Some parsed.new ≡ command_as (grammar.read (words line.now))) }
    ensures bad { result ≡ Err ParseError.Bad → grammar.read (words line.now) ≡ None }
{
    let Some((name, rest)) = next(line) else {
        return Err(ParseError::Bad);
    };
    let name = text(alloc, name)?;
    let (object, rest) = object(alloc, rest)?;
    match next(rest) {
        None => {
            put(parsed, Command::Read { name, object });
            Ok(())
        }
        Some(_) => Err(ParseError::Bad),
    }
}

/// Puts some update into the place of a line, for one to be read into.
#[inline(never)]
fn make_update(alloc: Global, parsed: &mut Parsed) -> Result<(), ParseError>
    ensures ok { OnOk result (is_update parsed.new ≡ true) }
    ensures bad { result ≢ Err ParseError.Bad }
{
    let name = empty(alloc)?;
    let bucket = empty(alloc)?;
    let key = empty(alloc)?;
    let object = ObjectId {
        bucket,
        key,
        kind: Kind::CounterPn,
    };
    let op = Op {
        path: ListOf::new(alloc),
        act: Act::Reset,
    };
    put(parsed, Command::Update { name, object, op });
    Ok(())
}

fn is_update(parsed: &Parsed) -> bool
    ensures { result ≡ is_update parsed.now }
{
    match parsed {
        Parsed::Command(Command::Update { .. }) => true,
        _ => false,
    }
}

/// Leaves an update in the place of a line: the one that stands there, or else some.
fn keep_update(alloc: Global, parsed: &mut Parsed) -> Result<(), ParseError>
    ensures ok { OnOk result (is_update parsed.new ≡ true) }
    ensures bad { result ≢ Err ParseError.Bad }
{
    if is_update(parsed) {
        return Ok(());
    }
    make_update(alloc, parsed)
}

fn update_into(
    alloc: Global,
    line: &str,
    name: &mut Text,
    object: &mut ObjectId,
    op: &mut Op,
) -> Result<(), ParseError>
    ensures ok { OnOk result (grammar.update (words line.now) ≡ Some (Command.Update name.new object.new op.new)) }
    ensures bad { result ≡ Err ParseError.Bad → grammar.update (words line.now) ≡ None }
{
    let Some((word, rest)) = next(line) else {
        return Err(ParseError::Bad);
    };
    name_into(alloc, word, name)?;
    let rest = object_into(alloc, rest, object)?;
    op_into(alloc, rest, op)
}

/// Reads an update over the one of the line before, where that was one: texts that are made anew are moved.
#[inline(never)]
pub fn update(alloc: Global, line: &str, parsed: &mut Parsed) -> Result<(), ParseError>
    ensures ok { OnOk result (Some parsed.new ≡ command_as (grammar.update (words line.now))) }
    ensures bad { result ≡ Err ParseError.Bad → grammar.update (words line.now) ≡ None }
{
    keep_update(alloc, parsed)?;
    match parsed {
        Parsed::Command(command) => match command {
            Command::Update { name, object, op } => update_into(alloc, line, name, object, op),
            _ => unreachable!(),
        },
        Parsed::Nothing => unreachable!(),
    }
}

/// The command of this name, where it keeps no text.
fn plain(name: &[u8], line: &str) -> Option<Brief>
    ensures { option_map command_of result ≡ grammar.plain_named name.now (words line.now) }
{
    if spells(name, "cluster") {
        return cluster(line);
    }
    if spells(name, "clock") {
        return clock(line);
    }
    if spells(name, "expire") {
        return expire(line);
    }
    if spells(name, "hear") {
        return hear(line);
    }
    if spells(name, "settle") {
        return settle(line);
    }
    if spells(name, "report") {
        return report(line);
    }
    if spells(name, "crash") {
        return crash(line);
    }
    if spells(name, "restart") {
        return restart(line);
    }
    if spells(name, "deliver") {
        return deliver(line);
    }
    if spells(name, "drop") {
        return drop(line);
    }
    if spells(name, "send") {
        return send(line);
    }
    if spells(name, "fuse") {
        return fuse(line);
    }
    None
}

/// Reads the command of this name, where it keeps no text, into its place.
#[inline(never)]
fn plain_into(name: &[u8], line: &str, parsed: &mut Parsed) -> Result<(), ParseError>
    ensures ok { OnOk result (Some parsed.new ≡ command_as (grammar.plain_named name.now (words line.now))) }
    ensures bad { result ≡ Err ParseError.Bad → grammar.plain_named name.now (words line.now) ≡ None }
{
    match plain(name, line) {
        Some(brief) => {
            put_brief(parsed, brief);
            Ok(())
        }
        None => Err(ParseError::Bad),
    }
}

/// Reads the command of this name, with the words after it, into its place. No command is moved on the way, and what
/// each way needs is set up only where it is gone: a line's reading is dear by its moves.
pub fn command(
    alloc: Global,
    name: &[u8],
    line: &str,
    parsed: &mut Parsed,
) -> Result<(), ParseError>
    ensures ok { OnOk result (Some parsed.new ≡ command_as (grammar.command_named name.now (words line.now))) }
    ensures bad { result ≡ Err ParseError.Bad → grammar.command_named name.now (words line.now) ≡ None }
{
    if spells(name, "session") {
        return session(alloc, line, parsed);
    }
    if spells(name, "move") {
        return moved(alloc, line, parsed);
    }
    if spells(name, "lose") {
        return lose(alloc, line, parsed);
    }
    if spells(name, "abort") {
        return abort(alloc, line, parsed);
    }
    if spells(name, "begin") {
        return begin(alloc, line, parsed);
    }
    if spells(name, "commit") {
        return commit(alloc, line, parsed);
    }
    if spells(name, "read") {
        return read(alloc, line, parsed);
    }
    if spells(name, "update") {
        return update(alloc, line, parsed);
    }
    plain_into(name, line, parsed)
}
