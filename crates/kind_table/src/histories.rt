// Histories of updates, each made on what it has seen, and what an object then shows.
ghost use Rattle.std.specs.Prelude.{◌≡◌, true, IfOk, OnOk};
ghost use Rattle.crdt_core.specs.EffectForm.{HoldsSpelled};

use crate::acts::op_of;
use crate::effects::put_bytes;
use crate::kept::dot_of;
use crate::values::put_value;
use crate::words::{number_of, put_refusal, words_of};
use crdt_core::{Crdt, GenError, Kind, Op, Value, value_after};
use std::alloc::{AllocError, Global};

/// The place of an update in its history: `1` is the first, `a` the tenth.
fn place_of(byte: u8) -> usize {
    match byte {
        b'1'..=b'9' => (byte - b'1') as usize,
        b'a'..=b'z' => (byte - b'a') as usize + 9,
        _ => usize::MAX,
    }
}

/// Applies the effect of an update of a site, by its number from 0.
fn apply_one<C: Crdt>(
    alloc: Global,
    kind: Kind,
    state: &mut C::State,
    site: u8,
    number: usize,
    effect: &C::Effect,
) -> Result<(), AllocError>
    requires has { C.has kind ≡ true }
    requires spelled { HoldsSpelled C.holds state.old }
    ensures { OnOk result (HoldsSpelled C.holds state.new) }
{
    C::apply(alloc, state, dot_of(site, number), effect)?;
    Ok(())
}

/// The state after these updates, in this order.
fn state_of<C: Crdt>(
    alloc: Global,
    kind: Kind,
    made: &[(u8, C::Effect)],
    order: &str,
) -> Result<C::State, AllocError>
    requires { C.has kind ≡ true }
    ensures { IfOk result (λ state. HoldsSpelled C.holds state) }
{
    let mut state = C::empty(alloc, kind)?;
    for byte in order.as_bytes() {
        let number = place_of(*byte);
        if let Some((site, effect)) = made.get(number) {
            apply_one::<C>(alloc, kind, &mut state, *site, number, effect)?;
        }
    }
    Ok(state)
}

/// The effect of an operation on what was seen.
fn effect_on<C: Crdt>(
    alloc: Global,
    kind: Kind,
    op: &Op,
    state: &C::State,
    now: u64,
) -> Result<C::Effect, GenError>
    requires has { C.has kind ≡ true }
    requires spelled { HoldsSpelled C.holds state.now }
    ensures { IfOk result (λ effect. C.can_put effect ≡ true) }
{
    C::generate(alloc, kind, op.path.as_slice(), &op.act, state, now)
}

/// Adds an update of a site, as it is read from its bytes.
fn push_taken<C: Crdt>(
    alloc: Global,
    out: &mut String,
    kind: Kind,
    made: &mut Vec<(u8, C::Effect)>,
    site: u8,
    bytes: &[u8],
) -> Result<(), AllocError> {
    match C::take_effect(alloc, kind, bytes, 0) {
        Ok((effect, _)) => {
            made.push((site, effect))?;
            Ok(())
        }
        Err(error) => put_refusal(out, error),
    }
}

/// Adds the bytes of an update of a site, and the update as it is read from them.
fn put_update<C: Crdt>(
    alloc: Global,
    out: &mut String,
    kind: Kind,
    made: &mut Vec<(u8, C::Effect)>,
    site: u8,
    effect: &C::Effect,
) -> Result<(), AllocError>
    requires { C.can_put effect.now ≡ true }
{
    let bytes = put_bytes::<C>(alloc, out, effect)?;
    push_taken::<C>(alloc, out, kind, made, site, bytes.as_slice())
}

/// Makes an update of a site on the state that it has seen.
fn update_on<C: Crdt>(
    alloc: Global,
    out: &mut String,
    kind: Kind,
    made: &mut Vec<(u8, C::Effect)>,
    site: u8,
    op: &Op,
    state: &C::State,
    now: u64,
) -> Result<(), AllocError>
    requires has { C.has kind ≡ true }
    requires spelled { HoldsSpelled C.holds state.now }
{
    match effect_on::<C>(alloc, kind, op, state, now) {
        Ok(effect) => put_update::<C>(alloc, out, kind, made, site, &effect),
        Err(GenError::TooDeep) => out.push_str("too deep"),
        Err(GenError::BadOp) => out.push_str("bad operation"),
        Err(GenError::NoMemory) => Err(AllocError),
    }
}

/// Makes an update of a site on those of these places.
fn update_after<C: Crdt>(
    alloc: Global,
    out: &mut String,
    kind: Kind,
    made: &mut Vec<(u8, C::Effect)>,
    site: u8,
    op: &Op,
    seen: &str,
    now: u64,
) -> Result<(), AllocError>
    requires { C.has kind ≡ true }
{
    let state = state_of::<C>(alloc, kind, made.as_slice(), seen)?;
    update_on::<C>(alloc, out, kind, made, site, op, &state, now)
}

/// Makes the update of the words `SITE SEEN CLOCK PATH ACT ..`.
fn update<C: Crdt>(
    alloc: Global,
    out: &mut String,
    kind: Kind,
    made: &mut Vec<(u8, C::Effect)>,
    words: &[&str],
) -> Result<(), AllocError>
    requires { C.has kind ≡ true }
{
    let [site, seen, clock, op @ ..] = words else {
        return out.push_str("no update");
    };
    let Some(op) = op_of(alloc, op)? else {
        return out.push_str("no operation");
    };
    let (site, now) = (site.parse::<u8>().unwrap_or(1), number_of(clock));
    update_after::<C>(alloc, out, kind, made, site, &op, seen, now)
}

/// What all updates show, in turn.
fn value_of_all<C: Crdt>(
    alloc: Global,
    kind: Kind,
    made: &[(u8, C::Effect)],
) -> Result<Value, AllocError>
    requires { C.has kind ≡ true }
{
    let mut stored = Vec::new(alloc);
    for (number, (site, effect)) in made.iter().enumerate() {
        let effect = C::copy_effect(alloc, effect)?;
        stored.push((dot_of(*site, number), effect))?;
    }
    value_after::<C>(alloc, kind, stored.as_slice())
}

/// Adds what a copy of the value is.
fn put_copy(alloc: Global, out: &mut String, value: &Value) -> Result<(), AllocError> {
    put_value(out, &value.copy(alloc)?)
}

/// Adds what a state shows, and whether it is blank.
fn put_state<C: Crdt>(alloc: Global, out: &mut String, state: &C::State) -> Result<(), AllocError> {
    put_copy(alloc, out, &C::value(alloc, state)?)?;
    if C::is_blank(state) {
        return out.push_str(", blank");
    }
    Ok(())
}

/// Adds what these updates show in this order.
fn put_read<C: Crdt>(
    alloc: Global,
    out: &mut String,
    kind: Kind,
    made: &[(u8, C::Effect)],
    order: &str,
) -> Result<(), AllocError>
    requires { C.has kind ≡ true }
{
    let state = state_of::<C>(alloc, kind, made, order)?;
    put_state::<C>(alloc, out, &C::copy(alloc, &state)?)
}

/// Adds what a piece of a history does: `read` of all updates in turn, `read ORDER`, or an update.
fn put_piece<C: Crdt>(
    alloc: Global,
    out: &mut String,
    kind: Kind,
    made: &mut Vec<(u8, C::Effect)>,
    words: &[&str],
) -> Result<(), AllocError>
    requires { C.has kind ≡ true }
{
    match words {
        ["read"] => put_value(out, &value_of_all::<C>(alloc, kind, made.as_slice())?),
        ["read", order] => put_read::<C>(alloc, out, kind, made.as_slice(), order),
        _ => update::<C>(alloc, out, kind, made, words),
    }
}

/// Adds the words of a piece.
fn put_words(out: &mut String, words: &[&str]) -> Result<(), AllocError> {
    out.push_str(" ")?;
    for word in words {
        write!(out, " {word}")?;
    }
    out.push_str(": ")
}

/// Adds the line of a piece of a history: its words, and what it does.
fn put_line<C: Crdt>(
    alloc: Global,
    out: &mut String,
    kind: Kind,
    made: &mut Vec<(u8, C::Effect)>,
    piece: &[u8],
) -> Result<(), AllocError>
    requires { C.has kind ≡ true }
{
    let words = words_of(alloc, piece)?;
    put_words(out, words.as_slice())?;
    put_piece::<C>(alloc, out, kind, made, words.as_slice())?;
    out.push_str("\n")
}

/// What the pieces of a history do, each on a line.
pub(crate) fn played<C: Crdt>(
    alloc: Global,
    kind: Kind,
    history: &str,
) -> Result<String, AllocError>
    requires { C.has kind ≡ true }
{
    let mut out = String::new(alloc);
    let mut made = Vec::new(alloc);
    for piece in history.as_bytes().split(|byte| *byte == b'|') {
        put_line::<C>(alloc, &mut out, kind, &mut made, piece)?;
    }
    Ok(out)
}
