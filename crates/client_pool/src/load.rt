ghost use Rattle.std.specs.Prelude.{◌≡◌, ◌≤◌, ◌<◌, ◌++◌, codes, length, IfOk};
ghost use Rattle.std.specs.Fmt.{decimal};
ghost use Rattle.client_pool.specs.Load as load;

use crate::Plan;
use crdt_core::{Act, Kind, ObjectId, Op};
use field_codec::{ListOf, Text};
use itoa::Buffer;
use std::alloc::{AllocError, Global};

/// The site of a client.
pub fn site_of(plan: &Plan, client: u8) -> u8
    requires { 1 ≤ client }
    ensures site { result ≡ load.site_of plan.now client }
    ensures least { 1 ≤ result }
    ensures most { result ≤ plan.now.sites }
{
    1 + (client - 1) % plan.sites
}

/// The partition of its client's site where a transaction begins.
pub fn first_part(plan: &Plan, txn: u32) -> u8
    ensures part { result ≡ load.first_part plan.now txn }
    ensures least { 1 ≤ result }
    ensures most { result ≤ plan.now.parts }
{
    1 + (txn % plan.parts as u32) as u8
}

/// The number of the counter that a client's transaction increments, from 0 to 7. It decrements the next one.
pub fn counter_of(plan: &Plan, client: u8, txn: u32) -> u8
    ensures counter { result ≡ load.counter_of plan.now client txn }
    ensures most { result < 8 }
{
    ((plan.number + client as u64 + txn as u64) % 8) as u8
}

/// The number of the counter after this one.
pub fn next_counter(m: u8) -> u8
    requires { m < 8 }
    ensures next { result ≡ load.next_counter m }
    ensures most { result < 8 }
{
    (m + 1) % 8
}

/// A letter, and a number.
fn numbered(alloc: Global, letter: &str, n: u8) -> Result<Text, AllocError>
    requires { length letter.now ≤ 1 }
    ensures { IfOk result (λ t. t ≡ letter.now ++ decimal n) }
{
    let mut name = String::from_str(alloc, letter)?;
    name.push_str(Buffer::new().format(n))?;
    match Text::of(alloc, name.as_str())? {
        Some(text) => Ok(text),
        None => unreachable!(),
    }
}

/// A text that is short.
fn short(alloc: Global, text: &str) -> Result<Text, AllocError>
    requires { length text.now ≤ 8 }
    ensures { IfOk result (λ t. t ≡ text.now) }
{
    match Text::of(alloc, text)? {
        Some(text) => Ok(text),
        None => unreachable!(),
    }
}

/// The name of a client's session.
///
/// # Errors
///
/// `AllocError` where memory runs out.
pub fn session_name(alloc: Global, client: u8) -> Result<Text, AllocError>
    ensures { IfOk result (λ t. t ≡ load.session_name client) }
{
    numbered(alloc, "c", client)
}

/// The object of the counter with this number.
///
/// # Errors
///
/// `AllocError` where memory runs out.
pub fn counter(alloc: Global, m: u8) -> Result<ObjectId, AllocError>
    ensures { IfOk result (λ o. o ≡ load.counter m) }
{
    Ok(ObjectId {
        key: numbered(alloc, "k", m)?,
        bucket: short(alloc, "")?,
        kind: Kind::CounterPn,
    })
}

/// The object that names the clients whose transactions committed.
///
/// # Errors
///
/// `AllocError` where memory runs out.
pub fn clients(alloc: Global) -> Result<ObjectId, AllocError>
    ensures { IfOk result (λ o. o ≡ load.clients) }
{
    Ok(ObjectId {
        key: short(alloc, "clients")?,
        bucket: short(alloc, "")?,
        kind: Kind::SetAw,
    })
}

/// What a transaction does to the counter with this number. Takes no memory.
pub fn increment(alloc: Global, m: u8) -> Op
    requires { m < 8 }
    ensures { result ≡ load.whole (load.incremented m) }
{
    Op {
        path: ListOf::new(alloc),
        act: Act::Increment(1 + m as i32),
    }
}

/// What a transaction that increments the counter with this number does to the next one. Takes no memory.
pub fn decrement(alloc: Global, m: u8) -> Op
    requires { m < 8 }
    ensures { result ≡ load.whole (load.decremented m) }
{
    Op {
        path: ListOf::new(alloc),
        act: Act::Decrement(1 + m as i32),
    }
}

/// What a transaction of a client does to the names.
///
/// # Errors
///
/// `AllocError` where memory runs out.
pub fn addition(alloc: Global, client: u8) -> Result<Op, AllocError>
    ensures { IfOk result (λ op. op ≡ load.whole (load.added client)) }
{
    let mut names = ListOf::with_capacity(alloc, 1)?;
    names.push(session_name(alloc, client)?)?;
    Ok(Op {
        path: ListOf::new(alloc),
        act: Act::Add(names),
    })
}
