use crate::words::{counter, offer, transaction, update, vector};
use crdt_core::{Part, Upd, UpdateList, Value};
use crdt_counters::CounterPn;
use effect_store::Store;
use site_vector::{TxId, VTime};
use std::alloc::{AllocError, Global};

type Counters = Store<CounterPn>;

/// A line's first word, and what is behind it.
fn split(line: &str) -> (&str, &str) {
    line.split_once(' ').unwrap_or((line, ""))
}

fn put_vector(out: &mut String, v: &VTime) -> Result<(), AllocError> {
    let mut comma = "";
    for n in v.as_slice() {
        write!(out, "{comma}{n}")?;
        comma = ",";
    }
    Ok(())
}

fn put_tx(out: &mut String, tx: TxId) -> Result<(), AllocError> {
    write!(out, " {}#{}", tx.site, tx.time)
}

/// Adds updates by one, with these indices.
fn add_many(
    alloc: Global,
    all: &mut Vec<Upd<i64>>,
    key: &str,
    count: u16,
) -> Result<bool, AllocError> {
    for index in 0..count {
        match update(alloc, key, index + 1, 1)? {
            Some(update) => all.push(update)?,
            None => return Ok(false),
        }
    }
    Ok(true)
}

/// Adds what a word as `KEY+AMOUNT` or `KEY*COUNT` tells.
fn add_word(
    alloc: Global,
    all: &mut Vec<Upd<i64>>,
    word: &str,
    index: u16,
) -> Result<bool, AllocError> {
    if let Some((key, count)) = word.split_once('*') {
        return add_many(alloc, all, key, count.parse::<u16>().unwrap_or(0));
    }
    let Some((key, amount)) = word.split_once('+') else {
        return Ok(false);
    };
    let Some(update) = update(alloc, key, index, amount.parse::<i64>().unwrap_or(0))? else {
        return Ok(false);
    };
    all.push(update)?;
    Ok(true)
}

/// The updates that the words tell, numbered from 1.
fn updates_of(alloc: Global, words: &str) -> Result<Option<Vec<Upd<i64>>>, AllocError> {
    let mut all = Vec::new(alloc);
    let mut index: u16 = 0;
    for word in words.split(' ') {
        index = index.saturating_add(1);
        if !add_word(alloc, &mut all, word, index)? {
            return Ok(None);
        }
    }
    Ok(Some(all))
}

fn start(
    alloc: Global,
    store: &mut Counters,
    words: &str,
    out: &mut String,
) -> Result<(), AllocError> {
    let sites = words.parse::<u8>().unwrap_or(0);
    if !(1..=8).contains(&sites) {
        return out.push_str("bad\n");
    }
    *store = Store::new(alloc, sites);
    writeln!(out, "sites {sites}")
}

fn reserve(store: &mut Counters, words: &str, out: &mut String) -> Result<(), AllocError> {
    let (parts, updates) = split(words);
    let parts = parts.parse::<usize>().unwrap_or(0);
    let updates = updates.parse::<usize>().unwrap_or(0);
    if store.reserve(parts, updates).is_err() {
        return out.push_str("no room\n");
    }
    let parts = store.room();
    let updates = store.update_room();
    writeln!(out, "room {parts} {updates}")
}

/// The part that the words tell.
fn part_of(alloc: Global, sites: u8, words: &str) -> Result<Option<Part<i64>>, AllocError> {
    let (tx, words) = split(words);
    let (c, words) = split(words);
    let Some(tx) = transaction(tx) else {
        return Ok(None);
    };
    let Some(c) = vector(sites, c) else {
        return Ok(None);
    };
    let Some(updates) = updates_of(alloc, words)? else {
        return Ok(None);
    };
    let updates = UpdateList::new(alloc, updates)?;
    Ok(Some(Part { tx, c, updates }))
}

fn insert(
    alloc: Global,
    store: &mut Counters,
    words: &str,
    out: &mut String,
) -> Result<(), AllocError> {
    let Some(part) = part_of(alloc, store.sites(), words)? else {
        return out.push_str("bad\n");
    };
    if !offer(store, part) {
        return out.push_str("refused\n");
    }
    let parts = store.room();
    let updates = store.update_room();
    writeln!(out, "taken, room {parts} {updates}")
}

fn has(store: &Counters, words: &str, out: &mut String) -> Result<(), AllocError> {
    let Some(tx) = transaction(words) else {
        return out.push_str("bad\n");
    };
    match store.has(tx) {
        Some(c) => put_vector(out, &c)?,
        None => out.push_str("none")?,
    }
    out.push_str("\n")
}

fn value(
    alloc: Global,
    store: &mut Counters,
    words: &str,
    out: &mut String,
) -> Result<(), AllocError> {
    let (key, v) = split(words);
    let Some(v) = vector(store.sites(), v) else {
        return out.push_str("bad\n");
    };
    let Some(object) = counter(alloc, key)? else {
        return out.push_str("bad\n");
    };
    match store.value(alloc, &object, &v)? {
        Value::Int(n) => writeln!(out, "{n}"),
        _ => out.push_str("no number\n"),
    }
}

fn state(
    alloc: Global,
    store: &mut Counters,
    words: &str,
    out: &mut String,
) -> Result<(), AllocError> {
    let (key, v) = split(words);
    let Some(v) = vector(store.sites(), v) else {
        return out.push_str("bad\n");
    };
    let Some(object) = counter(alloc, key)? else {
        return out.push_str("bad\n");
    };
    let sum = store.state(alloc, &object, &v)?;
    writeln!(out, "{sum}")
}

fn put_update(out: &mut String, part: &Part<i64>, update: &Upd<i64>) -> Result<(), AllocError> {
    put_tx(out, part.tx)?;
    let index = update.index;
    let amount = update.effect;
    write!(out, ".{index}+{amount}")
}

fn of_object(
    alloc: Global,
    store: &Counters,
    words: &str,
    out: &mut String,
) -> Result<(), AllocError> {
    let Some(object) = counter(alloc, words)? else {
        return out.push_str("bad\n");
    };
    out.push_str("updates")?;
    for (part, update) in store.of_object(&object) {
        put_update(out, part, update)?;
    }
    out.push_str("\n")
}

fn outside(
    alloc: Global,
    store: &Counters,
    words: &str,
    out: &mut String,
) -> Result<(), AllocError> {
    let (key, v) = split(words);
    let Some(v) = vector(store.sites(), v) else {
        return out.push_str("bad\n");
    };
    let Some(object) = counter(alloc, key)? else {
        return out.push_str("bad\n");
    };
    out.push_str("updates")?;
    for (part, update) in store.outside(&object, &v) {
        put_update(out, part, update)?;
    }
    out.push_str("\n")
}

fn between(store: &Counters, words: &str, out: &mut String) -> Result<(), AllocError> {
    let (site, words) = split(words);
    let (lo, hi) = split(words);
    let site = site.parse::<u8>().unwrap_or(0);
    if site == 0 || site > store.sites() {
        return out.push_str("bad\n");
    }
    let lo = lo.parse::<u64>().unwrap_or(0);
    let hi = hi.parse::<u64>().unwrap_or(0);
    out.push_str("parts")?;
    for part in store.between(site, lo, hi) {
        put_tx(out, part.tx)?;
    }
    out.push_str("\n")
}

/// Adds what a line answers. A line that begins with `#` is repeated.
fn answer(
    alloc: Global,
    store: &mut Counters,
    line: &str,
    out: &mut String,
) -> Result<(), AllocError> {
    let (word, words) = split(line);
    match word {
        "#" => writeln!(out, "{line}"),
        "sites" => start(alloc, store, words, out),
        "reserve" => reserve(store, words, out),
        "part" => insert(alloc, store, words, out),
        "has" => has(store, words, out),
        "value" => value(alloc, store, words, out),
        "state" => state(alloc, store, words, out),
        "of" => of_object(alloc, store, words, out),
        "outside" => outside(alloc, store, words, out),
        "between" => between(store, words, out),
        _ => out.push_str("bad\n"),
    }
}

/// What the lines answer.
pub(crate) fn run(alloc: Global, text: &str) -> Result<String, AllocError> {
    let mut out = String::new(alloc);
    let mut store = Store::new(alloc, 1);
    for line in text.lines() {
        answer(alloc, &mut store, line, &mut out)?;
    }
    Ok(out)
}
