ghost use Rattle.std.specs.Prelude.{◌≡◌, length, IfSome};

use crdt_core::{Kind, ObjectId, Part, Upd, UpdateList};
use crdt_counters::CounterPn;
use effect_store::Store;
use field_codec::Text;
use site_vector::{TxId, VTime};
use std::alloc::{AllocError, Global};

/// A counter of the only bucket.
pub(crate) fn counter(alloc: Global, key: &str) -> Result<Option<ObjectId>, AllocError> {
    let Some(bucket) = Text::of(alloc, "b")? else {
        return Ok(None);
    };
    let Some(key) = Text::of(alloc, key)? else {
        return Ok(None);
    };
    Ok(Some(ObjectId {
        bucket,
        key,
        kind: Kind::CounterPn,
    }))
}

/// The vector with these entries, between commas, if there is one for each site.
pub(crate) fn vector(sites: u8, text: &str) -> Option<VTime>
    ensures { IfSome result (λ v. length v ≡ sites) }
{
    if !(1..=8).contains(&sites) {
        return None;
    }
    let mut v = VTime::zero(sites);
    let mut site: u8 = 0;
    for word in text.split(',') {
        site = site.saturating_add(1);
        if site > v.width() {
            return None;
        }
        v = v.with(site, word.parse::<u64>().ok()?);
    }
    if site == sites && v.width() == sites {
        Some(v)
    } else {
        None
    }
}

/// A transaction of the first partition of a site, as `SITE#TIME`.
pub(crate) fn transaction(text: &str) -> Option<TxId> {
    let (site, time) = text.split_once('#')?;
    Some(TxId {
        site: site.parse::<u8>().ok()?,
        part: 1,
        time: time.parse::<u64>().ok()?,
    })
}

/// One update by an amount.
pub(crate) fn update(
    alloc: Global,
    key: &str,
    index: u16,
    amount: i64,
) -> Result<Option<Upd<i64>>, AllocError> {
    let Some(object) = counter(alloc, key)? else {
        return Ok(None);
    };
    Ok(Some(Upd {
        object,
        index,
        effect: amount,
    }))
}

/// Takes a part in, where the store has room for it and nothing of its transaction.
pub(crate) fn offer(store: &mut Store<CounterPn>, part: Part<i64>) -> bool {
    if store.room() == 0 || part.updates.as_slice().len() > store.update_room() {
        return false;
    }
    if store.holds(part.tx) || part.c.width() != store.sites() {
        return false;
    }
    store.insert(part);
    true
}

/// A part of one update.
pub(crate) fn single(
    alloc: Global,
    tx: TxId,
    c: VTime,
    key: &str,
    amount: i64,
) -> Result<Part<i64>, AllocError> {
    let mut updates = Vec::new(alloc);
    if let Some(update) = update(alloc, key, 1, amount)? {
        updates.push(update)?;
    }
    let updates = UpdateList::new(alloc, updates)?;
    Ok(Part { tx, c, updates })
}
