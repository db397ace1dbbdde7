ghost use Rattle.std.specs.Prelude.{◌≡◌, ◌≢◌, ◌<◌, Bool, true};
ghost use Rattle.std.specs.Int.{bit_at};
ghost use Rattle.crdt_core.specs.Objects.{same_object};
ghost use Rattle.crdt_core.specs.Parts.{touches};
ghost use Rattle.prepared_table.specs.Digest.{hashed, bit_of, marked};

use crdt_core::{ObjectId, Upd};

/// The hash of some bytes, grown by more.
fn hash_on(hash: u32, bytes: &[u8]) -> u32
    ensures { result ≡ hashed hash bytes.now }
{
    let mut grown = hash;
    for byte in bytes {
        grown = ((grown as u64 + *byte as u64) * 16777619 % 4294967296) as u32;
    }
    grown
}

/// The bit that stands for an object, from 0 to 127.
pub(crate) fn bit_of(object: &ObjectId) -> u32
    ensures bit { result ≡ bit_of object.now }
    ensures most { result < 128 }
{
    let bucket = hash_on(2166136261, object.bucket.as_str().as_bytes());
    let whole = hash_on(bucket, object.key.as_str().as_bytes());
    whole / 33554432
}

/// The digest of some updates: the bits of their objects.
pub(crate) fn digest_of<E>(updates: &[Upd<E>]) -> u128
    ensures { result ≡ marked 0 updates.now }
{
    let mut digest = 0u128;
    for update in updates {
        digest |= 1u128 << bit_of(&update.object);
    }
    digest
}

/// Whether two objects are one.
fn same(o: &ObjectId, p: &ObjectId) -> bool
    ensures { result ≡ same_object o.now p.now }
{
    o.key == p.key && o.bucket == p.bucket && o.kind.code() == p.kind.code()
}

/// Whether one of these updates changes the object.
fn changes<E>(updates: &[Upd<E>], object: &ObjectId) -> bool
    ensures { result ≡ touches updates.now object.now }
{
    for update in updates {
        if same(&update.object, object) {
            return true;
        }
    }
    false
}

/// Whether one of these updates changes the object. Where the object's bit isn't in their digest, none is looked at.
pub(crate) fn touches<E>(updates: &[Upd<E>], digest: u128, object: &ObjectId, bit: u32) -> bool
    requires digest { digest ≡ marked 0 updates.now }
    requires bit { bit ≡ bit_of object.now }
    requires most { bit < 128 }
    ensures { result ≡ touches updates.now object.now }
{
    if (digest >> bit) & 1 == 0 {
        return false;
    }
    changes(updates, object)
}
