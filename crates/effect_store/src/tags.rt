ghost use Rattle.std.specs.Prelude.{◌≡◌};
ghost use Rattle.effect_store.specs.Spots.{hashed, tag_of_object};

use crdt_core::ObjectId;

/// Goes on with a number over bytes.
fn fed(start: u64, bytes: &[u8]) -> u64
    ensures { result ≡ hashed start bytes.now }
{
    let mut number = start;
    for byte in bytes {
        number = number
            .wrapping_mul(1_000_003)
            .wrapping_add(u64::from(*byte));
    }
    number
}

/// A number that tells most objects apart. Those that it doesn't tell apart share a chain.
pub(crate) fn tag_of(object: &ObjectId) -> u64
    ensures { result ≡ tag_of_object object.now }
{
    let start = fed(object.kind.code() as u64, object.bucket.as_str().as_bytes());
    fed(start, object.key.as_str().as_bytes())
}
