ghost use Rattle.std.specs.Prelude.{◌≡◌, ◌≤◌, ◌<◌};
ghost use Rattle.crdt_core.specs.Placing.{hashed, place_of};

use crate::ObjectId;

/// The partition of an object among `parts` of a site, from 1 to `parts`. Objects of one bucket and key lie in one
/// partition, whatever their kinds. Takes no memory. The only partition of a site needs no hash.
pub fn partition_of(object: &ObjectId, parts: u8) -> u8
    requires { 1 ≤ parts }
    ensures place { result ≡ place_of object.now.bucket object.now.key parts }
    ensures least { 1 ≤ result }
    ensures most { result ≤ parts }
{
    if parts == 1 {
        return 1;
    }
    let bucket = hash_on(7, object.bucket.as_str().as_bytes());
    let gap = hash_on(bucket, &[0]);
    let whole = hash_on(gap, object.key.as_str().as_bytes());
    1 + (whole % parts as u32) as u8
}

/// The hash grown by bytes.
fn hash_on(hash: u32, bytes: &[u8]) -> u32
    requires { hash < 65536 }
    ensures grown { result ≡ hashed hash bytes.now }
    ensures small { result < 65536 }
{
    let mut grown = hash;
    for byte in bytes {
        grown = (31 * grown + *byte as u32) % 65536;
    }
    grown
}
