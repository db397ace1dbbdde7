ghost use Rattle.std.specs.Prelude.{◌≡◌};
ghost use Rattle.std.specs.Str.{bytes_eq};
ghost use Rattle.script_words.specs.Bare as bare;

/// Whether the byte may stand in a bare word: an ASCII letter or digit, `_`, `-` or `.`.
pub fn is_bare_byte(byte: u8) -> bool
    ensures { result ≡ bare.is_bare_byte byte }
{
    byte.is_ascii_alphanumeric() || byte == b'_' || byte == b'-' || byte == b'.'
}

/// Whether the text may stand without quotes: one or more bytes that may stand in a bare word.
pub fn is_bare(text: &[u8]) -> bool
    ensures { result ≡ bare.is_bare text.now }
{
    for byte in text {
        if !byte.is_ascii_lowercase() && !is_bare_byte(*byte) {
            return false;
        }
    }
    !text.is_empty()
}

/// Whether the bytes are the same. One after another, since names are short and mostly differ in their first byte.
#[tactic(auto, using(crate::proofs::Spelled::other_length, crate::proofs::Spelled::same_byte, crate::proofs::Spelled::other_byte))]
fn is_same(bytes: &[u8], name: &[u8]) -> bool
    ensures { result ≡ bytes_eq bytes.now name.now }
{
    if bytes.len() != name.len() {
        return false;
    }
    for (i, byte) in name.iter().enumerate() {
        if bytes[i] != *byte {
            return false;
        }
    }
    true
}

/// Whether the bytes are those of the name.
pub fn spells(bytes: &[u8], name: &str) -> bool
    ensures { result ≡ bytes_eq bytes.now name.now }
{
    is_same(bytes, name.as_bytes())
}
