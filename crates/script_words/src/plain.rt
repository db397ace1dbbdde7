ghost use Rattle.std.specs.Prelude.{◌≡◌};
ghost use Rattle.script_words.specs.Plain as plain;

/// Whether JSON writes all of the bytes as they are: none is a quote, a backslash or a control character. Most are above
/// the quote, and are told by two tests.
pub fn is_plain(bytes: &[u8]) -> bool
    ensures { result ≡ plain.is_plain bytes.now }
{
    for byte in bytes {
        if *byte <= b'"' {
            if *byte != b' ' && *byte != b'!' {
                return false;
            }
        } else if *byte == b'\\' {
            return false;
        }
    }
    true
}
