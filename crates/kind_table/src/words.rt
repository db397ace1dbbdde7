// Words of a line, and bytes as words.
use crdt_core::Field;
use field_codec::{TakeError, Text};
use script_words::kind_named;
use std::alloc::{AllocError, Global};

/// The words of a piece of a line.
pub(crate) fn words_of(alloc: Global, piece: &[u8]) -> Result<Vec<&str>, AllocError> {
    let mut words = Vec::new(alloc);
    for word in str::from_utf8(piece).unwrap_or("").split_whitespace() {
        words.push(word)?;
    }
    Ok(words)
}

/// The number that the word is, or 0.
pub(crate) fn number_of(word: &str) -> u64 {
    word.parse::<u64>().unwrap_or(0)
}

/// A field, as `x:set_aw`.
pub(crate) fn field_of(alloc: Global, word: &str) -> Result<Option<Field>, AllocError> {
    let Some((name, kind)) = word.split_once(':') else {
        return Ok(None);
    };
    let Some(kind) = kind_named(kind.as_bytes()) else {
        return Ok(None);
    };
    match Text::of(alloc, name)? {
        Some(name) => Ok(Some(Field { name, kind })),
        None => Ok(None),
    }
}

/// The number that a hexadecimal digit stands for.
fn digit(byte: u8) -> Option<u8> {
    match byte {
        b'0'..=b'9' => Some(byte - b'0'),
        b'a'..=b'f' => Some(byte - b'a' + 10),
        _ => None,
    }
}

/// The bytes of these words, two hexadecimal digits each. What is no digit is left out.
pub(crate) fn bytes_of(alloc: Global, words: &[&str]) -> Result<Vec<u8>, AllocError> {
    let mut bytes = Vec::new(alloc);
    for word in words {
        push_bytes(&mut bytes, word.as_bytes())?;
    }
    Ok(bytes)
}

fn push_bytes(bytes: &mut Vec<u8>, digits: &[u8]) -> Result<(), AllocError> {
    let mut high = None;
    for low in digits.iter().filter_map(|byte| digit(*byte)) {
        match high {
            None => high = Some(low),
            Some(first) => {
                bytes.push((first << 4) | low)?;
                high = None;
            }
        }
    }
    Ok(())
}

/// Adds the bytes in hexadecimal.
pub(crate) fn put_hex(out: &mut String, bytes: &[u8]) -> Result<(), AllocError> {
    for byte in bytes {
        write!(out, "{byte:02x}")?;
    }
    Ok(())
}

/// Adds why a reading refused, in the words of its error.
pub(crate) fn put_refusal(out: &mut String, error: TakeError) -> Result<(), AllocError> {
    match error {
        TakeError::NoMemory => Err(AllocError),
        refused => write!(out, "{refused}"),
    }
}
