ghost use Rattle.std.specs.Prelude.{◌≡◌, ◌+◌, ◌<◌, ◌≤◌, length, take, drop, [], ◌∷◌, Some, None, IfSome, IfNone, option_map};
ghost use Rattle.script_text.specs.Split.{words, after, ends_word, outside, within, after_backslash};
ghost use Rattle.script_text.specs.Front.{word_end, IsTrimmed, where_of, spaces as spaces_of, after_space};
ghost use Rattle.script_text.specs.Grammar.{one, two};

/// Where a byte stands: outside of quotes, within them, or after a backslash within them.
#[derive(Clone, Copy, Debug)]
enum Place {
    Outside,
    Within,
    AfterBackslash,
}

/// Where the next byte stands.
fn after_byte(place: Place, byte: u8) -> Place
    ensures { where_of result ≡ after (where_of place) byte }
{
    match place {
        Place::Outside => {
            if byte == b'"' {
                Place::Within
            } else {
                Place::Outside
            }
        }
        Place::Within => {
            if byte == b'"' {
                Place::Outside
            } else if byte == b'\\' {
                Place::AfterBackslash
            } else {
                Place::Within
            }
        }
        Place::AfterBackslash => Place::Within,
    }
}

/// Whether the byte ends its word.
fn is_end(place: Place, byte: u8) -> bool
    ensures { result ≡ ends_word (where_of place) byte }
{
    match place {
        Place::Outside => byte == b' ',
        Place::Within => false,
        Place::AfterBackslash => false,
    }
}

/// The number of bytes of the word at the front, whatever stands in it.
#[inline(never)]
fn end_of_quoted(bytes: &[u8]) -> usize
    ensures at { result ≡ word_end outside bytes.now }
    ensures within { result ≤ length bytes.now }
{
    let mut place = Place::Outside;
    for (i, byte) in bytes.iter().enumerate() {
        if is_end(place, *byte) {
            return i;
        }
        place = after_byte(place, *byte);
    }
    bytes.len()
}

/// The number of bytes of the word at the front, where the first of them may end it.
fn end_of_rest(bytes: &[u8]) -> usize
    ensures at { result ≡ word_end outside bytes.now }
    ensures within { result ≤ length bytes.now }
{
    match bytes {
        [b' ', ..] => 0,
        _ => end_of_quoted(bytes),
    }
}

/// The number of bytes of the word at the front, one after another.
fn end_of_few(bytes: &[u8]) -> usize
    ensures at { result ≡ word_end outside bytes.now }
    ensures within { result ≤ length bytes.now }
{
    for (i, byte) in bytes.iter().enumerate() {
        if *byte <= b'"' {
            return i + end_of_rest(&bytes[i..]);
        }
    }
    bytes.len()
}

/// The number of bytes of the word at the front. Up to a quote only a space matters, and both stand below the letters and
/// digits: most bytes are tested once, four a turn. In one place, since its loop is short of registers where it is inlined.
#[inline(never)]
pub fn end_of_word(bytes: &[u8]) -> usize
    ensures at { result ≡ word_end outside bytes.now }
    ensures within { result ≤ length bytes.now }
{
    let mut rest = bytes;
    while let [a, b, c, d, after @ ..] = rest {
        if *a <= b'"' {
            return bytes.len() - rest.len() + end_of_rest(rest);
        }
        if *b <= b'"' {
            return bytes.len() - rest.len() + 1 + end_of_rest(&rest[1..]);
        }
        if *c <= b'"' {
            return bytes.len() - rest.len() + 2 + end_of_rest(&rest[2..]);
        }
        if *d <= b'"' {
            return bytes.len() - rest.len() + 3 + end_of_rest(&rest[3..]);
        }
        rest = after;
    }
    bytes.len() - rest.len() + end_of_few(rest)
}

/// The number of spaces at the front.
fn spaces(bytes: &[u8]) -> usize
    ensures { result ≡ spaces_of bytes.now }
{
    for (i, byte) in bytes.iter().enumerate() {
        if *byte != b' ' {
            return i;
        }
    }
    bytes.len()
}

/// What follows the one space at the front, where no other does.
#[tactic(auto, using(crate::proofs::Cuts::after_first))]
fn after_space(line: &str) -> Option<&str>
    ensures { IfSome result (λ r. after_space line.now ≡ Some r.now) }
{
    match line.as_bytes() {
        [b' ', second, ..] => {
            if *second == b' ' {
                return None;
            }
            Some(&line[1..])
        }
        _ => None,
    }
}

/// What follows the spaces at the front. Mostly there is one.
#[tactic(auto, using(crate::proofs::Fronts::words_trimmed, crate::proofs::Fronts::is_trimmed, crate::proofs::Fronts::words_single, crate::proofs::Fronts::is_single))]
pub fn trimmed(line: &str) -> &str
    ensures same { words result.now ≡ words line.now }
    ensures is { IsTrimmed result.now }
{
    match after_space(line) {
        Some(rest) => rest,
        None => line.split_at(spaces(line.as_bytes())).1,
    }
}

/// The word at the front, and what follows it.
#[tactic(auto, using(crate::specs::Front::words_front, crate::proofs::Cuts::at_end_of_word))]
fn first(line: &str) -> (&str, &str)
    requires trimmed { IsTrimmed line.now }
    requires some { 0 < length line.now }
    ensures { words line.now ≡ result.0.now ∷ words result.1.now }
{
    line.split_at(end_of_word(line.as_bytes()))
}

/// The first word, and what follows it.
pub fn next(line: &str) -> Option<(&str, &str)>
    ensures some { IfSome result (λ p. words line.now ≡ p.0.now ∷ words p.1.now) }
    ensures none { IfNone result (words line.now ≡ []) }
{
    let line = trimmed(line);
    if line.is_empty() {
        return None;
    }
    Some(first(line))
}

/// The one word, where there is no other.
pub fn only(line: &str) -> Option<&str>
    ensures { option_map (λ w. w.now) result ≡ one (words line.now) }
{
    let (first, rest) = next(line)?;
    match next(rest) {
        None => Some(first),
        Some(_) => None,
    }
}

/// The two words, where there is no other.
pub fn only_two(line: &str) -> Option<(&str, &str)>
    ensures { option_map (λ w. (w.0.now, w.1.now)) result ≡ two (words line.now) }
{
    let (first, rest) = next(line)?;
    let (second, rest) = next(rest)?;
    match next(rest) {
        None => Some((first, second)),
        Some(_) => None,
    }
}
