/// Where in a frame the bytes that were read end. Between lines there is no place but the first.
#[derive(Clone, Copy, Debug, PartialEq, Eq)]
pub(crate) enum Place {
    /// Before its head, the two bytes of its length.
    Start,
    /// Between these two bytes.
    InHead { high: u8 },
    /// Before the last byte of its body, with so many other bytes between.
    InBody { more: usize },
}

/// Where a line that was read up to a place goes on, among the bytes that come after it.
#[derive(Clone, Copy, Debug)]
pub(crate) enum Cut {
    /// It ends: so many of the bytes are the line's, and behind so many the next line begins.
    Ends { line: usize, next: usize },
    /// All of the bytes are the line's, and lead to this place.
    Leads { at: Place },
}
