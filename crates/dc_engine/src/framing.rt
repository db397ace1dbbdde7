/// How the lines of a script are told apart, and the lines of the replies with them.
#[derive(Clone, Copy, Debug, PartialEq, Eq)]
pub enum Framing {
    /// Each line ends at a line feed, before which a carriage return counts nothing.
    Lines,
    /// Each line is a frame. One of the script is its length, as two bytes, the high one first, and that many bytes,
    /// in which a line feed ends nothing. One of the replies is its length, as four bytes, the highest first, and
    /// that many bytes.
    Frames,
}
