/// What a session is about.
#[derive(Clone, Copy, Debug, PartialEq, Eq)]
pub enum Phase {
    /// It has no transaction.
    Idle,
    /// It has begun one.
    Open,
    /// Its commit has begun, and is not decided.
    Committing,
    /// It is decided, and perhaps not finished everywhere.
    Finishing,
}
