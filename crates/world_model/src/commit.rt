use site_vector::VTime;

/// The next step of a commit: a call of the partition with this number at the transaction's site.
#[derive(Clone, Copy, Debug)]
pub enum What {
    /// Ask for a vote.
    Prepare(u8),
    /// Ask the lead to decide, with the commit vector.
    Decide(u8, VTime),
    /// Ask another participant to finish, with the commit vector.
    Finish(u8, VTime),
    /// Ask a participant that voted to abort.
    Abort(u8),
    /// Nothing is left to do.
    Done,
}

/// What follows the answer to a step of a commit.
#[derive(Clone, Copy, Debug)]
pub enum Next {
    /// The command goes on with the next step.
    Go,
    /// The command ends, and the next one makes the same step.
    Stay,
}
