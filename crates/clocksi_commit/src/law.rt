ghost use Rattle.clocksi_commit.specs.Law.{LawCommit};

/// The law of a commit, whatever answers its steps: the lead decides once all have voted, with the greatest vote; after that
/// nothing aborts, and before it nothing finishes; and at its end each participant that voted was answered for. The function
/// does nothing: its contract is the law.
#[tactic(auto, using(crate::proofs::Turns::law))]
pub fn law_commit()
    ensures law { LawCommit }
{}
