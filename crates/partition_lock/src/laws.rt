ghost use Rattle.partition_lock.specs.Agrees.{LawAgrees, LawAgreed};

/// Two orders of what a pass has seen, in which each step stands after all that its caller had seen, show the calls of one
/// caller's number in the same order. The function does nothing: its contract is the law.
pub fn law_agrees<S, E>()
    ensures agrees { LawAgrees S E }
{}

/// All runs that a pass has seen show the same calls of one number, in one order. The function does nothing.
pub fn law_agreed<S, E>()
    ensures agreed { LawAgreed S E }
{}
