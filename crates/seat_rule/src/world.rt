ghost use Rattle.seat_rule.specs.world.Laws.{LawSeats, LawSteps};

/// Traces of the world may be the law of a table: no traces are such, and parts of such traces are.
pub fn law_seats<S, E, T>()
    ensures seats { LawSeats S E T }
{}

/// Where a call by a pass is allowed by what the pass had seen, its step may be added; and the order that the pass had of
/// what it had seen goes on by what others did, who bear none of the pass's numbers, and then by this step.
pub fn law_steps<S, E, T>()
    ensures steps { LawSteps S E T }
{}
