ghost use Rattle.world_model.specs.threads.Merged.{LawMerged};
ghost use Rattle.world_model.specs.threads.Grows.{LawGrows};
ghost use Rattle.world_model.specs.threads.GoesOn.{LawGoesOn};
ghost use Rattle.world_model.specs.threads.Joins.{LawJoins};
ghost use Rattle.world_model.specs.threads.OneCall.{LawCalls};

/// The law of threads: traces of partitions whose stamps rise, and whose every step was allowed by what its caller had seen,
/// merge by stamp and partition into a run of the world, in which each step stands after all that its caller had seen. So
/// `law_world` speaks of it.
pub fn law_merged<S, E>()
    ensures merged { LawMerged S E }
{}

/// What a pass has seen of traces are traces, and so are traces with one more step that its caller may make.
pub fn law_grows<S, E>()
    ensures grows { LawGrows S E }
{}

/// Every order in which each step stands after all that its caller had seen is a run of the world; one of what a pass has
/// seen goes on to one of all, with the rest on top, and by a step.
pub fn law_goes_on<S, E>()
    ensures goes_on { LawGoesOn S E }
{}

/// What two passes have seen is one view; what others did meanwhile bears none of a pass's numbers; and what may be asked by
/// what one pass has seen may be asked where more was seen.
pub fn law_joins<S, E>()
    ensures joins { LawJoins S E }
{}

/// No traces are traces; and after a call by a thread the traces with its step are traces, and the order that the thread's
/// pass had goes on to one with all that others did, and then this step.
pub fn law_calls<S, E>()
    ensures calls { LawCalls S E }
{}
