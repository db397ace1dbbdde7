ghost use Rattle.client_pool.specs.Summary.{ClosedForm, AllNames};

/// Whatever the order in which the updates of a storm's clients stand, the eight counters are what its words say. The
/// function does nothing: its contract is the law.
pub fn law_closed_form()
    ensures { ClosedForm }
{}

/// And so are the names of its clients. The function does nothing: its contract is the law.
pub fn law_names()
    ensures { AllNames }
{}
