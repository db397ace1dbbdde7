ghost use Rattle.world_model.specs.rules.World.{LawWorld};
ghost use Rattle.world_model.specs.rules.Premises.{LawPremises};
ghost use Rattle.world_model.specs.rules.Traces.{LawTraces};
ghost use Rattle.world_model.specs.rules.Asking.{LawAsks};
ghost use Rattle.world_model.specs.rules.Told.{LawTold};
ghost use Rattle.world_model.specs.commands.Order.{LawOrder};
ghost use Rattle.world_model.specs.lines.Ends.{LawBound};

/// The law of the world: any run of it is lawful, for any number of sites and partitions, whatever their kinds of objects
/// do (with states `S` and effects `E`), with any call cut off by a crash, and whatever a restart finds then. The function
/// does nothing: its contract is the law.
pub fn law_world<S, E>()
    ensures law { LawWorld S E }
{}

/// What the next call of a partition may rest on, in every run of the world: an id that its partition hasn't drawn is named
/// by no event, a transaction whose vote was never asked for stands in no record, and what a message brings is new.
pub fn law_premises<S, E>()
    ensures premises { LawPremises S E }
{}

/// Each partition of a run of the world has made its own events, each as a step of its own.
pub fn law_traces<S, E>()
    ensures traces { LawTraces S E }
{}

/// Whoever asks by the rule of sessions, messages and reports makes steps that the world allows.
pub fn law_asks<E>()
    ensures asks { LawAsks E }
{}

/// What a partition tells of a transaction of its site is what the lines of the run tell; where its lead tells an end, a
/// participant may come to the same end.
pub fn law_told<S, E>()
    ensures told { LawTold S E }
{}

/// Each command meets its refusals in the order of their numbers, as `docs/SCRIPT.md` lists them.
pub fn law_order()
    ensures order { LawOrder }
{}

/// The own bound in other words: the times up to it are those that the clock has reached and that are below the prepare
/// time of all that is pending. Each message of a lawful run ends there.
pub fn law_bound()
    ensures bound { LawBound }
{}
