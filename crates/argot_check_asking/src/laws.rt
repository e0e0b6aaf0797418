// What holds of rules that ask: laws, each the contract of a function without code.
ghost use Rattle.argot_check_asking.specs.Laws.{OneFact, MoreTellsMore, NoFactOnLoops, ClosedIsExact, SilentLacks};

/// The rules say at most one fact of a row.
pub fn one_fact<R, F>()
    ensures { OneFact R F }
{}

/// What a rule says stays where more is known.
pub fn more_tells_more<R, F>()
    ensures { MoreTellsMore R F }
{}

/// A row that has a fact needs itself by no chain.
pub fn no_fact_on_loops<R, F>()
    ensures { NoFactOnLoops R F }
{}

/// A table that grew by the rules, and to which no rule adds, is what they say.
pub fn closed_is_exact<R, F>()
    ensures { ClosedIsExact R F }
{}

/// A rule that says something in the end, and is silent so far, asks a row of which nothing is known.
pub fn silent_lacks<R, F>()
    ensures { SilentLacks R F }
{}
