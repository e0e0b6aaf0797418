// What the definitions of typing mean: laws, each the contract of a function without code.
ghost use Rattle.argot_check_typing.specs.Laws.{AllNamesMean, OneTyping, NoFactOnLoops, OneFirstNode};

/// Each predeclared name has a meaning.
pub fn all_names_mean()
    ensures { AllNamesMean }
{}

/// Two typings of a program say the same of each row.
pub fn one_typing()
    ensures { OneTyping }
{}

/// What has a fact doesn't depend on itself.
pub fn no_fact_on_loops()
    ensures { NoFactOnLoops }
{}

/// At most one node is the first with a fault.
pub fn one_first_node()
    ensures { OneFirstNode }
{}
