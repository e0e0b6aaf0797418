// What realizable lists join, and that traces are such lists.
ghost use Rattle.std.specs.Prelude.{ℕ, ◌↔◌, List};
ghost use Rattle.argot_facts.specs.Lists.{Joins};
ghost use Rattle.argot_facts.specs.Reached.{IsEdgeIn, Reaches};
ghost use Rattle.argot_facts.specs.Summed.{AreSummaries};
ghost use Rattle.argot_facts.specs.declared.findings.Hop.{Hop};
ghost use Rattle.argot_facts.specs.declared.graphs.Edge.{Edge};
ghost use Rattle.argot_facts.specs.declared.summaries.Same.{Same};
ghost use Rattle.argot_flow_laws.specs.Ranked.{DrawsTrace, HasRanks, EachUnfolds, EachHasTrace};

/// Along the edges of any list a realizable list joins two nodes exactly where one of the two ways reaches one from the
/// other.
pub fn lists_and_facts()
    ensures { (es : List Edge) (a b : ℕ) → Joins (IsEdgeIn es) a b ↔ Reaches (IsEdgeIn es) a b }
{}

/// The hops of a trace stand for a realizable list that joins its ends.
pub fn traces_are_realizable()
    ensures { (es : List Edge) (a b : ℕ) (t : List Hop) → DrawsTrace es a b t }
{}

/// Each fact unfolds to hops: there is a first use of a rule that gives it from facts of lower rank.
pub fn facts_unfold()
    ensures { (es : List Edge) (facts : List Same) → AreSummaries es facts → EachUnfolds es }
{}

/// Each node that is reached has a trace, where ranks are known.
pub fn reached_nodes_have_traces()
    ensures { (es : List Edge) (fs : List Same) (s : ℕ) → AreSummaries es fs → HasRanks es s → EachHasTrace es s }
{}
