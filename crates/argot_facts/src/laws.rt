// Laws: the lists of nodes and locations are those of a program, where references stand, and what exact tables have.
ghost use Rattle.argot_plain.specs.Code.{Code};
ghost use Rattle.argot_plain.specs.WellFormed.{WellFormed};
ghost use Rattle.std.specs.Prelude.{◌↔◌};
ghost use Rattle.argot_facts.specs.Exact.{AreLocations, ArePoints};
ghost use Rattle.argot_facts.specs.Graphs.{AreNodes};
ghost use Rattle.argot_facts.specs.Handed.{FactsOf};
ghost use Rattle.argot_facts.specs.Numbers.{nodes_of, locations_of};
ghost use Rattle.argot_facts.specs.Pointing.{Pointing};
ghost use Rattle.argot_facts.specs.Refers.{Fact, Holds};
ghost use Rattle.argot_facts.specs.Stands.{Stands};

/// `nodes_of` lists the nodes of a well-formed program in node order.
pub fn nodes_are_listed()
    ensures { (p : Code) → WellFormed p → AreNodes p (nodes_of p) }
{}

/// `locations_of` lists the locations of a program, each once.
pub fn locations_are_listed()
    ensures { (p : Code) → AreLocations p (locations_of p) }
{}

/// References stand at nodes alone, and what they lead to are locations.
pub fn references_stand_at_nodes()
    ensures { (p : Code) → WellFormed p → (f : Fact) → Holds p f → Stands p f }
{}

/// Exact tables of points-to have the program's own facts.
pub fn exact_tables_have_the_facts()
    ensures { (p : Code) (x : Pointing) → WellFormed p → ArePoints p x → (f : Fact) → FactsOf p x f ↔ Holds p f }
{}
