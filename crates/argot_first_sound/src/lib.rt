//! What the answer for a program of the first form means for its runs, whatever order they take: its code is a
//! well-formed program of plain code, its flows are exactly those of the whole relation, each leak of a run is a flow,
//! and so no run of a clean program leaks. The statements stand in `specs/Laws.antt` and `specs/Exact.antt`, over the
//! program of `specs/Whole.antt`, and are the contracts of functions that do nothing when they run. The program's clean
//! answer rests on `no_run_leaks`, its report on `reports_are_exact`.
#![tactic(auto)]

ghost use Rattle.argot_first_sound.specs.Exact.{ReportsAreExact};
ghost use Rattle.argot_first_sound.specs.Laws.{CleanMeansNoLeak, EachLeakIsAFlow, FlowsAreFlows, FlowsAreWholeFlows, IsWellFormed, NoRunLeaks};

/// A program of the first form is well formed.
pub fn is_well_formed()
    ensures { IsWellFormed }
{}

/// Each flow of the whole program is a flow of its code, and each flow of the code of a program of the first form is
/// one of the whole program.
pub fn flows_are_flows()
    ensures whole { FlowsAreFlows }
    ensures own { FlowsAreWholeFlows }
{}

/// The report of a program of the first form has exactly the flows of the whole relation, each once.
pub fn reports_are_exact()
    ensures { ReportsAreExact }
{}

/// Each leak of a run of a program of the first form is a flow.
pub fn each_leak_is_a_flow()
    ensures { EachLeakIsAFlow }
{}

/// Where nothing flows in a program of the first form, or its report has no flow, no run of it leaks.
pub fn no_run_leaks()
    ensures flowless { NoRunLeaks }
    ensures clean { CleanMeansNoLeak }
{}
