// Sites that escape at once: those of package variables, and those to which what a live Go hands on refers.
ghost use Rattle.std.specs.Prelude.{◌≡◌, ◌≤◌, ◌<◌, ℕ, Some, length, slice_get};
ghost use Rattle.argot_plain.specs.Lists.{In};
ghost use Rattle.argot_plain.specs.WellFormed.{WellFormed};
ghost use Rattle.argot_facts.specs.declared.nodes.Node.{Node as NodeValue};
ghost use Rattle.argot_escape.specs.Flooding.{Finds, IsReady, IsVariable, NodeLeadsTo, RowLeadsTo, GoLeadsTo, FunctionLeadsTo, FunctionsLeadTo};

use crate::found::{Found, reach, reach_row};
use argot_facts::{Node, Nodes, Points};
use argot_plain::{Kind, Program};

/// Where the nodes of a place begin, or of the first place behind it that has some.
pub(crate) fn first_of(nodes: &Nodes, place: u32) -> usize
    ensures inside { result ≤ length nodes.now }
    ensures before { (m : ℕ) (a : NodeValue) → slice_get nodes.now m ≡ Some a → m < result → a.place < place }
    ensures behind { (m : ℕ) (a : NodeValue) → slice_get nodes.now m ≡ Some a → result ≤ m → place ≤ a.place }
{
    nodes.first_from(Node {
        place,
        index: 0,
        leaf: 0,
    })
}

/// Finds the sites of package variables.
pub(crate) fn reach_variables(program: &Program, found: &mut Found)
    requires size { found.old.waiting.size ≡ length found.old.flags.items }
    requires inside { length program.now.globals ≤ length found.old.flags.items }
    requires well { WellFormed program.now }
    ensures { Finds (IsVariable program.now.globals) found.old found.new }
{
    let globals = program.globals();
    for k in 0..globals.len() {
        reach_variable(program, found, k);
    }
}

/// Finds the site of a package variable.
fn reach_variable(program: &Program, found: &mut Found, k: usize)
    requires size { found.old.waiting.size ≡ length found.old.flags.items }
    requires inside { length program.now.globals ≤ length found.old.flags.items }
    requires variable { k < length program.now.globals }
    requires well { WellFormed program.now }
    ensures { Finds (λ m. m ≡ k) found.old found.new }
{
    reach(found, program.globals()[k].2);
}

/// Finds the sites to which a node refers.
pub(crate) fn reach_node(points: &Points, found: &mut Found, n: u32)
    requires ready { IsReady points.now.locations found.old }
    requires inside { n < length points.now.nodes }
    ensures { Finds (RowLeadsTo points.now n) found.old found.new }
{
    reach_row(points, found, points.refers(n));
}

/// Finds the sites to which the nodes of a place refer.
fn reach_place(points: &Points, found: &mut Found, place: u32)
    requires ready { IsReady points.now.locations found.old }
    requires small { place < 4294967295 }
    ensures { Finds (NodeLeadsTo points.now place) found.old found.new }
{
    let nodes = points.nodes();
    let first = first_of(nodes, place);
    let last = first_of(nodes, place + 1);
    for n in first..last {
        reach_node(points, found, n as u32);
    }
}

/// Finds the sites to which a Go at the place hands on references.
fn reach_go(program: &Program, points: &Points, found: &mut Found, place: u32)
    requires ready { IsReady points.now.locations found.old }
    requires inside { place < length program.now.instrs }
    requires well { WellFormed program.now }
    ensures { Finds (GoLeadsTo program.now points.now place) found.old found.new }
{
    match program.kind(place as usize) {
        Kind::Go { .. } => reach_place(points, found, place),
        _ => {}
    }
}

/// Finds the sites to which the Gos of a function hand on references.
fn reach_function(program: &Program, points: &Points, found: &mut Found, g: u32)
    requires ready { IsReady points.now.locations found.old }
    requires inside { g < length program.now.functions }
    requires well { WellFormed program.now }
    ensures { Finds (FunctionLeadsTo program.now points.now g) found.old found.new }
{
    let function = program.function(g as usize);
    for place in function.entry..function.leave + 1 {
        reach_go(program, points, found, place);
    }
}

/// Finds the sites to which the Gos of live functions hand on references.
pub(crate) fn reach_functions(program: &Program, points: &Points, found: &mut Found)
    requires ready { IsReady points.now.locations found.old }
    requires inside { (g : ℕ) → In g points.now.live → g < length program.now.functions }
    requires well { WellFormed program.now }
    ensures { Finds (FunctionsLeadTo program.now points.now points.now.live) found.old found.new }
{
    let live = points.live();
    for g in live {
        reach_function(program, points, found, *g);
    }
}
