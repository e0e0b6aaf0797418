// The list of all nodes.
ghost use Rattle.std.specs.Prelude.{◌≡◌, ℕ, ◌+◌, ◌<◌, ◌≤◌, ◌^◌, ◌++◌, ◌∷◌, [], Some, ◌⊎◌, ◌-◌, map, length, OnOk, IfOk, IfErr};
ghost use Rattle.argot_plain.specs.Code.{node_registers, handed_values, IsAt, IsFunction};
ghost use Rattle.argot_plain.specs.WellFormed.{WellFormed};
ghost use Rattle.argot_plain.specs.declared.instructions.Kind.{Kind as Kinds};
ghost use Rattle.argot_facts.specs.Numbers.{leaf_nodes, index_nodes, place_nodes, place_leaves, kind_leaves, own_site, elements_at, leaves_of};
ghost use Rattle.argot_points_rules.specs.Listing.{ListsNodes, LacksNodes};
ghost use Rattle.argot_points_rules.specs.declared.rules.PointsFault.TheVariants.{Nodes, Memory as OutOfMemory};

use crate::rules::PointsFault;
use crate::sites::{end_of_sites, first_site};
use argot_facts::Node;
use argot_plain::{Callee, Function, Kind, Program};
use argot_text::{Memory, Path, Paths};
use std::alloc::Global;

/// The greatest number of nodes.
const MOST_NODES: usize = 262_144;

/// The leaf paths of a register of the function.
pub fn leaves_of<'a>(function: &'a Function, register: u32) -> &'a [Path]
    ensures { result.now ≡ leaves_of function.now register }
{
    let registers = function.registers.as_vec();
    if (register as usize) < registers.len() {
        registers[register as usize].as_slice()
    } else {
        &[]
    }
}

/// The handed values of a call.
pub(crate) fn handed_values(
    alloc: Global,
    callee: &Callee,
    args: &[u32],
) -> Result<Vec<u32>, Memory>
    ensures { IfOk result (λ v. v.items ≡ handed_values callee.now args.now) }
{
    match callee {
        Callee::Static(_) => Ok(args.to_vec(alloc)?),
        Callee::Value(register) => {
            let mut values = args.to_vec(alloc)?;
            values.push(*register)?;
            Ok(values)
        }
        Callee::Method(register, _) => {
            let mut values = vec![in alloc; *register]?;
            values.extend_from_slice(args)?;
            Ok(values)
        }
    }
}

/// The registers whose leaves are the nodes of an instruction, by index.
fn node_registers(alloc: Global, kind: &Kind) -> Result<Vec<u32>, Memory>
    ensures { IfOk result (λ v. v.items ≡ node_registers kind.now) }
{
    match kind {
        Kind::Write { from, .. } => Ok(vec![in alloc; *from]?),
        Kind::Call { to, callee, args } => {
            let mut registers = to.as_slice().to_vec(alloc)?;
            let values = handed_values(alloc, callee, args.as_slice())?;
            registers.extend_from_slice(&values)?;
            Ok(registers)
        }
        Kind::Go { callee, args } => handed_values(alloc, callee, args.as_slice()),
        Kind::Defer { callee, args } => handed_values(alloc, callee, args.as_slice()),
        Kind::Leave { from } => Ok(from.as_slice().to_vec(alloc)?),
        Kind::Op { to, .. } => Ok(vec![in alloc; *to]?),
        Kind::Move { to, .. } => Ok(vec![in alloc; *to]?),
        Kind::Join { to, .. } => Ok(vec![in alloc; *to]?),
        Kind::New { to, .. } => Ok(vec![in alloc; *to]?),
        Kind::Step { to, .. } => Ok(vec![in alloc; *to]?),
        Kind::Read { to, .. } => Ok(vec![in alloc; *to]?),
        Kind::Grow { to, .. } => Ok(vec![in alloc; *to]?),
        Kind::Global { to, .. } => Ok(vec![in alloc; *to]?),
        Kind::Assert { to, .. } => Ok(vec![in alloc; *to]?),
        Kind::Passed { to, .. } => Ok(vec![in alloc; *to]?),
        Kind::RunDefers => Ok(Vec::new(alloc)),
        Kind::Goto { .. } => Ok(Vec::new(alloc)),
        Kind::Branch { .. } => Ok(Vec::new(alloc)),
        Kind::Panic { .. } => Ok(Vec::new(alloc)),
    }
}

/// The number as one that fits a node; for more there is no memory anyway.
pub(crate) fn small(number: usize) -> Result<u32, Memory>
    ensures same { IfOk result (λ n. n ≡ number) }
    ensures large { IfErr result (λ e. 2 ^ 32 ≤ number) }
{
    if number > u32::MAX as usize {
        return Err(Memory);
    }
    Ok(number as u32)
}

/// Adds the nodes of so many leaves.
fn push_leaf_nodes(nodes: &mut Vec<Node>, place: u32, index: u32, leaves: u32) -> Result<(), Memory>
    ensures { OnOk result (nodes.new.items ≡ nodes.old.items ++ leaf_nodes place index 0 leaves) }
{
    for leaf in 0..leaves {
        nodes.push(Node { place, index, leaf })?;
    }
    Ok(())
}

/// Adds the nodes of these registers, by index.
fn push_register_nodes(
    nodes: &mut Vec<Node>,
    place: u32,
    function: &Function,
    registers: &[u32],
) -> Result<(), Memory>
    ensures { OnOk result (nodes.new.items ≡ nodes.old.items ++ index_nodes place 0 (map (leaves_of function.now) registers.now)) }
{
    for k in 0..registers.len() {
        push_leaf_nodes(
            nodes,
            place,
            small(k)?,
            small(leaves_of(function, registers[k]).len())?,
        )?;
    }
    Ok(())
}

/// Adds the nodes of the parameters.
fn push_parameter_nodes(
    nodes: &mut Vec<Node>,
    place: u32,
    parameters: &[Paths],
) -> Result<(), Memory>
    ensures { OnOk result (nodes.new.items ≡ nodes.old.items ++ index_nodes place 0 parameters.now) }
{
    for k in 0..parameters.len() {
        push_leaf_nodes(nodes, place, small(k)?, small(parameters[k].len())?)?;
    }
    Ok(())
}

/// The site of the instruction at the place, if it has one.
pub(crate) fn own_site(program: &Program, place: u32) -> Option<usize>
    ensures { result ≡ own_site program.now place }
{
    let first = first_site(program, place);
    let end = end_of_sites(program, first, place);
    if first < end { Some(first) } else { None }
}

/// How many leaves each element has of what the site of the place holds.
fn element_count(program: &Program, place: u32) -> usize
    ensures { result ≡ length (elements_at program.now (own_site program.now place)) }
{
    match own_site(program, place) {
        Some(n) => element_count_of(program, n),
        None => 0,
    }
}

fn element_count_of(program: &Program, n: usize) -> usize
    ensures { result ≡ length (elements_at program.now (Some n)) }
{
    if n < program.site_count() {
        program.site(n).shape.len()
    } else {
        0
    }
}

/// Adds the nodes of an instruction.
fn push_kind_nodes(
    alloc: Global,
    nodes: &mut Vec<Node>,
    program: &Program,
    function: &Function,
    place: u32,
    kind: &Kind,
) -> Result<(), Memory>
    ensures { OnOk result (nodes.new.items ≡ nodes.old.items ++ index_nodes place 0 (kind_leaves program.now function.now place (Some kind.now))) }
{
    if let Kind::Grow { to, .. } = kind {
        let elements = small(element_count(program, place))?;
        push_leaf_nodes(nodes, place, 0, small(leaves_of(function, *to).len())?)?;
        push_leaf_nodes(nodes, place, 1, elements)?;
        push_leaf_nodes(nodes, place, 2, elements)?;
        return Ok(());
    }
    let registers = node_registers(alloc, kind)?;
    push_register_nodes(nodes, place, function, &registers)
}

/// Adds the nodes of a place of the function.
fn push_place_nodes(
    alloc: Global,
    nodes: &mut Vec<Node>,
    program: &Program,
    function: &Function,
    place: u32,
) -> Result<(), Memory>
    requires place { place < length program.now.instrs }
    requires parameters { function.now.params ≤ length function.now.registers }
    ensures { OnOk result (nodes.new.items ≡ nodes.old.items ++ index_nodes place 0 (place_leaves program.now function.now place)) }
{
    if place == function.entry {
        let registers = function.registers.as_slice();
        return push_parameter_nodes(nodes, place, &registers[..function.params as usize]);
    }
    let kind = program.kind(place as usize);
    push_kind_nodes(alloc, nodes, program, function, place, kind)
}

/// Adds the nodes of a function, unless there are too many.
fn push_function_nodes(
    alloc: Global,
    nodes: &mut Vec<Node>,
    program: &Program,
    function: &Function,
) -> Result<(), PointsFault>
    requires well { WellFormed program.now }
    requires inside { (function.now.entry ≤ function.now.leave) × (function.now.leave < length program.now.instrs) }
    requires parameters { function.now.params ≤ length function.now.registers }
    requires few { length nodes.old.items ≤ 262144 }
    ensures nodes { OnOk result (nodes.new.items ≡ nodes.old.items ++ place_nodes program.now function.now function.now.entry (function.now.leave + 1 - function.now.entry)) }
    ensures few { OnOk result (length nodes.new.items ≤ 262144) }
    ensures many { IfErr result (λ e. e ≡ Nodes → 262144 < length (nodes.old.items ++ place_nodes program.now function.now function.now.entry (function.now.leave + 1 - function.now.entry))) }
    ensures only { IfErr result (λ e. (e ≡ Nodes) ⊎ (e ≡ OutOfMemory)) }
{
    let end = function.leave + 1;
    for place in function.entry..end {
        push_place_nodes(alloc, nodes, program, function, place)?;
        if nodes.len() > MOST_NODES {
            return Err(PointsFault::Nodes);
        }
    }
    Ok(())
}

/// All nodes of the program, in node order.
pub fn list_nodes(alloc: Global, program: &Program) -> Result<Vec<Node>, PointsFault>
    ensures nodes { IfOk result (λ v. ListsNodes program.now v.items) }
    ensures fault { IfErr result (LacksNodes program.now) }
{
    let mut nodes = Vec::new(alloc);
    for g in 0..program.function_count() {
        match push_function_nodes(alloc, &mut nodes, program, program.function(g)) {
            Ok(()) => {}
            Err(fault) => return Err(fault),
        }
    }
    Ok(nodes)
}
