// The rules of each instruction.
ghost use Rattle.std.specs.Prelude.{◌≡◌, true, ◌+◌, ◌-◌, ◌<◌, ◌≤◌, ◌^◌, ◌++◌, ◌∷◌, [], Some, None, length, drop, slice_get, ◌==◌, if◌then◌else◌, OnOk, IfOk, IfErr};
ghost use Rattle.argot_plain.specs.Code.{found_by};
ghost use Rattle.argot_plain.specs.WellFormed.{WellFormed};
ghost use Rattle.argot_facts.specs.Numbers.{node, leaves_of, own_site, shape_at};
ghost use Rattle.argot_points_rules.specs.declared.rules.Rule.TheVariants.{Choose, Fresh};
ghost use Rattle.std.specs.List.Sorted.{IsNonDecreasingBy};
ghost use Rattle.argot_points_rules.specs.Stretches.{reached};
ghost use Rattle.argot_points_rules.specs.Column.{owned, join_copies, register_copies, item_copies, grow_rules, enter_leaves, is_value, enters, return_leaves, returns, fresh_of, fresh_from, reference, hand_rules, variable_rules, kind_rules, place_rules, function_rules, rules_of, definitions};

use crate::nodes::{handed_values, leaves_of, own_site, small};
use crate::parts::{push_move, push_part};
use crate::paths::copied;
use crate::reaching::definitions;
use crate::rules::{Owned, Rule};
use crate::sites::{end_of_sites, first_site};
use crate::stretches::{are_in_order, stretch_of};
use crate::values::{
    push_copies, push_keeps, push_loads, push_shifts, push_value_copies, push_value_loads,
    push_value_stores,
};
use argot_facts::Node;
use argot_plain::{Callee, Function, Kind, Program, Site};
use argot_text::{Memory, Path};
use std::alloc::Global;

/// Where rules are made: a place of a function, with the definitions that reach it, among others where they aren't in order.
#[derive(Drop)]
struct At<'a> {
    program: &'a Program,
    function: &'a Function,
    defs: &'a [(u32, u32, u32)],
    owner: u32,
    place: u32,
}

impl<'a> At<'a> {
    /// The definitions of a register that reach the place.
    fn definitions(&self, alloc: Global, register: u32) -> Result<Vec<(u32, u32)>, Memory>
        ensures { IfOk result (λ v. v.items ≡ definitions self.now.program.now self.now.function.now self.now.place register self.now.defs.now) }
    {
        definitions(
            alloc,
            self.program,
            self.function,
            self.defs,
            self.place,
            register,
        )
    }

    fn node(&self, index: u32, leaf: u32) -> Node
        ensures { result ≡ node self.now.place index leaf }
    {
        Node {
            place: self.place,
            index,
            leaf,
        }
    }
}

/// The node of the reference by which a call goes, where so many results stand before the handed values. Err is want of
/// memory, where a number doesn't fit.
pub fn reference(place: u32, callee: &Callee, args: &[u32], behind: u32) -> Result<Node, Memory>
    ensures node { IfOk result (λ n. n ≡ reference place callee.now args.now behind) }
    ensures large { IfErr result (λ e. 2 ^ 32 ≤ behind + length args.now) }
{
    let index = match callee {
        Callee::Static(_) => behind,
        Callee::Value(_) => small(behind as usize + small(args.len())? as usize)?,
        Callee::Method(_, _) => behind,
    };
    Ok(Node {
        place,
        index,
        leaf: 0,
    })
}

fn push_rule(rules: &mut Vec<Owned>, function: u32, rule: Rule) -> Result<(), Memory>
    ensures { OnOk result (rules.new.items ≡ rules.old.items ++ owned function rule ∷ []) }
{
    rules.push(Owned { function, rule })?;
    Ok(())
}

/// Each leaf of these registers, with their indices from `first` on.
fn push_registers(
    alloc: Global,
    rules: &mut Vec<Owned>,
    at: &At,
    first: u32,
    registers: &[u32],
) -> Result<(), Memory>
    requires { length registers.now < 2 ^ 62 }
    ensures { OnOk result (rules.new.items ≡ rules.old.items ++ register_copies at.now.program.now at.now.function.now at.now.defs.now at.now.owner at.now.place first registers.now) }
{
    for n in 0..registers.len() {
        let index = small(first as usize + n)?;
        let found = at.definitions(alloc, registers[n])?;
        push_value_copies(
            rules,
            at.owner,
            at.place,
            index,
            leaves_of(at.function, registers[n]),
            &found,
        )?;
    }
    Ok(())
}

/// Each element leaf of these items of a Grow.
fn push_items(
    alloc: Global,
    rules: &mut Vec<Owned>,
    at: &At,
    shape: &[Path],
    items: &[u32],
) -> Result<(), Memory>
    ensures { OnOk result (rules.new.items ≡ rules.old.items ++ item_copies at.now.program.now at.now.function.now at.now.defs.now at.now.owner at.now.place shape.now items.now) }
{
    for n in 0..items.len() {
        let found = at.definitions(alloc, items[n])?;
        push_value_copies(rules, at.owner, at.place, 1, shape, &found)?;
    }
    Ok(())
}

/// The parts of a value.
fn push_join(
    alloc: Global,
    rules: &mut Vec<Owned>,
    at: &At,
    to: &[Path],
    parts: &[(Path, u32)],
) -> Result<(), Memory>
    ensures { OnOk result (rules.new.items ≡ rules.old.items ++ join_copies at.now.program.now at.now.function.now at.now.defs.now at.now.owner at.now.place to.now parts.now) }
{
    for n in 0..parts.len() {
        let register = parts[n].1;
        let found = at.definitions(alloc, register)?;
        push_part(
            rules,
            at.owner,
            at.place,
            parts[n].0.as_slice(),
            &parts[n + 1..],
            to,
            leaves_of(at.function, register),
            &found,
        )?;
    }
    Ok(())
}

/// Each leaf of a handed value enters the targets.
fn push_enter_leaves(
    alloc: Global,
    rules: &mut Vec<Owned>,
    function: u32,
    place: u32,
    by: Node,
    behind: u32,
    index: u32,
    leaves: &[Path],
) -> Result<(), Memory>
    ensures { OnOk result (rules.new.items ≡ rules.old.items ++ enter_leaves function place by behind index 0 leaves.now) }
{
    for a in 0..leaves.len() {
        let source = Node {
            place,
            index: small(behind as usize + index as usize)?,
            leaf: small(a)?,
        };
        let path = copied(alloc, leaves[a].as_slice())?;
        push_rule(
            rules,
            function,
            Rule::Enter {
                place,
                by,
                index,
                path,
                source,
            },
        )?;
    }
    Ok(())
}

/// The index of the handed value by which the callee is found.
fn found_by(callee: &Callee, args: &[u32]) -> Option<usize>
    ensures { result ≡ found_by callee.now args.now }
{
    match callee {
        Callee::Static(_) => None,
        Callee::Value(_) => Some(args.len()),
        Callee::Method(_, _) => Some(0),
    }
}

/// Whether this is the handed value of an index.
fn is_value(found: Option<usize>, index: usize) -> bool
    ensures { result ≡ is_value found index }
{
    match found {
        Some(c) => c == index,
        None => false,
    }
}

/// A handed value enters the targets: where the callee is found by it, each target gets what selects it.
fn push_enter(
    alloc: Global,
    rules: &mut Vec<Owned>,
    at: &At,
    by: Node,
    behind: u32,
    found: Option<usize>,
    index: u32,
    register: u32,
) -> Result<(), Memory>
    ensures { OnOk result (rules.new.items ≡ rules.old.items ++ (if is_value found index then owned at.now.owner (Choose at.now.place by index) ∷ [] else enter_leaves at.now.owner at.now.place by behind index 0 (leaves_of at.now.function.now register))) }
{
    if is_value(found, index as usize) {
        return push_rule(
            rules,
            at.owner,
            Rule::Choose {
                place: at.place,
                by,
                index,
            },
        );
    }
    push_enter_leaves(
        alloc,
        rules,
        at.owner,
        at.place,
        by,
        behind,
        index,
        leaves_of(at.function, register),
    )
}

/// The handed values enter the targets.
fn push_enters(
    alloc: Global,
    rules: &mut Vec<Owned>,
    at: &At,
    by: Node,
    behind: u32,
    found: Option<usize>,
    values: &[u32],
) -> Result<(), Memory>
    ensures { OnOk result (rules.new.items ≡ rules.old.items ++ enters at.now.function.now at.now.owner at.now.place by behind found 0 values.now) }
{
    for k in 0..values.len() {
        push_enter(alloc, rules, at, by, behind, found, small(k)?, values[k])?;
    }
    Ok(())
}

/// Each leaf of a result gets what the targets hand back.
fn push_return_leaves(
    alloc: Global,
    rules: &mut Vec<Owned>,
    function: u32,
    place: u32,
    by: Node,
    index: u32,
    leaves: &[Path],
) -> Result<(), Memory>
    ensures { OnOk result (rules.new.items ≡ rules.old.items ++ return_leaves function place by index 0 leaves.now) }
{
    for a in 0..leaves.len() {
        let to = Node {
            place,
            index,
            leaf: small(a)?,
        };
        let path = copied(alloc, leaves[a].as_slice())?;
        push_rule(
            rules,
            function,
            Rule::Return {
                place,
                by,
                index,
                path,
                to,
            },
        )?;
    }
    Ok(())
}

/// The results get what the targets hand back.
fn push_returns(
    alloc: Global,
    rules: &mut Vec<Owned>,
    at: &At,
    by: Node,
    results: &[u32],
) -> Result<(), Memory>
    ensures { OnOk result (rules.new.items ≡ rules.old.items ++ returns at.now.function.now at.now.owner at.now.place by 0 results.now) }
{
    for k in 0..results.len() {
        push_return_leaves(
            alloc,
            rules,
            at.owner,
            at.place,
            by,
            small(k)?,
            leaves_of(at.function, results[k]),
        )?;
    }
    Ok(())
}

/// What an external hands back is of the site, if that is one of the call.
fn push_fresh_at(
    rules: &mut Vec<Owned>,
    at: &At,
    by: Node,
    number: usize,
    site: &Site,
) -> Result<(), Memory>
    ensures { OnOk result (rules.new.items ≡ rules.old.items ++ (if site.now.place == at.now.place then owned at.now.owner (Fresh at.now.place by (node at.now.place site.now.result site.now.leaf) number) ∷ [] else [])) }
{
    if site.place != at.place {
        return Ok(());
    }
    let to = at.node(site.result, site.leaf);
    let site = small(number)?;
    push_rule(
        rules,
        at.owner,
        Rule::Fresh {
            place: at.place,
            by,
            to,
            site,
        },
    )
}

/// What an external hands back is of the sites of the call.
fn push_fresh(rules: &mut Vec<Owned>, at: &At, by: Node) -> Result<(), Memory>
    ensures { OnOk result (rules.new.items ≡ rules.old.items ++ fresh_of at.now.program.now at.now.owner at.now.place by) }
{
    let first = first_site(at.program, at.place);
    let end = end_of_sites(at.program, first, at.place);
    for s in first..end {
        push_fresh_at(rules, at, by, s, at.program.site(s))?;
    }
    Ok(())
}

/// What a call hands on, whom it calls, and what becomes of the handed values.
fn push_hands(
    alloc: Global,
    rules: &mut Vec<Owned>,
    at: &At,
    by: Node,
    behind: u32,
    callee: &Callee,
    args: &[u32],
) -> Result<(), Memory>
    ensures { OnOk result (rules.new.items ≡ rules.old.items ++ hand_rules at.now.program.now at.now.function.now at.now.defs.now at.now.owner at.now.place by behind callee.now args.now) }
{
    let values = handed_values(alloc, callee, args)?;
    push_registers(alloc, rules, at, behind, &values)?;
    push_rule(
        rules,
        at.owner,
        Rule::Aim {
            place: at.place,
            by,
        },
    )?;
    push_enters(
        alloc,
        rules,
        at,
        by,
        behind,
        found_by(callee, args),
        &values,
    )
}

/// A Grow: the old slice and the own site, the elements that it copies, and all that is put.
fn push_grow(
    alloc: Global,
    rules: &mut Vec<Owned>,
    at: &At,
    source: u32,
    items: &[u32],
) -> Result<(), Memory>
    ensures { OnOk result (rules.new.items ≡ rules.old.items ++ grow_rules at.now.program.now at.now.function.now at.now.defs.now at.now.owner at.now.place source items.now (own_site at.now.program.now at.now.place)) }
{
    match own_site(at.program, at.place) {
        Some(site) => push_grow_at(alloc, rules, at, source, items, site),
        None => Ok(()),
    }
}

/// A Grow with this site of its own.
fn push_grow_at(
    alloc: Global,
    rules: &mut Vec<Owned>,
    at: &At,
    source: u32,
    items: &[u32],
    site: usize,
) -> Result<(), Memory>
    ensures { OnOk result (rules.new.items ≡ rules.old.items ++ grow_rules at.now.program.now at.now.function.now at.now.defs.now at.now.owner at.now.place source items.now (Some site)) }
{
    let shape = shape_of(at.program, site);
    let found = at.definitions(alloc, source)?;
    let to = at.node(0, 0);
    push_copies(rules, at.owner, to, 0, &found)?;
    push_rule(
        rules,
        at.owner,
        Rule::Put {
            to,
            site: small(site)?,
        },
    )?;
    push_value_loads(alloc, rules, at.owner, at.place, 2, shape, &found)?;
    push_value_copies(rules, at.owner, at.place, 1, shape, &[(at.place, 2)])?;
    push_items(alloc, rules, at, shape, items)?;
    push_value_stores(alloc, rules, at.owner, at.place, 1, shape, &[(at.place, 0)])
}

/// The leaf paths of the site's objects.
fn shape_of(program: &Program, site: usize) -> &[Path]
    ensures { result.now ≡ shape_at program.now (Some site) }
{
    if site < program.site_count() {
        program.site(site).shape.as_slice()
    } else {
        &[]
    }
}

/// A reference to a package variable.
fn push_variable(rules: &mut Vec<Owned>, at: &At, variable: u32) -> Result<(), Memory>
    ensures { OnOk result (rules.new.items ≡ rules.old.items ++ variable_rules at.now.owner at.now.place (slice_get at.now.program.now.globals variable)) }
{
    let to = at.node(0, 0);
    match at.program.globals().get(variable as usize) {
        Some(x) => push_rule(rules, at.owner, Rule::Put { to, site: x.2 }),
        None => Ok(()),
    }
}

/// What the instruction of the place asks.
fn push_kind(alloc: Global, rules: &mut Vec<Owned>, at: &At, kind: &Kind) -> Result<(), Memory>
    ensures { OnOk result (rules.new.items ≡ rules.old.items ++ kind_rules at.now.program.now at.now.function.now at.now.defs.now at.now.owner at.now.place kind.now) }
{
    match kind {
        Kind::Move { to, from, path } => {
            let found = at.definitions(alloc, *from)?;
            push_move(
                rules,
                at.owner,
                at.place,
                path.as_slice(),
                leaves_of(at.function, *to),
                leaves_of(at.function, *from),
                &found,
            )
        }
        Kind::Join { to, parts } => push_join(
            alloc,
            rules,
            at,
            leaves_of(at.function, *to),
            parts.as_slice(),
        ),
        Kind::New { site, .. } => {
            let to = at.node(0, 0);
            push_rule(rules, at.owner, Rule::Put { to, site: *site })
        }
        Kind::Step { from, path, .. } => {
            let found = at.definitions(alloc, *from)?;
            push_shifts(
                alloc,
                rules,
                at.owner,
                at.node(0, 0),
                path.as_slice(),
                &found,
            )
        }
        Kind::Read {
            at: source,
            leaves,
            ..
        } => {
            let found = at.definitions(alloc, *source)?;
            push_value_loads(
                alloc,
                rules,
                at.owner,
                at.place,
                0,
                leaves.as_slice(),
                &found,
            )
        }
        Kind::Write { at: target, from } => {
            let found = at.definitions(alloc, *target)?;
            push_registers(alloc, rules, at, 0, &[*from])?;
            push_value_stores(
                alloc,
                rules,
                at.owner,
                at.place,
                0,
                leaves_of(at.function, *from),
                &found,
            )
        }
        Kind::Grow {
            at: source,
            items,
            ..
        } => push_grow(alloc, rules, at, *source, items.as_slice()),
        Kind::Global { global, .. } => push_variable(rules, at, *global),
        Kind::Assert { from, target, .. } => {
            let found = at.definitions(alloc, *from)?;
            push_keeps(rules, at.owner, at.node(0, 0), *target, &found)
        }
        Kind::Call { to, callee, args } => {
            let behind = small(to.len())?;
            let by = reference(at.place, callee, args.as_slice(), behind)?;
            push_hands(alloc, rules, at, by, behind, callee, args.as_slice())?;
            push_returns(alloc, rules, at, by, to.as_slice())?;
            push_fresh(rules, at, by)
        }
        Kind::Go { callee, args } => {
            let by = reference(at.place, callee, args.as_slice(), 0)?;
            push_hands(alloc, rules, at, by, 0, callee, args.as_slice())
        }
        Kind::Defer { callee, args } => {
            let by = reference(at.place, callee, args.as_slice(), 0)?;
            push_hands(alloc, rules, at, by, 0, callee, args.as_slice())
        }
        Kind::Leave { from } => push_registers(alloc, rules, at, 0, from.as_slice()),
        Kind::Passed { to, .. } => push_registers(alloc, rules, at, 0, &[*to]),
        Kind::Op { .. } => Ok(()),
        Kind::RunDefers => Ok(()),
        Kind::Goto { .. } => Ok(()),
        Kind::Branch { .. } => Ok(()),
        Kind::Panic { .. } => Ok(()),
    }
}

/// The rules of the places of a function.
fn push_function(
    alloc: Global,
    rules: &mut Vec<Owned>,
    program: &Program,
    function: &Function,
    defs: &[(u32, u32, u32)],
    in_order: bool,
    owner: u32,
) -> Result<(), Memory>
    requires order { in_order ≡ true → IsNonDecreasingBy reached defs.now }
    requires inside { (function.now.entry ≤ function.now.leave) × (function.now.leave < length program.now.instrs) }
    requires well { WellFormed program.now }
    ensures { OnOk result (rules.new.items ≡ rules.old.items ++ place_rules program.now function.now defs.now owner function.now.entry (function.now.leave + 1 - function.now.entry)) }
{
    let end = function.leave + 1;
    for place in function.entry..end {
        let at = At {
            program,
            function,
            defs: stretch_of(defs, in_order, place),
            owner,
            place,
        };
        push_kind(alloc, rules, &at, program.kind(place as usize))?;
    }
    Ok(())
}

/// The rules of all instructions, with the definitions that reach their places. Where the definitions are in the order of
/// places, those of a place are found by search; else each is looked at for each register that a place reads.
pub fn rules_of(
    alloc: Global,
    program: &Program,
    defs: &[(u32, u32, u32)],
) -> Result<Vec<Owned>, Memory>
    ensures { IfOk result (λ v. v.items ≡ rules_of program.now defs.now) }
{
    let in_order = are_in_order(defs);
    let mut rules = Vec::new(alloc);
    for g in 0..program.function_count() {
        push_function(
            alloc,
            &mut rules,
            program,
            program.function(g),
            defs,
            in_order,
            small(g)?,
        )?;
    }
    Ok(rules)
}
