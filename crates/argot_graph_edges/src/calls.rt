// Calls, and the parameters that handed values become.
ghost use Rattle.std.specs.Prelude.{◌≡◌, ◌<◌, ◌^◌, ℕ, List, Some, length, slice_get, IfSome, IsNone, true};
ghost use Rattle.argot_plain.specs.Code.{IsFunction, arguments, param_of, takes_reference};
ghost use Rattle.argot_plain.specs.WellFormed.{WellFormed};
ghost use Rattle.argot_plain.specs.declared.instructions.Callee.{Callee as Callees};
ghost use Rattle.argot_facts.specs.declared.nodes.Node.{Node as NodeValue};
ghost use Rattle.argot_graph_edges.specs.Rows.{IsCallAt, Becomes};

use argot_facts::Node;
use argot_plain::{Callee, Function, Kind, Program};
use argot_points_rules::{leaves_of, same_path};
use argot_text::{Path, PathStep};

/// A call: its place, whom it calls, its written arguments, and how many results stand before the handed values.
#[derive(Drop)]
pub(crate) struct Call<'a> {
    pub place: u32,
    pub callee: &'a Callee,
    pub args: &'a [u32],
    pub behind: usize,
}

impl<'a> Call<'a> {
    /// How many arguments there are: the box by which a method is called is the first.
    pub fn arguments(&self) -> usize
        ensures { result ≡ length (arguments self.now.callee.now self.now.args.now) }
    {
        match self.callee {
            Callee::Method(_, _) => self.args.len() + 1,
            _ => self.args.len(),
        }
    }

    /// Whether the target takes the reference by which it is called.
    fn is_taken_by(&self, target: &Function) -> bool
        ensures { result ≡ takes_reference self.now.callee.now target.now }
    {
        match self.callee {
            Callee::Value(_) => target.has_env,
            _ => false,
        }
    }
}

/// The call at a place, where there is one.
pub(crate) fn call_at(program: &Program, place: u32) -> Option<Call<'_>>
    ensures place { IfSome result (λ c. c.place ≡ place) }
    ensures found { IfSome result (λ c. IsCallAt program.now place c.callee.now c.args.now c.behind) }
    ensures only { IfSome result (λ c. (callee : Callees) (args : List ℕ) (n : ℕ) → IsCallAt program.now place callee args n → (callee ≡ c.callee.now) × (args ≡ c.args.now) × (n ≡ c.behind)) }
    ensures none { IsNone result → (callee : Callees) (args : List ℕ) (n : ℕ) → IsCallAt program.now place callee args n → ⊥ }
    ensures inside { IfSome result (λ c. place < length program.now.instrs) }
{
    if place as usize >= program.len() {
        return None;
    }
    match program.kind(place as usize) {
        Kind::Call { to, callee, args } => Some(Call {
            place,
            callee,
            args: args.as_slice(),
            behind: to.len(),
        }),
        Kind::Go { callee, args } | Kind::Defer { callee, args } => Some(Call {
            place,
            callee,
            args: args.as_slice(),
            behind: 0,
        }),
        _ => None,
    }
}

/// The parameter of a handed value, where there are so many arguments.
fn param_of(takes: bool, arguments: usize, index: u32) -> Option<usize>
    ensures { result ≡ param_of takes arguments index }
{
    let index = index as usize;
    if takes {
        return if index == arguments {
            Some(0)
        } else {
            Some(index + 1)
        };
    }
    if index < arguments { Some(index) } else { None }
}

/// The path of a leaf.
fn leaf_path(leaves: &[Path], leaf: usize) -> &Path
    requires { leaf < length leaves.now }
    ensures { slice_get leaves.now leaf ≡ Some result.now }
{
    &leaves[leaf]
}

/// Whether the leaf has the path.
fn is_leaf(leaves: &[Path], leaf: usize, path: &[PathStep]) -> bool
    requires { leaf < length leaves.now }
    ensures yes { result ≡ true → slice_get leaves.now leaf ≡ Some path.now }
    ensures no { slice_get leaves.now leaf ≡ Some path.now → result ≡ true }
{
    same_path(leaf_path(leaves, leaf).as_slice(), path)
}

/// The leaf with the path, which is often the one that is looked at first.
pub(crate) fn leaf_of(leaves: &[Path], first: u32, path: &[PathStep]) -> Option<u32>
    requires few { length leaves.now < 2 ^ 32 }
    ensures some { IfSome result (λ a. slice_get leaves.now a ≡ Some path.now) }
    ensures none { IsNone result → (a : ℕ) → slice_get leaves.now a ≡ Some path.now → ⊥ }
{
    if (first as usize) < leaves.len() && is_leaf(leaves, first as usize, path) {
        return Some(first);
    }
    for leaf in 0..leaves.len() {
        if is_leaf(leaves, leaf, path) {
            return Some(leaf as u32);
        }
    }
    None
}

/// The node that the handed value of this index becomes, at the leaf with the path, of a parameter of the function g.
pub(crate) fn parameter(
    program: &Program,
    call: &Call<'_>,
    g: u32,
    index: u32,
    first: u32,
    path: &[PathStep],
) -> Option<Node>
    requires call { IsCallAt program.now call.now.place call.now.callee.now call.now.args.now call.now.behind }
    requires inside { g < length program.now.functions }
    requires well { WellFormed program.now }
    ensures some { IfSome result (Becomes program.now call.now.place g index path.now) }
    ensures only { IfSome result (λ a. (b : NodeValue) → Becomes program.now call.now.place g index path.now b → b ≡ a) }
    ensures none { IsNone result → (b : NodeValue) → Becomes program.now call.now.place g index path.now b → ⊥ }
{
    let function = program.function(g as usize);
    let param = param_of(call.is_taken_by(function), call.arguments(), index)?;
    if param >= function.params as usize {
        return None;
    }
    let leaf = leaf_of(leaves_of(function, param as u32), first, path)?;
    Some(Node {
        place: function.entry,
        index: param as u32,
        leaf,
    })
}
