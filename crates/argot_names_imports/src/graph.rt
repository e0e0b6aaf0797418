// The packages that each package imports, by the first file of each.
ghost use Rattle.std.specs.Prelude.{◌≡◌, ◌<◌, ◌^◌, ◌⊎◌, ◌↔◌, ℕ, Some, length, OnOk, IfOk, slice_get};
ghost use Rattle.argot_names_imports.specs.Graph.{target_of, Leads, IsStep};

use crate::find::Found;
use crate::founds::import_at;
use crate::written::Written;
use argot_links::Chains;
use argot_text::Memory;
use std::alloc::Global;

/// The first file of the package that is found, where it is handed over. No memory.
pub fn target_of(found: Found) -> Option<u32>
    ensures { result ≡ target_of found }
{
    match found {
        Found::Folder(file) => Some(file),
        Found::Library(file) => file,
        Found::LeftOut => None,
        Found::Nothing => None,
    }
}

// Adds an edge, where both ends are there.
fn link(graph: &mut Chains, from: Option<u32>, to: Option<u32>) -> Result<(), Memory>
    requires { (l : ℕ) → from ≡ Some l → l < length graph.old.lists }
    ensures count { length graph.new.lists ≡ length graph.old.lists }
    ensures kept { OnOk result ((l t : ℕ) → Leads graph.old.lists l t → Leads graph.new.lists l t) }
    ensures added { OnOk result ((l t : ℕ) → from ≡ Some l → to ≡ Some t → Leads graph.new.lists l t) }
    ensures only { OnOk result ((l t : ℕ) → Leads graph.new.lists l t → Leads graph.old.lists l t ⊎ ((from ≡ Some l) × (to ≡ Some t))) }
{
    let (Some(from), Some(to)) = (from, to) else {
        return Ok(());
    };
    if graph.len() >= u32::MAX - 1 {
        return Err(Memory);
    }
    graph.reserve(1)?;
    graph.push(from, to);
    Ok(())
}

/// What the import of this number finds. No memory.
pub fn found_at(founds: &[Found], k: usize) -> Found
    requires { k < length founds.now }
    ensures { slice_get founds.now k ≡ Some result }
{
    founds[k]
}

/// The first file of the package of this file. No memory.
pub fn leader_at(leaders: &[Option<u32>], file: u32) -> Option<u32>
    ensures { (l : ℕ) → result ≡ Some l ↔ slice_get leaders.now file ≡ Some (Some l) }
{
    match leaders.get(file as usize) {
        Some(leader) => *leader,
        None => None,
    }
}

/// The packages that each package imports.
pub fn graph_of(
    alloc: Global,
    leaders: &[Option<u32>],
    imports: &[Written],
    founds: &[Found],
) -> Result<Chains, Memory>
    requires as_many { length founds.now ≡ length imports.now }
    requires below { (file l : ℕ) → slice_get leaders.now file ≡ Some (Some l) → l < length leaders.now }
    ensures count { IfOk result (λ g. length g.lists ≡ length leaders.now) }
    ensures small { OnOk result (length leaders.now < 2 ^ 32) }
    ensures edges { IfOk result (λ g. (l t : ℕ) → Leads g.lists l t ↔ (k : ℕ) × IsStep leaders.now imports.now founds.now k l t) }
{
    let Ok(count) = u32::try_from(leaders.len()) else {
        return Err(Memory);
    };
    let mut graph = Chains::new(alloc, count)?;
    for k in 0..imports.len() {
        let from = leader_at(leaders, import_at(imports, k).file);
        link(&mut graph, from, target_of(found_at(founds, k)))?;
    }
    Ok(graph)
}
