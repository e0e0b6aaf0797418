// The first import on a cycle.
ghost use Rattle.std.specs.Prelude.{◌≡◌, ◌<◌, ◌^◌, ◌+◌, List, ℕ, true, length, IfSome, IfNone, IfOk};
ghost use Rattle.argot_names_rules.specs.Files.{SourceFiles, Place as Byte};
ghost use Rattle.argot_names_rules.specs.Faults.{IsOnCycle};
ghost use Rattle.argot_names_imports.specs.Surveyed.{IsSurvey};
ghost use Rattle.argot_names_imports.specs.Graph.{IsStep, Leads, Reaches};
ghost use Rattle.argot_names_packages.specs.Spots.{IsAt, IsLeast, IsBelow};
ghost use Rattle.argot_names_packages.specs.Cycles.{IsStepAt, IsCycleAt, IsCycleOf};
ghost use Rattle.argot_names_packages.specs.Ranks.{rank_of};

use crate::falling::{falling, rank_of};
use crate::ranks::ranks_of;
use crate::spot::{is_first, spot_at};
use crate::standing::{has, reached_leader};
use argot_files::Place;
use argot_links::Chains;
use argot_names_imports::{Survey, found_at, graph_of, import_at, reach_from, target_of};
use argot_text::Memory;
use argot_tree::Lexed;
use std::alloc::Global;

/// An import, by the first files of the package that it stands in and of the one that it finds.
#[derive(Clone, Copy)]
struct Step {
    from: u32,
    to: u32,
}

// An import of a package that is reached, where it finds one that is there.
fn step_at(survey: &Survey, k: usize) -> Option<Step>
    requires imports { k < length survey.now.imports.items }
    requires founds { k < length survey.now.founds.items }
    ensures some { IfSome result (λ s. IsStepAt survey.now k s.from s.to) }
    ensures none { IfNone result ((from to : ℕ) → IsStepAt survey.now k from to → ⊥) }
{
    let Some(to) = target_of(found_at(&survey.founds, k)) else {
        return None;
    };
    match reached_leader(survey, import_at(&survey.imports, k).file) {
        Some(from) => Some(Step { from, to }),
        None => None,
    }
}

// The graph leads from the one to the other.
fn leads_back(alloc: Global, graph: &Chains, from: u32, to: u32) -> Result<bool, Memory>
    requires small { length graph.now.lists < 2 ^ 32 }
    requires start { from < length graph.now.lists }
    requires below { (l t : ℕ) → Leads graph.now.lists l t → t < length graph.now.lists }
    ensures yes { IfOk result (λ b. b ≡ true → Reaches graph.now.lists from to) }
    ensures no { IfOk result (λ b. Reaches graph.now.lists from to → b ≡ true) }
{
    let reached = reach_from(alloc, graph, from)?;
    Ok(has(&reached, to))
}

/// Where a cycle is searched: the imports, the tokens of the files, the graph of packages, and ranks of packages.
#[derive(Clone, Copy)]
struct Search<'a> {
    survey: &'a Survey,
    lexed: &'a [Lexed],
    graph: &'a Chains,
    ranks: &'a [u32],
}

// The least place so far, or the next import's where that stands before it and is on a cycle. No import of a package with a
// rank is on one, so that it isn't tried.
fn next_cycle(
    alloc: Global,
    search: &Search,
    least: Option<Place>,
    k: usize,
) -> Result<Option<Place>, Memory>
    requires imports { k < length search.now.survey.now.imports.items }
    requires founds { k < length search.now.survey.now.founds.items }
    requires small { length search.now.graph.now.lists < 2 ^ 32 }
    requires targets { (from to : ℕ) → IsStepAt search.now.survey.now k from to
        → to < length search.now.graph.now.lists }
    requires below { (l t : ℕ) → Leads search.now.graph.now.lists l t → t < length search.now.graph.now.lists }
    requires ranked { (from to : ℕ) → IsStepAt search.now.survey.now k from to
        → 0 < rank_of search.now.ranks.now from → Reaches search.now.graph.now.lists to from → ⊥ }
    ensures { IsLeast (IsBelow (IsCycleOf search.now) k) least
        → IfOk result (IsLeast (IsBelow (IsCycleOf search.now) (k + 1))) }
{
    let Some(step) = step_at(search.survey, k) else {
        return Ok(least);
    };
    if rank_of(search.ranks, step.from) > 0 {
        return Ok(least);
    }
    let import = import_at(&search.survey.imports, k);
    let Some(spot) = spot_at(search.lexed, import.file, import.at) else {
        return Ok(least);
    };
    if !is_first(spot, least) {
        return Ok(least);
    }
    if leads_back(alloc, search.graph, step.to, step.from)? {
        Ok(Some(spot))
    } else {
        Ok(least)
    }
}

// The first import on a cycle, each import tried until one is found.
fn first_cycle(alloc: Global, search: &Search) -> Result<Option<Place>, Memory>
    requires as_many { length search.now.survey.now.founds.items ≡ length search.now.survey.now.imports.items }
    requires small { length search.now.graph.now.lists < 2 ^ 32 }
    requires targets { (k from to : ℕ) → IsStepAt search.now.survey.now k from to
        → to < length search.now.graph.now.lists }
    requires below { (l t : ℕ) → Leads search.now.graph.now.lists l t → t < length search.now.graph.now.lists }
    requires ranked { (k from to : ℕ) → IsStepAt search.now.survey.now k from to
        → 0 < rank_of search.now.ranks.now from → Reaches search.now.graph.now.lists to from → ⊥ }
    ensures { IfOk result (IsLeast (IsBelow (IsCycleOf search.now) (length search.now.survey.now.imports.items))) }
{
    let mut least = None;
    for k in 0..search.survey.imports.len() {
        least = next_cycle(alloc, search, least, k)?;
    }
    Ok(least)
}

/// The first import of a package that is reached whose package leads back to the one that imports it.
pub fn cycle(alloc: Global, survey: &Survey, lexed: &[Lexed]) -> Result<Option<Place>, Memory>
    requires { (h : SourceFiles) × (main : List ℕ) × IsSurvey h main survey.now }
    ensures { (h : SourceFiles) (main : List ℕ) → h.lexed ≡ lexed.now → IsSurvey h main survey.now
        → IfOk result (IsLeast (IsOnCycle h main)) }
{
    let Some(start) = survey.reached.get_index(0).copied() else {
        return Ok(None);
    };
    let Ok(count) = u32::try_from(survey.leaders.len()) else {
        return Err(Memory);
    };
    let graph = graph_of(alloc, &survey.leaders, &survey.imports, &survey.founds)?;
    let ranks = ranks_of(alloc, &graph, &survey.reached, start, count)?;
    let ranks = falling(&graph, &survey.reached, &ranks, count);
    let search = Search {
        survey,
        lexed,
        graph: &graph,
        ranks,
    };
    first_cycle(alloc, &search)
}
