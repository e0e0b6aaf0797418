// The numbers of packages.
ghost use Rattle.std.specs.Prelude.{◌≡◌, ◌<◌, ◌^◌, ◌↔◌, ℕ, List, Some, length, slice_get, IfSome, IfNone};
ghost use Rattle.argot_names_rules.specs.declared.package_key.PackageKey.{PackageKey};
ghost use Rattle.argot_names_rules.specs.Lists.{In};
ghost use Rattle.argot_names_rules.specs.Files.{SourceFiles};
ghost use Rattle.argot_names_rules.specs.Packages.{IsFileOf, Finds};
ghost use Rattle.argot_names_rules.specs.Imports.{IsReached, IsReachedFile};
ghost use Rattle.argot_names_imports.specs.declared.written.Written.{Written};
ghost use Rattle.argot_names_imports.specs.Graph.{target_of};
ghost use Rattle.argot_names_imports.specs.Reached.{homes_of, IsReach};
ghost use Rattle.argot_names_imports.specs.Numbers.{IsTargetAt, IsOfNumber, IsFoundBy};

use crate::reached::Reached;
use crate::{Found, leader_at};
use indexmap::IndexSet;

// The place of a first file.
fn number_of(firsts: &IndexSet<u32>, first: u32) -> Option<u32>
    ensures some { IfSome result (λ k. slice_get firsts.now.keys k ≡ Some first) }
    ensures none { length firsts.now.keys < 2 ^ 32 → IfNone result (In first firsts.now.keys → ⊥) }
{
    match firsts.get_index_of(&first) {
        Some(index) => u32::try_from(index).ok(),
        None => None,
    }
}

/// The number of the package that the file belongs to, where it is reached. No memory.
pub fn package_of(reached: &Reached, file: u32) -> Option<u32>
    ensures some { (h : SourceFiles) (main : List ℕ) → IsReach h main reached.now → IfSome result (IsOfNumber h reached.now file) }
    ensures none { (h : SourceFiles) (main : List ℕ) → IsReach h main reached.now → IfNone result ((home : PackageKey) → IsReachedFile h main home file → ⊥) }
{
    match leader_at(&reached.survey.leaders, file) {
        Some(first) => number_of(&reached.survey.reached, first),
        None => None,
    }
}

// The first file of the package that is found, where it is handed over.
fn file_of(found: Found) -> Option<u32>
    ensures { result ≡ target_of found }
{
    match found {
        Found::Folder(file) => Some(file),
        Found::Library(file) => file,
        Found::LeftOut => None,
        Found::Nothing => None,
    }
}

// The first file of the package that an import finds.
fn target_at(founds: &[Found], import: usize) -> Option<u32>
    ensures { (t : ℕ) → result ≡ Some t ↔ IsTargetAt founds.now import t }
{
    match founds.get(import) {
        Some(found) => file_of(*found),
        None => None,
    }
}

/// The number of the package that an import of the survey finds, where that is one that is reached. No memory.
pub fn target_number(reached: &Reached, import: usize) -> Option<u32>
    ensures some { (h : SourceFiles) (main : List ℕ) → IsReach h main reached.now → IfSome result (IsFoundBy h reached.now import) }
    ensures none { (h : SourceFiles) (main : List ℕ) → IsReach h main reached.now → IfNone result ((is : Written) (home : PackageKey) → slice_get reached.now.survey.imports.items import ≡ Some is → Finds h is.path home → IsReached h main home → ⊥) }
{
    match target_at(&reached.survey.founds, import) {
        Some(first) => number_of(&reached.survey.reached, first),
        None => None,
    }
}
