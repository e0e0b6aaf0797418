// The imports of a folder's files, and the packages that they lead to.
ghost use Rattle.std.specs.Prelude.{◌≡◌, ◌<◌, ℕ, List, Some, length, slice_get, IfOk, IfSome, IfNone};
ghost use Rattle.argot_names_rules.specs.Packages.{IsFolder};
ghost use Rattle.argot_names_imports.specs.declared.find.Found.{Found};
ghost use Rattle.argot_names_imports.specs.Firsts.{found_at};
ghost use Rattle.argot_names_imports.specs.Found.{HasTables};
ghost use Rattle.argot_names_imports.specs.Graph.{target_of, AreReached};
ghost use Rattle.argot_files.specs.Reading.{files_in};
ghost use Rattle.argot_names_imports.specs.Reads.{handed};
ghost use Rattle.argot_names_imports.specs.Surveyed.{IsSurvey};

use crate::all_written::all_imports;
use crate::find::Found;
use crate::firsts::{Sort, firsts_of};
use crate::founds::founds_of;
use crate::graph::graph_of;
use crate::leaders::leaders_of;
use crate::reaching::reach_from;
use crate::written::Written;
use argot_files::Files;
use argot_text::{Memory, Sources};
use argot_tree::{Lexed, Tree};
use indexmap::{IndexMap, IndexSet};
use std::alloc::Global;

/// The imports of all files, what each finds, the first file of each file's package, and the first files of the packages
/// that are reached.
#[derive(Drop)]
pub struct Survey {
    /// By file and node.
    pub imports: Vec<Written>,
    /// What each finds.
    pub founds: Vec<Found>,
    /// By file.
    pub leaders: Vec<Option<u32>>,
    /// The first file of the main package, and then those of the others.
    pub reached: IndexSet<u32>,
}

// What the packages that are found lead to from a first file.
fn packages_from(
    alloc: Global,
    start: u32,
    leaders: &[Option<u32>],
    imports: &[Written],
    founds: &[Found],
) -> Result<IndexSet<u32>, Memory>
    requires as_many { length founds.now ≡ length imports.now }
    requires below { (file l : ℕ) → slice_get leaders.now file ≡ Some (Some l) → l < length leaders.now }
    requires targets { (k : ℕ) (f : Found) (t : ℕ) → slice_get founds.now k ≡ Some f → target_of f ≡ Some t → t < length leaders.now }
    requires start { start < length leaders.now }
    ensures first { IfOk result (λ r. slice_get r.keys 0 ≡ Some start) }
    ensures all { IfOk result (λ r. AreReached leaders.now imports.now founds.now start r.keys) }
{
    let graph = graph_of(alloc, leaders, imports, founds)?;
    reach_from(alloc, &graph, start)
}

// The survey from the first file of the main package, by the tables of the first files.
fn surveyed(
    alloc: Global,
    folders: &IndexMap<&[u8], u32>,
    libraries: &IndexMap<&[u8], u32>,
    start: u32,
    files: &Files,
) -> Result<Survey, Memory>
    requires tables { HasTables (files_in files.now) files.now.sources.now.«module» folders.now libraries.now }
    requires start { (main : List ℕ) × (found_at folders.now main ≡ Some start) }
    ensures { (main : List ℕ) → found_at folders.now main ≡ Some start → IfOk result (IsSurvey (files_in files.now) main) }
{
    let imports = all_imports(alloc, files)?;
    let founds = founds_of(
        alloc,
        folders,
        libraries,
        files.sources.module.as_str().as_bytes(),
        &imports,
    )?;
    let leaders = leaders_of(alloc, folders, libraries, &files.sources.paths)?;
    let reached = packages_from(alloc, start, &leaders, &imports, &founds)?;
    Ok(Survey {
        imports,
        founds,
        leaders,
        reached,
    })
}

/// The survey from a main folder; none where it isn't there.
pub fn survey_from(alloc: Global, files: &Files, main: &str) -> Result<Option<Survey>, Memory>
    ensures there { IfOk result (λ o. IfSome o (IsSurvey (files_in files.now) main.now)) }
    ensures missing { IfOk result (λ o. IfNone o (IsFolder (files_in files.now) main.now → ⊥)) }
{
    let folders = firsts_of(alloc, Sort::Folders, &files.sources.paths)?;
    let libraries = firsts_of(alloc, Sort::Libraries, &files.sources.paths)?;
    let Some(start) = folders.get(main.as_bytes()).copied() else {
        return Ok(None);
    };
    let made = surveyed(alloc, &folders, &libraries, start, files)?;
    Ok(Some(made))
}
