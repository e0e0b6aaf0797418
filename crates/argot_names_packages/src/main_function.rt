// Whether the main folder has a package `main` with a function `main`.
ghost use Rattle.std.specs.Prelude.{◌≡◌, ◌<◌, ◌↔◌, List, ℕ, Some, true, false, option_map, slice_get, IsTrue, IfOk};
ghost use Rattle.argot_tree.specs.declared.token.Token.{Token};
ghost use Rattle.argot_tree.specs.declared.tree.Tree.{Tree};
ghost use Rattle.argot_tree.specs.Trees.{SpellsTree};
ghost use Rattle.argot_names_rules.specs.Files.{read_of};
ghost use Rattle.argot_names_rules.specs.Agreeing.{Agrees};
ghost use Rattle.argot_names_rules.specs.Faults.{HasMain};
ghost use Rattle.argot_files.specs.Reading.{files_in};
ghost use Rattle.argot_names_imports.specs.Reads.{handed};
ghost use Rattle.argot_names_imports.specs.Surveyed.{IsSurvey};
ghost use Rattle.argot_names_packages.specs.Standing.{IsLedBy};
ghost use Rattle.argot_names_packages.specs.Mains.{is_main_name, HasMainNode, HasMainFile};

use crate::clause::clause_name;
use crate::main_node::{is_main_at, is_main_text};
use crate::standing::reached_leader;
use argot_files::{File, Files};
use argot_names_imports::{Survey, bytes_at, tokens_at};
use argot_text::{Memory, Sources};
use argot_tree::{Lexed, Tree};
use std::alloc::Global;

// The file has a function `main`.
fn has_main_node(file: &File) -> bool
    ensures { IsTrue result ↔ HasMainNode file.now }
{
    for k in 0..file.len() {
        if is_main_at(file, k) {
            return true;
        }
    }
    false
}

// The tree of a file.
fn tree_at(trees: &[Tree], file: u32) -> Option<&Tree>
    ensures { option_map (λ t. t.now) result ≡ slice_get trees.now file }
{
    trees.get(file as usize)
}

// The file of this number has a function `main`.
fn file_has_main(alloc: Global, files: &Files, file: u32) -> Result<bool, Memory>
    requires { (tree : Tree) → slice_get files.now.trees.now file ≡ Some tree
        → (spelled : List Token) × SpellsTree tree spelled }
    ensures { IfOk result (λ b. b ≡ true ↔ HasMainNode (read_of (files_in files.now) file)) }
{
    match tree_at(files.trees, file) {
        Some(tree) => {
            let bytes = bytes_at(files.sources, file);
            let tokens = tokens_at(files.lexed, file);
            let read = File::new(alloc, bytes, tokens, tree)?;
            Ok(has_main_node(&read))
        }
        None => Ok(false),
    }
}

// The package of the file is reached, and has this first file.
fn is_led_by(survey: &Survey, file: u32, first: u32) -> bool
    ensures { result ≡ true ↔ IsLedBy survey.now file first }
{
    match reached_leader(survey, file) {
        Some(leader) => leader == first,
        None => false,
    }
}

// A file of the package with this first file has a function `main`.
fn has_main_file(alloc: Global, survey: &Survey, files: &Files, first: u32) -> Result<bool, Memory>
    requires { (file : ℕ) → IsLedBy survey.now file first → (tree : Tree)
        → slice_get files.now.trees.now file ≡ Some tree → (spelled : List Token) × SpellsTree tree spelled }
    ensures { IfOk result (λ b. b ≡ true ↔ HasMainFile survey.now (files_in files.now) first) }
{
    let Ok(count) = u32::try_from(survey.leaders.len()) else {
        return Err(Memory);
    };
    for file in 0..count {
        if is_led_by(survey, file, first) && file_has_main(alloc, files, file)? {
            return Ok(true);
        }
    }
    Ok(false)
}

// The name is `main`.
fn is_main_name(name: Option<&[u8]>) -> bool
    ensures { result ≡ is_main_name (option_map (λ r. r.now) name.entry) }
{
    match name {
        Some(name) => is_main_text(name),
        None => false,
    }
}

/// The main folder is a package `main` with a function `main`.
pub fn has_main(alloc: Global, survey: &Survey, files: &Files) -> Result<bool, Memory>
    requires agrees { Agrees (files_in files.now) }
    requires survey { (main : List ℕ) × IsSurvey (files_in files.now) main survey.now }
    ensures { (main : List ℕ) → IsSurvey (files_in files.now) main survey.now
        → IfOk result (λ b. b ≡ true ↔ HasMain (files_in files.now) main) }
{
    match survey.reached.get_index(0).copied() {
        Some(first) => {
            if is_main_name(clause_name(files, first)) {
                has_main_file(alloc, survey, files, first)
            } else {
                Ok(false)
            }
        }
        None => Ok(false),
    }
}
