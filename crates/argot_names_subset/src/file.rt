// What is left out in one file of a package.
ghost use Rattle.std.specs.Prelude.{◌≡◌, Some, List, ℕ, option_map, slice_get, take, drop, OnOk};
ghost use Rattle.argot_names_rules.specs.Files.{directives_in};
ghost use Rattle.argot_names_rules.specs.Loaded.{count_nodes};
ghost use Rattle.argot_names_subset_file.specs.Tables.{AreBases};
ghost use Rattle.argot_names_subset.specs.Known.{IsKnown};
ghost use Rattle.argot_names_subset.specs.Files.{AddsSource, IsPart};
ghost use Rattle.argot_tree.specs.declared.tree.Tree.{Tree};

use crate::known::Known;
use argot_files::File;
use argot_names_imports::{bytes_at, tokens_at};
use argot_names_subset_file::{Spot, View, note_file};
use argot_text::Memory;
use argot_tree::{Lexed, Tree};
use std::alloc::Global;
use std::collections::BTreeSet;

/// The tree of the file.
fn tree_at(trees: &[Tree], file: u32) -> Option<&Tree>
    ensures { option_map (λ t. t.now) result ≡ slice_get trees.now file }
{
    trees.get(file as usize)
}

/// The offsets of the file's comments for the compiler.
fn directives_at(lexed: &[Lexed], file: u32) -> &[u32]
    ensures { result.now ≡ directives_in (slice_get lexed.now file) }
{
    match lexed.get(file as usize) {
        Some(lexed) => lexed.directives.as_slice(),
        None => &[],
    }
}

/// As many items from one on, as far as there are some.
fn range_of<T>(items: &[T], from: usize, count: usize) -> &[T]
    ensures { result.now ≡ take count (drop from items.now) }
{
    let rest = &items[from.min(items.len())..];
    &rest[..count.min(rest.len())]
}

/// How many nodes the trees before the file have; none where there is no such file.
fn base_at(bases: &[usize], file: u32) -> usize
    ensures { (n : ℕ) → slice_get bases.now file ≡ Some n → result ≡ n }
{
    match bases.get(file as usize) {
        Some(base) => *base,
        None => 0,
    }
}

/// The part of a table that is the file's, which has so many nodes.
fn part_of<'a, T>(bases: &[usize], table: &'a [T], file: u32, count: usize) -> &'a [T]
    ensures { (trees : List Tree) (tree : Tree) → AreBases trees bases.now → slice_get trees file ≡ Some tree
        → IsPart table.now (count_nodes (take file trees)) count result.now }
{
    let from = base_at(bases, file);
    range_of(table, from, count)
}

/// Adds what is left out in a file of a package. `path` is the import path of the package, where that is a folder.
pub fn note_source<'a, 'e>(
    alloc: Global,
    spots: &mut BTreeSet<Spot>,
    known: &Known<'a, 'e>,
    number: u32,
    path: Option<&'a [u8]>,
) -> Result<(), Memory>
    requires { IsKnown known.now }
    ensures { OnOk result (AddsSource known.now number (option_map
        (λ p. p.now) path.entry) spots.old.keys spots.new.keys) }
{
    let Some(tree) = tree_at(known.files.trees, number) else {
        return Ok(());
    };
    let bytes = bytes_at(known.files.sources, number);
    let tokens = tokens_at(known.files.lexed, number);
    let file = File::new(alloc, bytes, tokens, tree)?;
    let count = tree.nodes.len();
    let view = View {
        number,
        file: &file,
        named: part_of(known.bases, known.named, number, count),
        typed: part_of(known.bases, known.typed, number, count),
        entries: known.entries,
        path,
    };
    note_file(
        alloc,
        spots,
        &view,
        directives_at(known.files.lexed, number),
    )
}
