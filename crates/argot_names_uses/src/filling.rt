// The uses of one file go into the table, and the first name that stands for nothing is found.
ghost use Rattle.std.specs.Prelude.{◌≡◌, ◌+◌, ◌<◌, ℕ, List, Some, length, slice_get};
ghost use Rattle.argot_typed.specs.declared.program.Decl.{Decl};
ghost use Rattle.argot_names_rules.specs.declared.package_key.PackageKey.{PackageKey};
ghost use Rattle.argot_names_rules.specs.Files.{SourceFiles};
ghost use Rattle.argot_names_scopes.specs.Names.{AreNames};
ghost use Rattle.argot_answers.specs.Answers.{Exactly};
ghost use Rattle.argot_names_uses.specs.Faults.{IsFirstOf, IsFirstNumber, LoneAt, MemberAt, UnresolvedIn};
ghost use Rattle.argot_names_uses.specs.Known.{IsIn, IsHere};
ghost use Rattle.argot_names_uses.specs.UseTables.{IsFilled, FilesBefore, Seen};

use crate::assigned::assigned_number;
use crate::known::Known;
use crate::lone::lone_number;
use crate::member_uses::{member_number, member_of};
use crate::use_table::put;
use crate::{is_blank, lone_fault, member_fault, node_number, package_meant, sooner};
use argot_names_blocks::{Binding, Lookup, QualifiedName};
use argot_names_scopes::{FileNames, spelled_at};
use argot_names_tops::meaning_of;

// Name k.
fn looked_at(looked: &[Lookup], k: usize) -> Lookup
    requires { k < length looked.now }
    ensures { slice_get looked.now k ≡ Some result }
{
    looked[k]
}

// Member k.
fn dotted_at(dotted: &[QualifiedName], k: usize) -> QualifiedName
    requires { k < length dotted.now }
    ensures { slice_get dotted.now k ≡ Some result }
{
    dotted[k]
}

// Name k that comes into a block.
fn brought_at(brought: &[Binding], k: usize) -> Binding
    requires { k < length brought.now }
    ensures { slice_get brought.now k ≡ Some result }
{
    brought[k]
}

// Puts down what lone name k stands for; its first byte where it stands for nothing.
fn fill_lone(
    known: &Known,
    names: &FileNames,
    package: u32,
    file: u32,
    k: usize,
    table: &mut Vec<Option<u32>>,
) -> Option<u32>
    requires names { AreNames names.now }
    requires item { k < length names.now.bindings.looked.items }
    ensures table { (h : SourceFiles) (main : List ℕ) (home : PackageKey) (decls : List Decl)
        → IsHere h main home decls known.now names.now «package» file
        → IsFilled h known.now.reached.now decls (Seen names.now file k 0 0) table.old.items
        → IsFilled h known.now.reached.now decls (Seen names.now file (k + 1) 0 0) table.new.items }
    ensures fault { (h : SourceFiles) (main : List ℕ) (home : PackageKey)
        → IsIn h main home known.now names.now «package» file
        → Exactly (LoneAt h home file names.now.bindings.looked.items k) result }
{
    let looked = looked_at(&names.bindings.looked, k);
    let name = spelled_at(names.bytes, names.tokens, looked.token);
    if is_blank(name) {
        return None;
    }
    let meaning = meaning_of(known.tops, names, package, file, looked.token, name);
    let decl = lone_number(known, names, file, looked, meaning);
    put(table, node_number(known.bases, file, looked.node), decl);
    lone_fault(names, looked, meaning)
}

// Puts down what member k stands for; the first byte of its name where its package doesn't export it.
fn fill_member(
    known: &Known,
    names: &FileNames,
    package: u32,
    file: u32,
    k: usize,
    table: &mut Vec<Option<u32>>,
) -> Option<u32>
    requires names { AreNames names.now }
    requires item { k < length names.now.bindings.dotted.items }
    ensures table { (h : SourceFiles) (main : List ℕ) (home : PackageKey) (decls : List Decl) (lone : ℕ)
        → IsHere h main home decls known.now names.now «package» file
        → IsFilled h known.now.reached.now decls (Seen names.now file lone k 0) table.old.items
        → IsFilled h known.now.reached.now decls (Seen names.now file lone (k + 1) 0) table.new.items }
    ensures fault { (h : SourceFiles) (main : List ℕ) (home : PackageKey)
        → IsIn h main home known.now names.now «package» file
        → Exactly (MemberAt h home file names.now.bindings.dotted.items k) result }
{
    let dotted = dotted_at(&names.bindings.dotted, k);
    let import = package_meant(known.tops, names, file, dotted.token);
    let member = member_of(known, names, dotted, import);
    let decl = member_number(known, names, dotted, import, member);
    put(table, node_number(known.bases, file, dotted.node), decl);
    member_fault(known.reached, names, dotted, import, member)
}

// Puts down what name k that comes into a block stands for, where it is assigned to.
fn fill_assigned(
    known: &Known,
    names: &FileNames,
    package: u32,
    file: u32,
    k: usize,
    table: &mut Vec<Option<u32>>,
)
    requires names { AreNames names.now }
    requires item { k < length names.now.bindings.brought.items }
    ensures { (h : SourceFiles) (main : List ℕ) (home : PackageKey) (decls : List Decl) (lone members : ℕ)
        → IsHere h main home decls known.now names.now «package» file
        → IsFilled h known.now.reached.now decls (Seen names.now file lone members k) table.old.items
        → IsFilled h known.now.reached.now decls (Seen names.now file lone members (k + 1)) table.new.items }
{
    let brought = brought_at(&names.bindings.brought, k);
    let decl = assigned_number(known, names, package, file, brought);
    put(table, node_number(known.bases, file, brought.node), decl);
}

// All lone names of a file; the first byte of the first one that stands for nothing.
fn fill_lones(
    known: &Known,
    names: &FileNames,
    package: u32,
    file: u32,
    table: &mut Vec<Option<u32>>,
) -> Option<u32>
    requires names { AreNames names.now }
    ensures table { (h : SourceFiles) (main : List ℕ) (home : PackageKey) (decls : List Decl)
        → IsHere h main home decls known.now names.now «package» file
        → IsFilled h known.now.reached.now decls (Seen names.now file 0 0 0) table.old.items
        → IsFilled h known.now.reached.now decls (Seen names.now file
        (length names.now.bindings.looked.items) 0 0) table.new.items }
    ensures fault { (h : SourceFiles) (main : List ℕ) (home : PackageKey)
        → IsIn h main home known.now names.now «package» file
        → IsFirstOf (LoneAt h home file names.now.bindings.looked.items)
        (length names.now.bindings.looked.items) result }
{
    let mut first = None;
    for k in 0..names.bindings.looked.len() {
        let fault = fill_lone(known, names, package, file, k, table);
        first = sooner(first, fault);
    }
    first
}

// All members in a file; the first byte of the first one that its package doesn't export.
fn fill_members(
    known: &Known,
    names: &FileNames,
    package: u32,
    file: u32,
    table: &mut Vec<Option<u32>>,
) -> Option<u32>
    requires names { AreNames names.now }
    ensures table { (h : SourceFiles) (main : List ℕ) (home : PackageKey) (decls : List Decl) (lone : ℕ)
        → IsHere h main home decls known.now names.now «package» file
        → IsFilled h known.now.reached.now decls (Seen names.now file lone 0 0) table.old.items
        → IsFilled h known.now.reached.now decls (Seen names.now file lone
        (length names.now.bindings.dotted.items) 0) table.new.items }
    ensures fault { (h : SourceFiles) (main : List ℕ) (home : PackageKey)
        → IsIn h main home known.now names.now «package» file
        → IsFirstOf (MemberAt h home file names.now.bindings.dotted.items)
        (length names.now.bindings.dotted.items) result }
{
    let mut first = None;
    for k in 0..names.bindings.dotted.len() {
        let fault = fill_member(known, names, package, file, k, table);
        first = sooner(first, fault);
    }
    first
}

// All names of a file that are assigned to.
fn fill_all_assigned(
    known: &Known,
    names: &FileNames,
    package: u32,
    file: u32,
    table: &mut Vec<Option<u32>>,
)
    requires names { AreNames names.now }
    ensures { (h : SourceFiles) (main : List ℕ) (home : PackageKey) (decls : List Decl) (lone members : ℕ)
        → IsHere h main home decls known.now names.now «package» file
        → IsFilled h known.now.reached.now decls (Seen names.now file lone members 0) table.old.items
        → IsFilled h known.now.reached.now decls (Seen names.now file lone members
        (length names.now.bindings.brought.items)) table.new.items }
{
    for k in 0..names.bindings.brought.len() {
        fill_assigned(known, names, package, file, k, table);
    }
}

/// Puts down what the nodes of a file stand for; the first byte of the first name or member that stands for nothing. The file
/// is one of the package of that number. No memory.
pub fn fill_names(
    known: &Known,
    names: &FileNames,
    package: u32,
    file: u32,
    table: &mut Vec<Option<u32>>,
) -> Option<u32>
    requires names { AreNames names.now }
    ensures table { (h : SourceFiles) (main : List ℕ) (home : PackageKey) (decls : List Decl)
        → IsHere h main home decls known.now names.now «package» file
        → IsFilled h known.now.reached.now decls (FilesBefore file) table.old.items
        → IsFilled h known.now.reached.now decls (FilesBefore (file + 1)) table.new.items }
    ensures fault { (h : SourceFiles) (main : List ℕ) (home : PackageKey)
        → IsIn h main home known.now names.now «package» file → IsFirstNumber (UnresolvedIn h main file) result }
{
    let lone = fill_lones(known, names, package, file, table);
    let member = fill_members(known, names, package, file, table);
    fill_all_assigned(known, names, package, file, table);
    sooner(lone, member)
}
