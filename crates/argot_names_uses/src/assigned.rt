// What a name on the left of a `:=` stands for, where its block has it already.
ghost use Rattle.std.specs.Prelude.{◌≡◌, ◌↔◌, ℕ, List, IsTrue};
ghost use Rattle.argot_typed.specs.declared.program.Decl.{Decl};
ghost use Rattle.argot_names_rules.specs.declared.package_key.PackageKey.{PackageKey};
ghost use Rattle.argot_names_rules.specs.Files.{SourceFiles};
ghost use Rattle.argot_names_blocks.specs.Binding.{IsBinding};
ghost use Rattle.argot_names_blocks.specs.declared.binding.BindingKind.TheVariants as manners;
ghost use Rattle.argot_names_scopes.specs.Names.{AreNames};
ghost use Rattle.argot_answers.specs.Answers.{Exactly};
ghost use Rattle.argot_names_uses.specs.Numbers.{StandsBy};
ghost use Rattle.argot_names_uses.specs.Known.{IsHere};

use crate::is_blank;
use crate::known::{Known, number_at};
use argot_names_blocks::{Binding, BindingKind};
use argot_names_scopes::{FileNames, first_of, spelled_at};

// Whether the name comes into its block by a `:=`.
fn is_defined(manner: BindingKind) -> bool
    ensures { IsTrue result ↔ (manner ≡ manners.Defined) }
{
    matches!(manner, BindingKind::Defined)
}

/// The number of the declaration to which a `:=` assigns that doesn't declare the name anew. The file is one of the package
/// of that number. No memory.
pub fn assigned_number(
    known: &Known,
    names: &FileNames,
    package: u32,
    file: u32,
    brought: Binding,
) -> Option<u32>
    requires names { AreNames names.now }
    requires brought { IsBinding names.now.tree.now.nodes brought }
    ensures { (h : SourceFiles) (main : List ℕ) (home : PackageKey) (decls : List Decl)
        → IsHere h main home decls known.now names.now «package» file
        → Exactly (StandsBy h home decls file brought.node) result }
{
    if !is_defined(brought.manner) {
        return None;
    }
    if is_blank(spelled_at(names.bytes, names.tokens, brought.token)) {
        return None;
    }
    match first_of(names, brought.token, brought.opens) {
        Some(first) => number_at(known, file, first.node),
        None => None,
    }
}
