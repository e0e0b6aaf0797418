// All declarations.
ghost use Rattle.std.specs.Prelude.{◌≡◌, ℕ, List, None, IfOk, map, take};
ghost use Rattle.argot_names_rules.specs.Files.{SourceFiles};
ghost use Rattle.argot_names_rules.specs.Loaded.{predeclared_decl, AreDecls};
ghost use Rattle.argot_names_rules.specs.Universe.{predeclared};
ghost use Rattle.argot_names_imports.specs.Reached.{homes_of};
ghost use Rattle.argot_names_tops.specs.Tops.{AreTops};

use crate::bases::{node_bases, node_count};
use crate::files::all_items;
use crate::order::ordered;
use argot_names_imports::Reached;
use argot_names_tops::{COUNT, Tops, predeclared_name};
use argot_text::{Memory, Text};
use argot_tree::Tree;
use argot_typed::Decl;
use std::alloc::Global;

// The declaration of a predeclared name.
fn predeclared_of(alloc: Global, name: &str) -> Result<Decl, Memory>
    ensures { IfOk result (λ d. d ≡ predeclared_decl name.now) }
{
    let name = Text::from_str(alloc, name)?;
    Ok(Decl {
        package: None,
        node: None,
        name,
    })
}

// Those of all predeclared names.
fn predeclared_decls(alloc: Global) -> Result<Vec<Decl>, Memory>
    ensures { IfOk result (λ v. v.items ≡ map predeclared_decl predeclared) }
{
    let mut decls = Vec::new(alloc);
    for number in 0..COUNT {
        decls.push(predeclared_of(alloc, predeclared_name(number))?)?;
    }
    Ok(decls)
}

/// The declarations: those of the predeclared names, by number, and then those of the files of packages, by node.
pub fn decls_of(
    alloc: Global,
    trees: &[Tree],
    reached: &Reached,
    tops: &Tops,
) -> Result<Vec<Decl>, Memory>
    ensures { (h : SourceFiles) (main : List ℕ) → h.trees ≡ trees.now → AreTops h main reached.now tops.now
        → IfOk result (λ v. AreDecls h (homes_of h reached.now) v.items) }
{
    let bases = node_bases(alloc, trees)?;
    let items = all_items(alloc, &bases, reached, tops)?;
    let mut others = ordered(alloc, &items, node_count(&bases))?;
    let mut decls = predeclared_decls(alloc)?;
    decls.append(&mut others)?;
    Ok(decls)
}
