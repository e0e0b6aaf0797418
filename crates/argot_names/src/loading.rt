// The packages, the declarations and the uses of names.
ghost use Rattle.std.specs.Prelude.{◌≡◌, ◌<◌, ◌-◌, ◌^◌, ℕ, List, None, length, IfOk, IfErr, OnOk};
ghost use Rattle.argot_names_rules.specs.Files.{SourceFiles};
ghost use Rattle.argot_names_rules.specs.Agreeing.{Agrees, HasLibrary};
ghost use Rattle.argot_names_rules.specs.Faults.{Refuses, IsResolved};
ghost use Rattle.argot_names_rules.specs.Loaded.{IsLoaded};
ghost use Rattle.argot_files.specs.Reading.{files_in};
ghost use Rattle.argot_names_imports.specs.Reached.{homes_of, IsReach};
ghost use Rattle.argot_names.specs.Names.{AreNames, HasNames};

use crate::checks::{check_again, check_known};
use argot_files::Files;
use argot_names_imports::Reached;
use argot_names_packages::reach;
use argot_names_rules::NameFault;
use argot_names_tops::tops_of;
use argot_names_uses::{decls_of, uses_of};
use argot_text::Sequence;
use argot_typed::{Decl, Packages, Use};
use std::alloc::Global;

/// The declarations of packages, and what their names stand for.
#[derive(Drop)]
pub struct Names {
    pub decls: Vec<Decl>,
    pub uses: Vec<Use>,
}

// The names of packages that are reached: the package level of scopes, that no name is declared again, all declarations,
// what names stand for, and that each stands for something.
fn names_of(alloc: Global, files: &Files, reached: &Reached) -> Result<Names, NameFault>
    requires agrees { Agrees (files_in files.now) }
    requires reach { (main : List ℕ) × IsReach (files_in files.now) main reached.now }
    ensures { (main : List ℕ) → IsReach (files_in files.now) main reached.now
        → HasNames (files_in files.now) main reached.now result }
{
    let tops = tops_of(alloc, files, reached)?;
    check_again(alloc, files, reached, &tops)?;
    let decls = decls_of(alloc, files.trees, reached, &tops)?;
    let found = uses_of(alloc, files.trees, reached, &tops, &decls)?;
    check_known(files, found.unresolved)?;
    Ok(Names {
        decls,
        uses: found.uses,
    })
}

// The packages with their names.
fn packages_from(reached: Reached, names: Names) -> Packages
    ensures { (h : SourceFiles) (main : List ℕ) → IsReach h main reached → AreNames h (homes_of h reached) names
        → IsLoaded h main result }
{
    Packages {
        packages: Sequence::from_vec(reached.packages),
        decls: Sequence::from_vec(names.decls),
        uses: Sequence::from_vec(names.uses),
    }
}

/// The packages that the main folder's imports lead to, their declarations, and the declaration that each name stands for
/// (Go specification: Packages, Declarations and scope); or what is wrong with packages and names, at its first place: no main
/// function, a package clause that differs, an import that finds nothing, an import cycle, a name declared again, a name that
/// means nothing, in this order. Want of memory may be answered at any time.
pub fn load(alloc: Global, files: &Files, main: &str) -> Result<Packages, NameFault>
    requires agrees { Agrees (files_in files.now) }
    requires library { HasLibrary (files_in files.now) main.now }
    ensures ok { IfOk result (IsLoaded (files_in files.now) main.now) }
    ensures fine { OnOk result (IsResolved (files_in files.now) main.now) }
    ensures fault { IfErr result (Refuses (files_in files.now) main.now) }
{
    let reached = reach(alloc, files, main)?;
    let names = names_of(alloc, files, &reached)?;
    Ok(packages_from(reached, names))
}
