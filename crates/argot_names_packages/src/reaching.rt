// The packages that the main one leads to, or what is wrong with them.
ghost use Rattle.std.specs.Prelude.{IfOk, IfErr};
ghost use Rattle.argot_names_rules.specs.Agreeing.{Agrees, HasLibrary};
ghost use Rattle.argot_names_rules.specs.Faults.{Refuses};
ghost use Rattle.argot_files.specs.Reading.{files_in};
ghost use Rattle.argot_names_imports.specs.Reads.{handed};
ghost use Rattle.argot_names_imports.specs.Reached.{IsReach};

use crate::checks::check;
use crate::packages::packages_of;
use argot_files::Files;
use argot_names_imports::{Reached, survey_from};
use argot_names_rules::NameFault;
use argot_text::Sources;
use argot_tree::{Lexed, Tree};
use std::alloc::Global;

/// The packages that imports lead to from a main folder, each with its path, name and files; or that there is no main
/// function, else the first place of a package clause that differs in its folder, else of an import that finds nothing, else
/// of an import on a cycle. The lists agree, and have the texts of the library that are reached.
pub fn reach(alloc: Global, files: &Files, main: &str) -> Result<Reached, NameFault>
    requires agrees { Agrees (files_in files.now) }
    requires library { HasLibrary (files_in files.now) main.now }
    ensures ok { IfOk result (IsReach (files_in files.now) main.now) }
    ensures fault { IfErr result (Refuses (files_in files.now) main.now) }
{
    let Some(survey) = survey_from(alloc, files, main)? else {
        return Err(NameFault::NoMain);
    };
    check(alloc, &survey, files)?;
    let packages = packages_of(alloc, &survey, files)?;
    Ok(Reached { survey, packages })
}
