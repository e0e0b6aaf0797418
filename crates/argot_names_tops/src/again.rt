// The first name that its scope has from an earlier place.
ghost use Rattle.std.specs.Prelude.{◌≡◌, ℕ, List, Some, IfOk, IfSome, IfNone, length};
ghost use Rattle.argot_names_rules.specs.Files.{SourceFiles, IsFirst};
ghost use Rattle.argot_names_rules.specs.Faults.{IsRedeclared, IsNowhere, Again};
ghost use Rattle.argot_names_tops.specs.Entries.{AreEntries};
ghost use Rattle.argot_names_tops.specs.First.{NamesFirst, Either};
ghost use Rattle.argot_names_tops.specs.Behind.{IsBehindBelow};
ghost use Rattle.argot_files.specs.Places.{place_of};
ghost use Rattle.argot_names_tops.specs.Tops.{AreTops};

use crate::behind::{first_behind, sooner};
use crate::entries::{Entry, entries_of};
use crate::functions::first_in_functions;
use crate::named::Named;
use crate::packaged::packaged_imports;
use crate::tops::Tops;
use argot_files::Place;
use argot_names_imports::Reached;
use argot_text::Memory;
use indexmap::IndexMap;
use std::alloc::Global;

// That of one kind: declarations of a package, or imports of a file.
fn first_of_a_kind(
    tops: &[Named],
    top_entries: &IndexMap<(u32, &[u8]), Entry>,
    imports: &[Named],
    import_entries: &IndexMap<(u32, &[u8]), Entry>,
) -> Option<Place>
    requires tops { AreEntries tops.now (length tops.now) top_entries.now }
    requires imports { AreEntries imports.now (length imports.now) import_entries.now }
    ensures { NamesFirst (Either (IsBehindBelow tops.now tops.now (length tops.now))
        (IsBehindBelow imports.now imports.now (length imports.now))) result }
{
    sooner(
        first_behind(top_entries, tops),
        first_behind(import_entries, imports),
    )
}

// An import beside a declaration of its package, by the imports' packages.
fn first_of_both(
    tops: &[Named],
    top_entries: &IndexMap<(u32, &[u8]), Entry>,
    imports: &[Named],
    import_entries: &IndexMap<(u32, &[u8]), Entry>,
) -> Option<Place>
    requires tops { AreEntries tops.now (length tops.now) top_entries.now }
    requires imports { AreEntries imports.now (length imports.now) import_entries.now }
    ensures { NamesFirst (Either (IsBehindBelow imports.now tops.now (length imports.now))
        (IsBehindBelow tops.now imports.now (length tops.now))) result }
{
    sooner(
        first_behind(top_entries, imports),
        first_behind(import_entries, tops),
    )
}

/// The first byte of the first name that its scope has from an earlier place; none where there is none.
pub fn redeclared(alloc: Global, reached: &Reached, tops: &Tops) -> Result<Option<Place>, Memory>
    requires { (h : SourceFiles) × ((main : List ℕ) × AreTops h main reached.now tops.now) }
    ensures some { (h : SourceFiles) (main : List ℕ) → AreTops h main reached.now tops.now
        → IfOk result (λ o. IfSome o (λ p. IsFirst (IsRedeclared h main) (place_of p))) }
    ensures none { (h : SourceFiles) (main : List ℕ) → AreTops h main reached.now tops.now
        → IfOk result (λ o. IfNone o (IsNowhere h main Again)) }
{
    let packaged = packaged_imports(alloc, reached, &tops.imports)?;
    let entries = entries_of(alloc, &packaged)?;
    let one = first_of_a_kind(
        &tops.tops,
        &tops.top_entries,
        &tops.imports,
        &tops.import_entries,
    );
    let both = first_of_both(&tops.tops, &tops.top_entries, &packaged, &entries);
    let inner = first_in_functions(&tops.files)?;
    Ok(sooner(sooner(one, both), inner))
}
