// The name that an import declares: its own, or that of the package that it finds, which is the path where that package is
// left out.
ghost use Rattle.std.specs.Prelude.{◌≡◌, ◌<◌, ℕ, List, Some, None, IfSome, IfNone, true, false, length, slice_get};
ghost use Rattle.argot_names_rules.specs.Files.{SourceFiles, SourceFile};
ghost use Rattle.argot_names_rules.specs.PackageScope.{Imported};
ghost use Rattle.argot_names_rules.specs.declared.alias.Alias.TheVariants.{Unnamed};
ghost use Rattle.argot_names_imports.specs.declared.find.Found.TheVariants.{LeftOut};
ghost use Rattle.argot_names_imports.specs.Reached.{IsReach};
ghost use Rattle.argot_names_tops.specs.ImportNames.{IsImportAt, written_in};

use argot_names_imports::{Found, Reached, Written, target_number};
use argot_names_rules::Alias;
use argot_names_scopes::spelled_at;
use argot_tree::Token;
use argot_typed::Package;

// Whether the import of this number is of a package that is left out.
fn is_left_out(founds: &[Found], k: usize) -> bool
    ensures there { result ≡ true → slice_get founds.now k ≡ Some LeftOut }
    ensures none { result ≡ false → slice_get founds.now k ≡ Some LeftOut → ⊥ }
{
    match founds.get(k) {
        Some(found) => matches!(*found, Found::LeftOut),
        None => false,
    }
}

// The package of this number.
fn package_at(packages: &[Package], number: usize) -> &Package
    requires { number < length packages.now }
    ensures { slice_get packages.now number ≡ Some result.now }
{
    &packages[number]
}

// The package of this number, where there is one.
fn package_of_number(packages: &[Package], number: usize) -> Option<&Package>
    ensures some { IfSome result (λ p. slice_get packages.now number ≡ Some p.now) }
    ensures none { IfNone result (slice_get packages.now number ≡ None) }
{
    if number < packages.len() {
        Some(package_at(packages, number))
    } else {
        None
    }
}

// The name of a package.
fn name_of(is: &Package) -> &[u8]
    ensures { result.now ≡ is.now.name }
{
    is.name.as_str().as_bytes()
}

// The name that an import has by what it finds.
fn found_name<'a>(reached: &'a Reached, k: usize, import: &'a Written) -> Option<&'a [u8]>
    ensures some { (h : SourceFiles) (main : List ℕ) (f : SourceFile) → IsReach h main reached.now
        → IsImportAt h reached.now k import.now
        → IfSome result (λ name. Imported h f import.now.path Unnamed name.now) }
    ensures none { (h : SourceFiles) (main : List ℕ) (f : SourceFile) (name : List ℕ) → IsReach h main reached.now
        → IsImportAt h reached.now k import.now → IfNone result (Imported h f import.now.path Unnamed name → ⊥) }
{
    match target_number(reached, k) {
        Some(number) => match package_of_number(&reached.packages, number as usize) {
            Some(is) => Some(name_of(is)),
            None => None,
        },
        None => {
            if is_left_out(&reached.survey.founds, k) {
                Some(import.path.as_slice())
            } else {
                None
            }
        }
    }
}

/// The name that an import declares; none where it is imported under a dot or finds nothing. No memory.
pub fn import_name<'a>(
    reached: &'a Reached,
    k: usize,
    import: &'a Written,
    bytes: &'a [u8],
    tokens: &[Token],
) -> Option<&'a [u8]>
    ensures some { (h : SourceFiles) (main : List ℕ) → IsReach h main reached.now
        → IsImportAt h reached.now k import.now
        → IfSome result (λ name. Imported h (written_in bytes.now tokens.now) import.now.path import.now.alias name.now) }
    ensures none { (h : SourceFiles) (main : List ℕ) (name : List ℕ) → IsReach h main reached.now
        → IsImportAt h reached.now k import.now
        → IfNone result (Imported h (written_in bytes.now tokens.now) import.now.path import.now.alias name → ⊥) }
{
    match import.alias {
        Alias::Named(token) => Some(spelled_at(bytes, tokens, token)),
        Alias::Dotted => None,
        Alias::Unnamed => found_name(reached, k, import),
    }
}
