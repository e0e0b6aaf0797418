// Whether a name, or a member of a package, stands for nothing.
ghost use Rattle.std.specs.Prelude.{◌≡◌, ◌↔◌, ◌<◌, ℕ, List, IsTrue, Some, true, false, codes, length, slice_get};
ghost use Rattle.argot_names_rules.specs.declared.package_key.PackageKey.{PackageKey};
ghost use Rattle.argot_names_rules.specs.Files.{SourceFiles, read_of, text_at};
ghost use Rattle.argot_names_imports.specs.declared.find.Found.TheVariants as finds;
ghost use Rattle.argot_names_imports.specs.declared.written.Written.{Written};
ghost use Rattle.argot_names_blocks.specs.Listing.{IsSeen};
ghost use Rattle.argot_names_imports.specs.declared.reached.Reached.{Reached};
ghost use Rattle.argot_names_scopes.specs.Names.{AreNames};
ghost use Rattle.argot_names_scopes.specs.Again.{start_of};
ghost use Rattle.argot_names_tops.specs.declared.tops.Tops.{Tops};
ghost use Rattle.argot_names_tops.specs.Meanings.{IsMeaning};
ghost use Rattle.argot_names_uses.specs.Packages.{StandsAt, IsPackageMeant};
ghost use Rattle.argot_names_uses.specs.Members.{IsImportOf, IsMemberMeant};
ghost use Rattle.argot_answers.specs.Answers.{Exactly};
ghost use Rattle.argot_names_uses.specs.Faults.{IsNothing, IsLoneFault, IsMemberFault};

use argot_names_blocks::{Lookup, QualifiedName};
use argot_names_imports::{Found, Reached};
use argot_names_scopes::{FileNames, is_passed_over, spelled_at};
use argot_names_tops::{Meaning, PackageDecl};
use argot_tree::Token;

/// The first byte of a token, where there is one.
fn start_at(tokens: &[Token], at: usize) -> Option<u32>
    ensures { result ≡ start_of (slice_get tokens.now at) }
{
    match tokens.get(at) {
        Some(token) => Some(token.start),
        None => None,
    }
}

/// Whether the name is `_`.
pub fn is_blank(name: &[u8]) -> bool
    ensures { IsTrue result ↔ (name.now ≡ codes "_") }
{
    name == b"_".as_slice()
}

/// Whether a meaning is none.
fn is_nothing(meaning: Meaning) -> bool
    ensures { IsTrue result ↔ IsNothing meaning }
{
    match meaning {
        Meaning::Nothing => true,
        _ => false,
    }
}

/// Whether the import finds a package that is left out.
fn is_left_out(founds: &[Found], import: usize) -> bool
    ensures { IsTrue result ↔ (slice_get founds.now import ≡ Some finds.LeftOut) }
{
    match founds.get(import) {
        Some(Found::LeftOut) => true,
        _ => false,
    }
}

/// The first byte of the name, where that is looked up and stands for nothing. The meaning is what the name means, as
/// `meaning_of` answers it; the file is one of a package that is reached. No memory.
pub fn lone_fault(names: &FileNames, looked: Lookup, meaning: Meaning) -> Option<u32>
    requires names { AreNames names.now }
    requires seen { IsSeen names.now.tree.now.nodes looked }
    ensures { (h : SourceFiles) (main : List ℕ) (r : Reached) (home : PackageKey) (tops : Tops) (file : ℕ)
        → StandsAt h main r home tops names.now file
        → IsMeaning h r home file looked.token (text_at (read_of h file) looked.token) meaning
        → Exactly (IsLoneFault h home file looked) result }
{
    if !is_nothing(meaning) {
        return None;
    }
    let name = spelled_at(names.bytes, names.tokens, looked.token);
    if looked.key {
        return None;
    }
    if is_blank(name) {
        return None;
    }
    if is_passed_over(names, looked.token) {
        return None;
    }
    start_at(names.tokens, looked.token as usize)
}

/// The first byte of the member, where the name before the dot means a package that is known and doesn't export it. The import
/// is what that name means, as `package_meant` answers it; the member is what `member_meant` answers of the name behind the
/// dot, where there is an import. The file is one of a package that is reached. No memory.
pub fn member_fault(
    reached: &Reached,
    names: &FileNames,
    dotted: QualifiedName,
    import: Option<usize>,
    member: Option<PackageDecl>,
) -> Option<u32>
    requires names { AreNames names.now }
    requires token { dotted.token < length names.now.bindings.generics.items }
    ensures { (h : SourceFiles) (main : List ℕ) (home : PackageKey) (tops : Tops) (file : ℕ)
        → StandsAt h main reached.now home tops names.now file
        → IsPackageMeant h reached.now home file dotted.token import
        → ((number : ℕ) (w : Written) → import ≡ Some number → IsImportOf h main reached.now number w
        → IsMemberMeant h w.path (text_at (read_of h file) dotted.member) member)
        → Exactly (IsMemberFault h home file dotted) result }
{
    if is_passed_over(names, dotted.token) {
        return None;
    }
    let Some(number) = import else {
        return None;
    };
    if is_left_out(&reached.survey.founds, number) {
        return None;
    }
    match member {
        Some(_) => None,
        None => start_at(names.tokens, dotted.member),
    }
}
