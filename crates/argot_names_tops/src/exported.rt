// Whether a name is exported (Go specification: Exported identifiers).
ghost use Rattle.std.specs.Prelude.{◌≡◌, ◌↔◌, IsTrue, true, false, slice_get};
ghost use Rattle.std.specs.Str.{chars};
ghost use Rattle.ucd_category.specs.GeneralCategory.{general_category};
ghost use Rattle.ucd_category.specs.declared.GeneralCategory.TheVariants.{UppercaseLetter};
ghost use Rattle.argot_names_rules.specs.PackageScope.{IsExported};

use std::str;
use ucd_category::GeneralCategory;

// Whether the character is an upper case letter: of category Lu.
fn is_upper(c: char) -> bool
    ensures { IsTrue result ↔ (general_category c ≡ UppercaseLetter) }
{
    matches!(
        GeneralCategory::for_char(c),
        GeneralCategory::UppercaseLetter
    )
}

// The first character of a text.
fn first_char(text: &str) -> Option<char>
    ensures { result ≡ slice_get (chars text.now) 0 }
{
    text.chars().next()
}

/// Whether the name begins with an upper case letter. Bytes that aren't UTF-8 are no such name. No memory.
pub fn is_exported(name: &[u8]) -> bool
    ensures there { result ≡ true → IsExported name.now }
    ensures none { result ≡ false → IsExported name.now → ⊥ }
{
    let Ok(text) = str::from_utf8(name) else {
        return false;
    };
    match first_char(text) {
        Some(c) => is_upper(c),
        None => false,
    }
}
