// Which package an import path names, by its bytes.
ghost use Rattle.std.specs.Prelude.{◌≡◌, ℕ, List, Some, option_map, IfSome, IfNone};
ghost use Rattle.argot_stubs.specs.Stubs.{HasStub};
ghost use Rattle.argot_names_imports.specs.Candidates.{left_out, behind_of, names_top, further_of, inner_of, candidate_of};

use argot_stubs::stub;

/// The path of a package that is left out. No memory.
#[tactic(auto, unfolding(crate::specs::Candidates::left_out))]
pub fn is_left_out(path: &[u8]) -> bool
    ensures { result ≡ left_out path.now }
{
    path == "unsafe".as_bytes() || path == "reflect".as_bytes() || path == "C".as_bytes()
}

/// The text of the library that has this path. No memory.
pub fn library_text(path: &[u8]) -> Option<&'static str>
    ensures some { IfSome result (λ text. HasStub path.now text.now) }
    ensures none { IfNone result ((text : List ℕ) → HasStub path.now text → ⊥) }
{
    match std::str::from_utf8(path) {
        Ok(text) => stub(text),
        Err(_) => None,
    }
}

// What follows a front.
#[tactic(auto, unfolding(crate::specs::Candidates::behind_of))]
fn behind<'a>(front: &[u8], text: &'a [u8]) -> Option<&'a [u8]>
    ensures { option_map (λ r. r.now) result ≡ behind_of front.now text.now }
{
    text.strip_prefix(front)
}

// The path names the folder at the top.
#[tactic(auto, unfolding(crate::specs::Candidates::names_top))]
fn is_top(module: &[u8], path: &[u8]) -> bool
    ensures { result ≡ names_top module.now path.now }
{
    if module.is_empty() {
        path == "main".as_bytes()
    } else {
        path == module
    }
}

// A folder, where it isn't the top one or below `stubs/`.
fn further(folder: &[u8]) -> Option<&[u8]>
    ensures { option_map (λ r. r.now) result ≡ further_of (Some folder.now) }
{
    if folder.is_empty() {
        return None;
    }
    match behind("stubs/".as_bytes(), folder) {
        Some(_) => None,
        None => Some(folder),
    }
}

// The folder further in that the path names.
fn inner_folder<'a>(module: &[u8], path: &'a [u8]) -> Option<&'a [u8]>
    ensures { option_map (λ r. r.now) result ≡ inner_of module.now path.now }
{
    let rest = behind(module, path)?;
    let folder = behind("/".as_bytes(), rest)?;
    further(folder)
}

/// The folder of the module that the path names. No memory.
pub fn candidate<'a>(module: &[u8], path: &'a [u8]) -> Option<&'a [u8]>
    ensures { option_map (λ r. r.now) result ≡ candidate_of module.now path.now }
{
    if is_top(module, path) {
        Some("".as_bytes())
    } else {
        inner_folder(module, path)
    }
}
