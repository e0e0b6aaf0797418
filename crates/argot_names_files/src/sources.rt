// Paths and bytes put together.
ghost use Rattle.std.specs.Prelude.{◌≡◌, ◌++◌, ◌∷◌, [], true, false, if◌then◌else◌, length, filter, IfOk, IfSome, IfNone, OnOk};
ghost use Rattle.std.specs.List.{list_all};
ghost use Rattle.argot_names_rules.specs.Lists.{IsOrdered};
ghost use Rattle.argot_names_rules.specs.Agreeing.{PathBefore, is_assembly, is_numbered};
ghost use Rattle.argot_text.specs.declared.sources.Sources.{Sources};
ghost use Rattle.argot_names_files.specs.Files.{Fits, AreFitting, Agree, AreFiles};

use crate::paths::{is_assembly, is_numbered};
use argot_text::{Memory, Sequence, Sources, Text, Texts};
use std::alloc::Global;
use std::cmp::Ordering;

// All paths are numbered ones.
fn are_numbered(paths: &[Text]) -> bool
    ensures { result ≡ list_all is_numbered paths.now }
{
    paths.iter().all(|path| is_numbered(path.as_str()))
}

// The one stands before the other in byte order.
fn is_before(a: &Text, b: &Text) -> bool
    ensures before { result ≡ true → PathBefore a.now b.now }
    ensures not { result ≡ false → PathBefore a.now b.now → ⊥ }
{
    match a.cmp(b) {
        Ordering::Less => true,
        _ => false,
    }
}

// Each path stands before the next one in byte order.
fn are_ordered(paths: &[Text]) -> bool
    ensures ordered { result ≡ true → IsOrdered PathBefore paths.now }
    ensures not { result ≡ false → IsOrdered PathBefore paths.now → ⊥ }
{
    for k in 1..paths.len() {
        if !is_before(&paths[k - 1], &paths[k]) {
            return false;
        }
    }
    true
}

// Puts the path last, where it is wanted.
fn push_where(alloc: Global, list: &mut Texts, path: &str, wanted: bool) -> Result<(), Memory>
    ensures { OnOk result (list.new ≡ list.old ++ (if wanted then path.now ∷ [] else [])) }
{
    if wanted {
        list.push(Text::from_str(alloc, path)?)?;
    }
    Ok(())
}

// The assembly files among the paths.
fn assembly_of(alloc: Global, paths: &[Text]) -> Result<Texts, Memory>
    ensures { IfOk result (λ t. t ≡ filter is_assembly paths.now) }
{
    let mut assembly = Texts::new(alloc);
    for k in 0..paths.len() {
        let path = paths[k].as_str();
        push_where(alloc, &mut assembly, path, is_assembly(path))?;
    }
    Ok(assembly)
}

// The bytes of a file have room for offsets, and those of an assembly file are none.
fn fits(path: &str, bytes: &[u8]) -> bool
    ensures fit { result ≡ true → Fits path.now bytes.now }
    ensures not { result ≡ false → Fits path.now bytes.now → ⊥ }
{
    bytes.len() < u32::MAX as usize && (bytes.is_empty() || !is_assembly(path))
}

// The bytes of each file fit its path.
fn are_fitting(paths: &[Text], contents: &[Sequence<u8>]) -> bool
    requires { length contents.now ≡ length paths.now }
    ensures fit { result ≡ true → AreFitting paths.now contents.now }
    ensures not { result ≡ false → AreFitting paths.now contents.now → ⊥ }
{
    for k in 0..paths.len() {
        if !fits(paths[k].as_str(), contents[k].as_slice()) {
            return false;
        }
    }
    true
}

// Paths and bytes agree.
fn agree(paths: &[Text], contents: &[Sequence<u8>]) -> bool
    ensures agree { result ≡ true → Agree paths.now contents.now }
    ensures not { result ≡ false → Agree paths.now contents.now → ⊥ }
{
    if paths.len() != contents.len() || !are_numbered(paths) {
        return false;
    }
    if !are_ordered(paths) {
        return false;
    }
    are_fitting(paths, contents)
}

/// The sources of these paths and bytes; none where a path isn't numbered, the paths aren't in byte order, or the bytes don't
/// fit.
pub fn sources_of(
    alloc: Global,
    paths: Texts,
    contents: Vec<Sequence<u8>>,
    module: Text,
    go_line: Option<(u32, u32)>,
) -> Result<Option<Sources>, Memory>
    ensures paths { IfOk result (λ o. IfSome o (λ s. s.paths ≡ paths)) }
    ensures contents { IfOk result (λ o. IfSome o (λ s. s.contents ≡ contents.items)) }
    ensures module_is { IfOk result (λ o. IfSome o (λ s. s.«module» ≡ «module»)) }
    ensures go_line { IfOk result (λ o. IfSome o (λ s. s.go_line ≡ go_line)) }
    ensures some { IfOk result (λ o. IfSome o AreFiles) }
    ensures none { IfOk result (λ o. IfNone o ((s : Sources) → s.paths ≡ paths → s.contents ≡ contents.items
        → AreFiles s → ⊥)) }
{
    if !agree(paths.as_slice(), contents.as_slice()) {
        return Ok(None);
    }
    let assembly = assembly_of(alloc, paths.as_slice())?;
    Ok(Some(Sources {
        paths,
        contents: Sequence::from_vec(contents),
        assembly,
        module,
        go_line,
    }))
}
