// Paths, compared and copied.
ghost use Rattle.std.specs.Prelude.{◌≡◌, ◌++◌, ◌∷◌, [], map, length, drop, true, IfOk, OnOk};
ghost use Rattle.argot_plain.specs.Lists.{same_step, same_path, has_path, begins_with};
ghost use Rattle.argot_facts.specs.Numbers.{with_path, with_prefixes, with_leaves, paths_of};

use argot_plain::Site;
use argot_text::{Memory, Path, PathStep, Sequence};
use std::alloc::Global;

fn same_step(a: PathStep, b: PathStep) -> bool
    ensures { result ≡ same_step a b }
{
    match a {
        PathStep::Field(m) => match b {
            PathStep::Field(n) => m == n,
            _ => false,
        },
        PathStep::Element => match b {
            PathStep::Element => true,
            _ => false,
        },
        PathStep::Key => match b {
            PathStep::Key => true,
            _ => false,
        },
        PathStep::Value => match b {
            PathStep::Value => true,
            _ => false,
        },
        PathStep::Channel => match b {
            PathStep::Channel => true,
            _ => false,
        },
        PathStep::Capture(m) => match b {
            PathStep::Capture(n) => m == n,
            _ => false,
        },
    }
}

/// Whether the first path is the second.
pub fn same_path(a: &[PathStep], b: &[PathStep]) -> bool
    ensures { result ≡ same_path a.now b.now }
{
    if a.len() != b.len() {
        return false;
    }
    for i in 0..a.len() {
        if !same_step(a[i], b[i]) {
            return false;
        }
    }
    true
}

/// Whether the second path is the first or leads on from it.
pub(crate) fn begins_with(a: &[PathStep], b: &[PathStep]) -> bool
    ensures { result ≡ begins_with a.now b.now }
{
    if a.len() > b.len() {
        return false;
    }
    for i in 0..a.len() {
        if !same_step(a[i], b[i]) {
            return false;
        }
    }
    true
}

/// Whether the path is the other two, one behind the other.
pub fn is_joined(whole: &[PathStep], front: &[PathStep], rest: &[PathStep]) -> bool
    ensures { result ≡ same_path whole.now (front.now ++ rest.now) }
{
    if whole.len() < front.len() {
        return false;
    }
    same_path(&whole[..front.len()], front) && same_path(&whole[front.len()..], rest)
}

/// The path, copied.
pub fn copied(alloc: Global, path: &[PathStep]) -> Result<Path, Memory>
    ensures { IfOk result (λ q. q ≡ path.now) }
{
    Ok(Sequence::from_vec(path.to_vec(alloc)?))
}

fn has_path(path: &[PathStep], paths: &[Path]) -> bool
    ensures { result ≡ has_path path.now paths.now }
{
    for n in 0..paths.len() {
        if same_path(path, paths[n].as_slice()) {
            return true;
        }
    }
    false
}

/// Adds the path, unless it is there.
fn add_path(alloc: Global, paths: &mut Vec<Path>, path: &[PathStep]) -> Result<(), Memory>
    ensures { OnOk result (paths.new.items ≡ with_path paths.old.items path.now) }
{
    if has_path(path, paths) {
        return Ok(());
    }
    paths.push(copied(alloc, path)?)?;
    Ok(())
}

/// Adds all that lead to the leaf, but the empty path.
fn add_prefixes(alloc: Global, paths: &mut Vec<Path>, leaf: &[PathStep]) -> Result<(), Memory>
    ensures { OnOk result (paths.new.items ≡ with_prefixes paths.old.items [] leaf.now) }
{
    for n in 0..leaf.len() {
        add_path(alloc, paths, &leaf[..n + 1])?;
    }
    Ok(())
}

/// The paths of a site.
pub(crate) fn paths_of(alloc: Global, site: &Site) -> Result<Vec<Path>, Memory>
    ensures { IfOk result (λ v. v.items ≡ paths_of site.now) }
{
    let mut paths = vec![in alloc; Sequence::from_vec(Vec::new(alloc))]?;
    let shape = site.shape.as_slice();
    for n in 0..shape.len() {
        add_prefixes(alloc, &mut paths, shape[n].as_slice())?;
    }
    Ok(paths)
}
