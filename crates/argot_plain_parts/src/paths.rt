// Paths, compared step by step.
ghost use Rattle.std.specs.Prelude.{◌≡◌, ◌++◌, drop, true, length, Some, None, IfSome, IfNone};
ghost use Rattle.argot_plain.specs.Lists.{same_step, same_path, has_path, begins_with, below, without_first};
ghost use Rattle.argot_plain_parts.specs.Leaves.{is_of_element, is_of_capture, rank, path_before};

use argot_text::{Path, PathStep};

fn same_step(a: PathStep, b: PathStep) -> bool
    ensures { result ≡ same_step a b }
{
    match a {
        PathStep::Field(m) => match b {
            PathStep::Field(n) => m == n,
            _ => false,
        },
        PathStep::Element => match b {
            PathStep::Element => true,
            _ => false,
        },
        PathStep::Key => match b {
            PathStep::Key => true,
            _ => false,
        },
        PathStep::Value => match b {
            PathStep::Value => true,
            _ => false,
        },
        PathStep::Channel => match b {
            PathStep::Channel => true,
            _ => false,
        },
        PathStep::Capture(m) => match b {
            PathStep::Capture(n) => m == n,
            _ => false,
        },
    }
}

/// Whether the first path is the second.
pub fn same_path(a: &[PathStep], b: &[PathStep]) -> bool
    ensures { result ≡ same_path a.now b.now }
{
    if a.len() != b.len() {
        return false;
    }
    for i in 0..a.len() {
        if !same_step(a[i], b[i]) {
            return false;
        }
    }
    true
}

// Whether the second path is the first or leads on from it.
fn begins_with(a: &[PathStep], b: &[PathStep]) -> bool
    ensures { result ≡ begins_with a.now b.now }
{
    if a.len() > b.len() {
        return false;
    }
    for i in 0..a.len() {
        if !same_step(a[i], b[i]) {
            return false;
        }
    }
    true
}

/// What is left of the second path below the first.
pub fn below<'a>(a: &[PathStep], b: &'a [PathStep]) -> Option<&'a [PathStep]>
    ensures some { IfSome result (λ rest. below a.now b.now ≡ Some rest.now) }
    ensures none { IfNone result (below a.now b.now ≡ None) }
{
    if a.len() > b.len() {
        return None;
    }
    if begins_with(a, b) {
        let (_, rest) = b.split_at(a.len());
        Some(rest)
    } else {
        None
    }
}

/// Whether the path is the other two, one behind the other.
pub fn is_joined(whole: &[PathStep], front: &[PathStep], rest: &[PathStep]) -> bool
    ensures { result ≡ same_path (front.now ++ rest.now) whole.now }
{
    if whole.len() < front.len() {
        return false;
    }
    same_path(front, &whole[..front.len()]) && same_path(rest, &whole[front.len()..])
}

/// Whether the path is one of these.
pub fn has_path(path: &[PathStep], paths: &[Path]) -> bool
    ensures { result ≡ has_path path.now paths.now }
{
    for n in 0..paths.len() {
        if same_path(path, paths[n].as_slice()) {
            return true;
        }
    }
    false
}

/// Whether the path leads into an element.
pub fn is_of_element(path: &[PathStep]) -> bool
    ensures { result ≡ is_of_element path.now }
{
    match path {
        [PathStep::Element, ..] => true,
        _ => false,
    }
}

/// Whether the path leads into a captured variable.
pub fn is_of_capture(path: &[PathStep]) -> bool
    ensures { result ≡ is_of_capture path.now }
{
    match path {
        [PathStep::Capture(_), ..] => true,
        _ => false,
    }
}

/// The path without its first step.
pub fn without_first(path: &[PathStep]) -> &[PathStep]
    ensures { result.now ≡ without_first path.now }
{
    match path {
        [_, rest @ ..] => rest,
        _ => path,
    }
}

// Where a step stands among the steps of one place.
fn rank(step: PathStep) -> u64
    ensures { result ≡ rank step }
{
    match step {
        PathStep::Field(n) => u64::from(n),
        PathStep::Element => 4294967296,
        PathStep::Key => 4294967297,
        PathStep::Value => 4294967298,
        PathStep::Channel => 4294967299,
        PathStep::Capture(n) => 4294967300 + u64::from(n),
    }
}

/// Whether a path stands before another, by its first step that differs.
pub fn path_before(a: &[PathStep], b: &[PathStep]) -> bool
    ensures { result ≡ path_before a.now b.now }
{
    for i in 0..a.len() {
        if i >= b.len() {
            return false;
        }
        let s = rank(a[i]);
        let t = rank(b[i]);
        if s < t {
            return true;
        }
        if s != t {
            return false;
        }
    }
    a.len() < b.len()
}
