// Lists of leaf paths.
ghost use Rattle.std.specs.Prelude.{◌≡◌, ◌++◌, drop, length, true, false, IfSome, IfNone};
ghost use Rattle.argot_plain.specs.Lists.{has_path, below};
ghost use Rattle.argot_plain_parts.specs.Leaves.{same_paths, is_root, are_of_elements, are_of_captures, same_elements, are_joined, no_path_twice, is_next, behind_next, same_below, before_first, are_ascending};

use crate::paths::{
    below, has_path, is_joined, is_of_capture, is_of_element, path_before, same_path, without_first,
};
use argot_text::{Path, PathStep};

/// Whether two lists have the same paths in the same order.
pub fn same_paths(a: &[Path], b: &[Path]) -> bool
    ensures { result ≡ same_paths a.now b.now }
{
    if a.len() != b.len() {
        return false;
    }
    for i in 0..a.len() {
        if !same_path(a[i].as_slice(), b[i].as_slice()) {
            return false;
        }
    }
    true
}

/// Whether the empty path is the only one.
pub fn is_root(paths: &[Path]) -> bool
    ensures { result ≡ is_root paths.now }
{
    match paths {
        [path] => path.len() == 0,
        _ => false,
    }
}

/// Whether each path leads into an element.
pub fn are_of_elements(paths: &[Path]) -> bool
    ensures { result ≡ are_of_elements paths.now }
{
    for i in 0..paths.len() {
        if !is_of_element(paths[i].as_slice()) {
            return false;
        }
    }
    true
}

/// Whether each path leads into a captured variable.
pub fn are_of_captures(paths: &[Path]) -> bool
    ensures { result ≡ are_of_captures paths.now }
{
    for i in 0..paths.len() {
        if !is_of_capture(paths[i].as_slice()) {
            return false;
        }
    }
    true
}

/// Whether the first list has the paths of the second without their first steps.
pub fn same_elements(a: &[Path], b: &[Path]) -> bool
    ensures { result ≡ same_elements a.now b.now }
{
    if a.len() != b.len() {
        return false;
    }
    for i in 0..a.len() {
        if !same_path(a[i].as_slice(), without_first(b[i].as_slice())) {
            return false;
        }
    }
    true
}

// Whether the two paths, one behind the other, stand in the list.
fn has_joined(front: &[PathStep], rest: &[PathStep], whole: &[Path]) -> bool
    ensures { result ≡ has_path (front.now ++ rest.now) whole.now }
{
    for i in 0..whole.len() {
        if is_joined(whole[i].as_slice(), front, rest) {
            return true;
        }
    }
    false
}

/// Whether each of the paths stands behind the front in the whole list.
pub fn are_joined(front: &[PathStep], paths: &[Path], whole: &[Path]) -> bool
    ensures { result ≡ are_joined front.now paths.now whole.now }
{
    for i in 0..paths.len() {
        if !has_joined(front, paths[i].as_slice(), whole) {
            return false;
        }
    }
    true
}

// Whether the path stands before the first of these.
fn before_first(path: &[PathStep], paths: &[Path]) -> bool
    ensures { result ≡ before_first path.now paths.now }
{
    match paths {
        [first, ..] => path_before(path, first.as_slice()),
        _ => true,
    }
}

// Whether each path stands before the next.
fn are_ascending(paths: &[Path]) -> bool
    ensures { result ≡ are_ascending paths.now }
{
    for i in 0..paths.len() {
        if !before_first(paths[i].as_slice(), &paths[i + 1..]) {
            return false;
        }
    }
    true
}

// The same as `no_path_twice`, by comparing all pairs.
fn no_pair_is_same(paths: &[Path]) -> bool
    ensures { result ≡ no_path_twice paths.now }
{
    for i in 0..paths.len() {
        if has_path(paths[i].as_slice(), &paths[i + 1..]) {
            return false;
        }
    }
    true
}

/// Whether no path of the list stands in it again. Pairs are compared only where the paths don't ascend.
pub fn no_path_twice(paths: &[Path]) -> bool
    ensures { result ≡ no_path_twice paths.now }
{
    if are_ascending(paths) {
        true
    } else {
        no_pair_is_same(paths)
    }
}

// The paths behind the next one, which has to be what is left of the leaf below the path; all of them where nothing is left.
fn behind_next<'a>(path: &[PathStep], leaf: &[PathStep], paths: &'a [Path]) -> Option<&'a [Path]>
    ensures some { IfSome result (λ rest. (is_next (below path.now leaf.now) paths.now ≡ true) × (rest.now ≡ behind_next (below path.now leaf.now) paths.now)) }
    ensures none { IfNone result (is_next (below path.now leaf.now) paths.now ≡ false) }
{
    match below(path, leaf) {
        None => Some(paths),
        Some(left) => match paths {
            [next, rest @ ..] => {
                if same_path(left, next.as_slice()) {
                    Some(rest)
                } else {
                    None
                }
            }
            _ => None,
        },
    }
}

/// Whether the second list has what is left of the paths of the first below the path.
pub fn same_below(path: &[PathStep], from: &[Path], to: &[Path]) -> bool
    ensures { result ≡ same_below path.now from.now to.now }
{
    let mut rest = to;
    for i in 0..from.len() {
        match behind_next(path, from[i].as_slice(), rest) {
            Some(behind) => rest = behind,
            None => return false,
        }
    }
    rest.len() == 0
}
