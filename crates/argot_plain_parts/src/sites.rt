// Sites: where they stand, in which order, and what they hold.
ghost use Rattle.std.specs.Prelude.{◌≡◌, ◌+◌, ◌<◌, ◌^◌, drop, length, slice_get};
ghost use Rattle.argot_plain.specs.Code.{kind_of};
ghost use Rattle.argot_plain_parts.specs.Sites.{stands_before, before_next, in_order, is_single, is_external, may_own, is_made_by, captures_fit, shape_fits, site_fits, sites_fit, is_of_global, globals_fit};

use crate::leaves::{are_of_captures, are_of_elements, no_path_twice};
use argot_plain::{Callee, Function, Ident, Instr, Kind, Site};
use argot_text::{Path, Pos};

fn stands_before(a: &Site, b: &Site) -> bool
    ensures { result ≡ stands_before a.now b.now }
{
    a.place < b.place
        || (a.place == b.place
            && (a.result < b.result || (a.result == b.result && a.leaf < b.leaf)))
}

fn before_next(site: &Site, rest: &[Site]) -> bool
    ensures { result ≡ before_next site.now rest.now }
{
    match rest {
        [next, ..] => stands_before(site, next),
        _ => true,
    }
}

/// Whether each of the sites stands before the next.
pub fn in_order(sites: &[Site]) -> bool
    ensures { result ≡ in_order sites.now }
{
    for i in 0..sites.len() {
        if !before_next(&sites[i], &sites[i + 1..]) {
            return false;
        }
    }
    true
}

fn is_single(site: &Site) -> bool
    ensures { result ≡ is_single site.now }
{
    site.result == 0 && site.leaf == 0
}

fn is_external(functions: &[Function], number: u32) -> bool
    ensures { result ≡ is_external (slice_get functions.now number) }
{
    if number as usize >= functions.len() {
        return false;
    }
    functions[number as usize].external.is_some()
}

fn may_own(functions: &[Function], callee: &Callee) -> bool
    ensures { result ≡ may_own functions.now callee.now }
{
    match callee {
        Callee::Static(number) => is_external(functions, *number),
        Callee::Value(_) => true,
        Callee::Method(_, _) => false,
    }
}

fn is_made_by(functions: &[Function], n: usize, site: &Site, instrs: &[Instr]) -> bool
    ensures { result ≡ is_made_by functions.now n site.now (kind_of (slice_get instrs.now site.now.place)) }
{
    let place = site.place as usize;
    if place >= instrs.len() {
        return false;
    }
    match &instrs[place].kind {
        Kind::New { site: s, .. } => *s as usize == n && is_single(site),
        Kind::Grow { .. } => {
            site.function.is_none() && is_single(site) && are_of_elements(site.shape.as_slice())
        }
        Kind::Call { callee, .. } => site.function.is_none() && may_own(functions, callee),
        _ => false,
    }
}

fn captures_fit(shape: &[Path], functions: &[Function], number: u32) -> bool
    ensures { result ≡ captures_fit shape.now (slice_get functions.now number) }
{
    if number as usize >= functions.len() {
        return false;
    }
    are_of_captures(shape) && (functions[number as usize].has_env || shape.len() == 0)
}

fn shape_fits(functions: &[Function], shape: &[Path], function: Option<u32>) -> bool
    ensures { result ≡ shape_fits functions.now shape.now function }
{
    match function {
        None => shape.len() <= 8192,
        Some(number) => captures_fit(shape, functions, number),
    }
}

fn site_fits(functions: &[Function], instrs: &[Instr], n: usize, site: &Site) -> bool
    ensures { result ≡ site_fits functions.now instrs.now n site.now }
{
    is_made_by(functions, n, site, instrs)
        && shape_fits(functions, site.shape.as_slice(), site.function)
        && no_path_twice(site.shape.as_slice())
}

/// Whether the sites, the first of which has the number `first`, are what sites of instructions are.
pub fn sites_fit(functions: &[Function], instrs: &[Instr], first: usize, sites: &[Site]) -> bool
    requires { first + length sites.now < 2 ^ 64 }
    ensures { result ≡ sites_fit functions.now instrs.now first sites.now }
{
    for k in 0..sites.len() {
        if !site_fits(functions, instrs, first + k, &sites[k]) {
            return false;
        }
    }
    true
}

fn is_of_global(sites: &[Site], k: usize) -> bool
    ensures { result ≡ is_of_global (slice_get sites.now k) }
{
    if k >= sites.len() {
        return false;
    }
    let site = &sites[k];
    site.place == 0
        && is_single(site)
        && site.function.is_none()
        && site.shape.len() <= 8192
        && no_path_twice(site.shape.as_slice())
}

/// Whether the package variables have the sites of their numbers.
pub fn globals_fit(files: usize, sites: &[Site], globals: &[(Ident, Pos, u32)]) -> bool
    ensures { result ≡ globals_fit files sites.now 0 globals.now }
{
    for k in 0..globals.len() {
        let x = &globals[k];
        if x.2 as usize != k || x.1.file as usize >= files || !is_of_global(sites, k) {
            return false;
        }
    }
    true
}
