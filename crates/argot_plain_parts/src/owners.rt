// Sites beside the functions and the instructions that have them, both walked in order.
ghost use Rattle.std.specs.Prelude.{◌≡◌, ◌+◌, drop, length, slice_get};
ghost use Rattle.argot_plain.specs.Code.{kind_of};
ghost use Rattle.argot_plain_parts.specs.Sites.{items_fit, has_leaf, fits_function, from_place, fits_first, owned_fit, from_site, stands_at, is_grow, grows_fit};

use crate::functions::leaves_of;
use crate::leaves::same_elements;
use argot_plain::{Function, Instr, Kind, Site};
use argot_text::Path;

fn items_fit(f: &Function, shape: &[Path], items: &[u32]) -> bool
    ensures { result ≡ items_fit f.now shape.now items.now }
{
    for i in 0..items.len() {
        if !same_elements(leaves_of(f, items[i]), shape) {
            return false;
        }
    }
    true
}

fn has_leaf(f: &Function, leaf: u32, to: &[u32], number: u32) -> bool
    ensures { result ≡ has_leaf f.now leaf (slice_get to.now number) }
{
    if number as usize >= to.len() {
        return false;
    }
    (leaf as usize) < leaves_of(f, to[number as usize]).len()
}

fn fits_function(site: &Site, instrs: &[Instr], f: &Function) -> bool
    ensures { result ≡ fits_function site.now (kind_of (slice_get instrs.now site.now.place)) f.now }
{
    let place = site.place as usize;
    if place >= instrs.len() {
        return true;
    }
    match &instrs[place].kind {
        Kind::Grow { items, .. } => items_fit(f, site.shape.as_slice(), items.as_slice()),
        Kind::Call { to, .. } => has_leaf(f, site.leaf, to.as_slice(), site.result),
        _ => true,
    }
}

// The functions from the one on that ends at the place or behind it.
fn from_place<'a>(place: u32, functions: &'a [Function]) -> &'a [Function]
    ensures { result.now ≡ from_place place functions.now }
{
    for i in 0..functions.len() {
        if functions[i].leave >= place {
            let (_, rest) = functions.split_at(i);
            return rest;
        }
    }
    &[]
}

fn fits_first(instrs: &[Instr], site: &Site, functions: &[Function]) -> bool
    ensures { result ≡ fits_first instrs.now site.now functions.now }
{
    match functions {
        [f, ..] => f.entry <= site.place && fits_function(site, instrs, f),
        _ => false,
    }
}

/// Whether each site goes with the registers of the function that has its place.
pub fn owned_fit(instrs: &[Instr], functions: &[Function], sites: &[Site]) -> bool
    ensures { result ≡ owned_fit instrs.now functions.now sites.now }
{
    let mut rest = functions;
    for i in 0..sites.len() {
        rest = from_place(sites[i].place, rest);
        if !fits_first(instrs, &sites[i], rest) {
            return false;
        }
    }
    true
}

// The sites from the one on that stands at the place or behind it.
fn from_site<'a>(place: usize, sites: &'a [Site]) -> &'a [Site]
    ensures { result.now ≡ from_site place sites.now }
{
    for i in 0..sites.len() {
        if sites[i].place as usize >= place {
            let (_, rest) = sites.split_at(i);
            return rest;
        }
    }
    &[]
}

fn stands_at(place: usize, sites: &[Site]) -> bool
    ensures { result ≡ stands_at place sites.now }
{
    match sites {
        [site, ..] => site.place as usize == place,
        _ => false,
    }
}

fn is_grow(kind: &Kind) -> bool
    ensures { result ≡ is_grow kind.now }
{
    matches!(kind, Kind::Grow { .. })
}

/// Whether each Grow has a site.
pub fn grows_fit(instrs: &[Instr], sites: &[Site]) -> bool
    ensures { result ≡ grows_fit 0 instrs.now sites.now }
{
    let mut rest = sites;
    for i in 0..instrs.len() {
        rest = from_site(i, rest);
        if is_grow(&instrs[i].kind) && !stands_at(i, rest) {
            return false;
        }
    }
    true
}
