// The list of all locations.
ghost use Rattle.std.specs.Prelude.{◌≡◌, ℕ, ◌+◌, ◌<◌, ◌≤◌, ◌++◌, map, Some, ◌⊎◌, length, slice_get, OnOk, IfOk, IfErr};
ghost use Rattle.argot_plain.specs.declared.sites.Site.{Site as Sites};
ghost use Rattle.argot_facts.specs.Numbers.{location, paths_of};
ghost use Rattle.argot_points_rules.specs.Listing.{ListsLocations, LacksLocations};
ghost use Rattle.argot_points_rules.specs.declared.rules.PointsFault.TheVariants.{Locations, Memory as OutOfMemory};

use crate::nodes::small;
use crate::paths::paths_of;
use crate::rules::PointsFault;
use argot_facts::Loc;
use argot_plain::{Program, Site};
use argot_text::{Memory, Path};
use std::alloc::Global;

/// The greatest number of locations.
const MOST_LOCATIONS: usize = 65_536;

/// Adds these paths of the site.
fn push_paths(locations: &mut Vec<Loc>, site: u32, paths: Vec<Path>) -> Result<(), Memory>
    ensures { OnOk result (locations.new.items ≡ locations.old.items ++ map (location site) paths.items) }
{
    for path in paths {
        locations.push(Loc { site, path })?;
    }
    Ok(())
}

/// Adds the locations of a site, unless there are too many.
fn push_site(
    alloc: Global,
    locations: &mut Vec<Loc>,
    number: usize,
    site: &Site,
) -> Result<(), PointsFault>
    ensures locations { OnOk result (locations.new.items ≡ locations.old.items ++ map (location number) (paths_of site.now)) }
    ensures few { OnOk result (length locations.new.items ≤ 65536) }
    ensures many { IfErr result (λ e. e ≡ Locations → 65536 < length (locations.old.items ++ map (location number) (paths_of site.now))) }
    ensures only { IfErr result (λ e. (e ≡ Locations) ⊎ (e ≡ OutOfMemory)) }
{
    let paths = paths_of(alloc, site)?;
    push_paths(locations, small(number)?, paths)?;
    if locations.len() > MOST_LOCATIONS {
        return Err(PointsFault::Locations);
    }
    Ok(())
}

/// All locations of the program, site by site.
pub fn list_locations(alloc: Global, program: &Program) -> Result<Vec<Loc>, PointsFault>
    ensures locations { IfOk result (λ v. ListsLocations program.now v.items) }
    ensures fault { IfErr result (LacksLocations program.now) }
{
    let mut locations = Vec::new(alloc);
    for s in 0..program.site_count() {
        match push_site(alloc, &mut locations, s, program.site(s)) {
            Ok(()) => {}
            Err(fault) => return Err(fault),
        }
    }
    Ok(locations)
}
