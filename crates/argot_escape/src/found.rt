// The sites that are found to escape, and those of them that wait to be looked at.
ghost use Rattle.std.specs.Prelude.{◌≡◌, ◌<◌, length};
ghost use Rattle.argot_facts.specs.Pointing.{IsPlaceOf};
ghost use Rattle.argot_escape.specs.Flooding.{Finds, IsReady, AreAt};

use argot_facts::{Points, is_marked, mark};
use argot_links::{Queue, RowWalk};

/// By site whether it is found to escape, and the sites that wait.
#[derive(Drop)]
pub(crate) struct Found {
    pub flags: Vec<bool>,
    pub waiting: Queue,
}

/// Finds a site.
pub(crate) fn reach(found: &mut Found, site: u32)
    requires inside { site < length found.old.flags.items }
    requires size { found.old.waiting.size ≡ length found.old.flags.items }
    ensures { Finds (λ m. m ≡ site) found.old found.new }
{
    if is_marked(&found.flags, site as usize) {
        return;
    }
    mark(&mut found.flags, site as usize);
    found.waiting.put(site);
}

/// Finds the site of a location.
fn reach_location(points: &Points, found: &mut Found, y: u32)
    requires { IsReady points.now.locations found.old }
    ensures { Finds (λ m. IsPlaceOf points.now.locations m y) found.old found.new }
{
    if (y as usize) < points.location_count() {
        reach(found, points.location(y).site);
    }
}

/// Finds the sites of the locations of a row.
pub(crate) fn reach_row(points: &Points, found: &mut Found, row: RowWalk<'_>)
    requires { IsReady points.now.locations found.old }
    ensures { Finds (AreAt points.now.locations row.entry) found.old found.new }
{
    for y in row {
        reach_location(points, found, y);
    }
}
