// What escaping sites lead to.
ghost use Rattle.std.specs.Prelude.{◌≡◌, ◌<◌, ℕ, length};
ghost use Rattle.argot_facts.specs.Marked.{IsSet};
ghost use Rattle.argot_escape.specs.Flooding.{Finds, IsReady, LeadsTo, PlaceLeadsTo, AreLed, AreSet, FoundBy};

use crate::found::{Found, reach_row};
use argot_facts::Points;

/// Finds the sites to which a location refers.
fn visit_place(points: &Points, found: &mut Found, z: u32)
    requires ready { IsReady points.now.locations found.old }
    requires inside { z < length points.now.locations }
    ensures { Finds (PlaceLeadsTo points.now z) found.old found.new }
{
    reach_row(points, found, points.refers_at(z));
}

/// Finds the sites to which the locations of a site refer.
fn visit(points: &Points, found: &mut Found, site: u32)
    requires { IsReady points.now.locations found.old }
    ensures { Finds (LeadsTo points.now site) found.old found.new }
{
    let places = points.locations_of(site);
    for z in places {
        visit_place(points, found, *z);
    }
}

/// Looks at the sites that wait, until none does.
pub(crate) fn drain(points: &Points, found: &mut Found)
    requires ready { IsReady points.now.locations found.old }
    requires led { AreLed points.now found.old }
    requires set { AreSet found.old }
    ensures count { length found.new.flags.items ≡ length found.old.flags.items }
    ensures kept { (m : ℕ) → IsSet found.old.flags.items m → IsSet found.new.flags.items m }
    ensures closed { (s m : ℕ) → IsSet found.new.flags.items s → LeadsTo points.now s m → IsSet found.new.flags.items m }
    ensures only { (m : ℕ) → IsSet found.new.flags.items m → FoundBy points.now (IsSet found.old.flags.items) m }
{
    'sites: loop {
        match found.waiting.take() {
            Some(site) => visit(points, found, site),
            None => return,
        }
    }
}
