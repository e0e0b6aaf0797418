// What references refer to.
ghost use Rattle.std.specs.Prelude.{◌≡◌, ◌↔◌, ℕ, ◌+◌, ◌<◌, ◌^◌, Some, length, slice_get, IsTrue, IfOk, OnOk};
ghost use Rattle.argot_links.specs.Members.{IsAscending};
ghost use Rattle.argot_links.specs.Runs.{run};
ghost use Rattle.argot_links.specs.Table.{row};
ghost use Rattle.argot_plain.specs.Lists.{In};
ghost use Rattle.argot_plain.specs.WellFormed.{WellFormed};
ghost use Rattle.argot_facts.specs.Marked.{IsSet};
ghost use Rattle.argot_facts.specs.Pointing.{Pointing, FitsPoints, HasRows, IsPlaceOf, pointing_of};

use crate::marks::{is_marked, mark};
use crate::nodes::{Node, Nodes};
use argot_links::{RowWalk, Rows, Runs};
use argot_plain::Program;
use argot_text::{Memory, Path};
use std::alloc::Global;
use std::marker::Model;

/// A part of what the objects of a site hold.
#[derive(Drop)]
pub struct Loc {
    /// The site.
    pub site: u32,
    /// The path of the part.
    pub path: Path,
}

/// What may hold a reference.
#[derive(Drop)]
pub enum Spot {
    /// A node.
    Node(Node),
    /// A location.
    Loc(Loc),
}

/// What `Points` is made from.
#[derive(Drop)]
pub struct PointsParts {
    /// The nodes of the program, in node order.
    pub nodes: Vec<Node>,
    /// Its locations, site by site.
    pub locations: Vec<Loc>,
    /// A row for each node and then for each location, with the numbers of the locations to which it refers.
    pub refers: Rows,
    /// The live functions.
    pub live: Vec<u32>,
    /// Calls with their targets.
    pub targets: Vec<(u32, u32)>,
}

/// What nodes and locations refer to, which functions are live, and the targets of calls. All is known by number, and no
/// call takes memory.
#[derive(Drop)]
pub struct Points {
    nodes: Nodes,
    locations: Vec<Loc>,
    refers: Rows,
    live: Vec<u32>,
    targets: Vec<(u32, u32)>,
    by_site: Runs,
    by_place: Runs,
    is_live: Vec<bool>,
}

impl Model for Points {
    ghost use Rattle.argot_facts.specs.Pointing.{Pointing, AreIndexed};

    ghost Value = { Pointing };

    ghost view = { λ x. record { nodes = x.nodes; locations = x.locations.items; rows = x.refers; live = x.live.items; targets = x.targets.items } };

    ghost invariant = { λ x. AreIndexed (record { nodes = x.nodes; locations = x.locations.items; rows = x.refers; live = x.live.items; targets = x.targets.items }) x.by_site x.by_place x.is_live.items };
}

/// The numbers of the locations by their sites.
fn by_site(alloc: Global, locations: &[Loc], sites: u32) -> Result<Runs, Memory>
    requires inside { (y s : ℕ) → IsPlaceOf locations.now s y → s < sites }
    requires few { length locations.now < 2 ^ 32 }
    ensures { IfOk result (λ r. (s y : ℕ) → In y (run r s) ↔ IsPlaceOf locations.now s y) }
{
    let mut pairs = Vec::new(alloc);
    for y in 0..locations.len() {
        pairs.push((locations[y].site, y as u32))?;
    }
    Runs::of(alloc, sites, &pairs)
}

/// The targets by their places.
fn by_place(alloc: Global, targets: &[(u32, u32)], places: u32) -> Result<Runs, Memory>
    requires { (i target : ℕ) → In (i, target) targets.now → i < places }
    ensures { IfOk result (λ r. (i target : ℕ) → In target (run r i) ↔ In (i, target) targets.now) }
{
    if targets.len() > u32::MAX as usize {
        return Err(Memory);
    }
    Runs::of(alloc, places, targets)
}

/// Which functions stand in the list.
fn flags_of(alloc: Global, live: &[u32], functions: usize) -> Result<Vec<bool>, Memory>
    requires { (h : ℕ) → In h live.now → h < functions }
    ensures { IfOk result (λ v. (h : ℕ) → IsSet v.items h ↔ In h live.now) }
{
    let mut flags = vec![in alloc; false; functions]?;
    for function in live {
        mark(&mut flags, *function as usize);
    }
    Ok(flags)
}

impl Points {
    /// Points-to of the program, of these parts.
    pub fn from_parts(
        alloc: Global,
        parts: PointsParts,
        program: &Program,
    ) -> Result<Points, Memory>
        requires { FitsPoints program.now (pointing_of parts) }
        ensures { IfOk result (λ x. x ≡ pointing_of parts) }
    {
        let Ok(sites) = u32::try_from(program.site_count()) else {
            return Err(Memory);
        };
        let by_site = by_site(alloc, &parts.locations, sites)?;
        let by_place = by_place(alloc, &parts.targets, program.len() as u32)?;
        let is_live = flags_of(alloc, &parts.live, program.function_count())?;
        Ok(Points {
            nodes: Nodes::from_vec(parts.nodes),
            locations: parts.locations,
            refers: parts.refers,
            live: parts.live,
            targets: parts.targets,
            by_site,
            by_place,
            is_live,
        })
    }

    /// The nodes.
    pub fn nodes(&self) -> &Nodes
        ensures nodes { result.now ≡ self.now.nodes }
        ensures rows { HasRows self.now }
    {
        &self.nodes
    }

    /// How many locations there are.
    pub fn location_count(&self) -> usize
        ensures count { result ≡ length self.now.locations }
        ensures rows { HasRows self.now }
    {
        self.locations.len()
    }

    /// The location of a number.
    pub fn location(&self, number: u32) -> &Loc
        requires { number < length self.now.locations }
        ensures { slice_get self.now.locations number ≡ Some result.now }
    {
        &self.locations[number as usize]
    }

    /// The numbers of the locations of a site.
    pub fn locations_of(&self, site: u32) -> &[u32]
        ensures { (y : ℕ) → In y result.now ↔ IsPlaceOf self.now.locations site y }
    {
        if (site as usize) < self.by_site.len() {
            return self.by_site.run(site);
        }
        &[]
    }

    /// The numbers of the locations to which a node refers, ascending.
    pub fn refers(&self, node: u32) -> RowWalk<'_>
        requires { node < length self.now.nodes }
        ensures all { result ≡ row self.now.rows node }
        ensures ascending { IsAscending (row self.now.rows node) }
    {
        self.refers.walk(node)
    }

    /// The numbers of the locations to which a location refers, ascending.
    pub fn refers_at(&self, location: u32) -> RowWalk<'_>
        requires { location < length self.now.locations }
        ensures all { result ≡ row self.now.rows (length self.now.nodes + location) }
        ensures ascending { IsAscending (row self.now.rows (length self.now.nodes + location)) }
    {
        self.refers.walk(self.nodes.len() as u32 + location)
    }

    /// The live functions, ascending.
    pub fn live(&self) -> &[u32]
        ensures { result.now ≡ self.now.live }
    {
        self.live.as_slice()
    }

    /// Whether a function is live.
    pub fn is_live(&self, function: u32) -> bool
        ensures { IsTrue result ↔ In function self.now.live }
    {
        is_marked(&self.is_live, function as usize)
    }

    /// Calls with their targets, in order.
    pub fn targets(&self) -> &[(u32, u32)]
        ensures { result.now ≡ self.now.targets }
    {
        self.targets.as_slice()
    }

    /// The targets of a place.
    pub fn targets_of(&self, place: u32) -> &[u32]
        ensures { (target : ℕ) → In target result.now ↔ In (place, target) self.now.targets }
    {
        if (place as usize) < self.by_place.len() {
            return self.by_place.run(place);
        }
        &[]
    }
}
