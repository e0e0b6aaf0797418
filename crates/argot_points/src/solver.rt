// The solver of a program: its numbers, its rules, and the tables that keep them.
ghost use Rattle.std.specs.Prelude.{◌≡◌, [], IfOk, IfErr};
ghost use Rattle.argot_facts.specs.Exact.{AreDefs};
ghost use Rattle.argot_points.specs.Found.{IsExact, AreRead, AreTargetsOf};
ghost use Rattle.argot_points.specs.Solving.{HasFew, HasMany};

use crate::aiming::targets_of;
use crate::passes::saturate;
use crate::reading::{are_below, first_row};
use crate::system::{System, Tables};
use crate::uses::uses_of;
use crate::worklist::settle;
use argot_facts::{Defs, Points, PointsParts};
use argot_links::{Chains, Queue, Rows};
use argot_plain::Program;
use argot_points_rules::{PointsFault, list_locations, list_nodes, rules_of};
use argot_text::Memory;
use std::alloc::Global;
use std::marker::Model;

/// The points-to relation of a program (after Andersen), with the memory in which it is found. Contracts see what is
/// found so far: nothing at first.
#[derive(Drop)]
pub struct Solver<'a> {
    system: System<'a>,
    uses: Chains,
    tables: Tables,
}

impl<'a> Model for Solver<'a> {
    ghost use Rattle.argot_points.specs.Found.{Found};
    ghost use Rattle.argot_points.specs.Reading.{found_of};
    ghost use Rattle.argot_points.specs.Solving.{IsReady};

    ghost Value = { Found };

    ghost view = { λ v. found_of v.system v.tables };

    ghost invariant = { λ v. IsReady v.system v.tables v.uses.lists };
}

impl<'a> Solver<'a> {
    /// The solver of a program with exactly its definitions. Takes all memory. Faults stand in the order of the limits.
    pub fn new(alloc: Global, program: &'a Program, defs: &Defs) -> Result<Solver<'a>, PointsFault>
        requires { AreDefs program.now defs.now }
        ensures nothing { IfOk result (λ v. v ≡ record { program = program.now; refers = []; live = [] }) }
        ensures few { IfOk result (λ v. HasFew program.now) }
        ensures fault { IfErr result (HasMany program.now) }
    {
        let nodes = match list_nodes(alloc, program) {
            Ok(nodes) => nodes,
            Err(fault) => return Err(fault),
        };
        let locations = match list_locations(alloc, program) {
            Ok(locations) => locations,
            Err(PointsFault::Memory) => return Err(PointsFault::Memory),
            Err(_) => return Err(PointsFault::Locations),
        };
        let rows = nodes.len() + locations.len();
        if rows * locations.len() > 4294967296 {
            return Err(PointsFault::Table);
        }
        let Ok(rules) = rules_of(alloc, program, defs.as_slice()) else {
            return Err(PointsFault::Memory);
        };
        let Ok(refers) = Rows::new(alloc, rows as u32, locations.len() as u32) else {
            return Err(PointsFault::Memory);
        };
        let Ok(live) = Rows::new(alloc, 1, program.function_count() as u32) else {
            return Err(PointsFault::Memory);
        };
        let Ok(grown) = Queue::new(alloc, rows as u32 + program.function_count() as u32) else {
            return Err(PointsFault::Memory);
        };
        let system = System {
            program,
            nodes,
            locations,
            rules,
        };
        let Ok(uses) = uses_of(alloc, &system) else {
            return Err(PointsFault::Memory);
        };
        Ok(Solver {
            system,
            uses,
            tables: Tables {
                refers,
                live,
                grown,
            },
        })
    }

    /// Finds the relation: what nodes and locations refer to, which functions are live, and whom calls call. No memory.
    pub fn run(&mut self)
        ensures program { self.new.program ≡ self.old.program }
        ensures exact { IsExact self.new }
    {
        settle(&self.system, &self.uses, &mut self.tables);
    }

    /// The same by following each rule in passes, which may take longer. No memory.
    pub fn run_by_passes(&mut self)
        ensures program { self.new.program ≡ self.old.program }
        ensures exact { IsExact self.new }
    {
        saturate(&self.system, &mut self.tables);
    }

    /// What is found so far, in the table in which it was found. Err is want of memory.
    pub fn points(self, alloc: Global) -> Result<Points, Memory>
        ensures { IfOk result (AreRead self.entry) }
    {
        let live = first_row(alloc, &self.tables.live)?;
        let targets = self.targets(alloc)?;
        let system = self.system;
        let tables = self.tables;
        let program = system.program;
        if !are_below(&live, program.function_count()) {
            return Err(Memory);
        }
        let parts = PointsParts {
            nodes: system.nodes,
            locations: system.locations,
            refers: tables.refers,
            live,
            targets,
        };
        let points = Points::from_parts(alloc, parts, program)?;
        Ok(points)
    }

    /// The targets that are found so far, place by place.
    fn targets(&self, alloc: Global) -> Result<Vec<(u32, u32)>, Memory>
        ensures { IfOk result (λ v. AreTargetsOf self.now v.items) }
    {
        let found = targets_of(alloc, &self.system, &self.tables)?;
        Ok(found)
    }
}
