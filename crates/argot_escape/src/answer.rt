// Which sites escape.
ghost use Rattle.std.specs.Prelude.{◌≡◌, ℕ, [], length, IfOk};
ghost use Rattle.argot_facts.specs.Exact.{ArePoints, AreEscaping, AreEscapingBy};
ghost use Rattle.argot_facts.specs.Handed.{FactsOf};
ghost use Rattle.argot_facts.specs.Marked.{IsSet};
ghost use Rattle.argot_facts.specs.Pointing.{FitsPoints};

use crate::flood::drain;
use crate::found::Found;
use crate::starts::{reach_functions, reach_variables};
use argot_facts::Points;
use argot_links::Queue;
use argot_plain::Program;
use argot_text::Memory;
use std::alloc::Global;

/// No site is found.
pub(crate) fn nothing(alloc: Global, sites: u32) -> Result<Found, Memory>
    ensures count { IfOk result (λ f. length f.flags.items ≡ sites) }
    ensures size { IfOk result (λ f. f.waiting.size ≡ sites) }
    ensures none { IfOk result (λ f. (m : ℕ) → IsSet f.flags.items m → ⊥) }
    ensures empty { IfOk result (λ f. f.waiting.items ≡ []) }
{
    let flags = vec![in alloc; false; sites as usize]?;
    let waiting = Queue::new(alloc, sites)?;
    Ok(Found { flags, waiting })
}

/// By site whether it escapes: by what the tables of points-to have, and by the program where they are exact.
pub fn escapes(alloc: Global, program: &Program, points: &Points) -> Result<Vec<bool>, Memory>
    requires { FitsPoints program.now points.now }
    ensures handed { IfOk result (λ v. AreEscapingBy program.now (FactsOf program.now points.now) v.items) }
    ensures exact { ArePoints program.now points.now → IfOk result (λ v. AreEscaping program.now v.items) }
{
    let Ok(size) = u32::try_from(program.site_count()) else {
        return Err(Memory);
    };
    let mut found = nothing(alloc, size)?;
    reach_variables(program, &mut found);
    reach_functions(program, points, &mut found);
    drain(points, &mut found);
    Ok(found.flags)
}
