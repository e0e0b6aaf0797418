// What the lines of a report look at.
ghost use Rattle.std.specs.Prelude.{◌≡◌, IfOk};
ghost use Rattle.argot_report.specs.Counted.{FitsCalls, IsSubject, told};

use crate::naming::{Naming, namings_of};
use argot_facts::Findings;
use argot_links::Runs;
use argot_plain::{Problem, Program};
use argot_text::Memory;
use std::alloc::Global;

/// A program with what is asked and found of it, the targets of its calls by place, and the problems with their tables.
#[derive(Drop)]
pub(crate) struct Subject<'a> {
    pub program: &'a Program,
    pub problems: &'a [Problem],
    pub findings: &'a Findings,
    pub targets: Runs,
    pub namings: Vec<Naming<'a>>,
}

impl<'a> Subject<'a> {
    /// What a report looks at.
    pub(crate) fn of(
        alloc: Global,
        program: &'a Program,
        problems: &'a [Problem],
        findings: &'a Findings,
    ) -> Result<Subject<'a>, Memory>
        requires { FitsCalls program.now findings.now.targets }
        ensures told { IfOk result (λ s. told s ≡ record { program = program.now; problems = problems.now; found = findings.now }) }
        ensures subject { IfOk result IsSubject }
    {
        let namings = namings_of(alloc, program, problems)?;
        let targets = Runs::of(alloc, program.len() as u32, findings.targets.as_slice())?;
        Ok(Subject {
            program,
            problems,
            findings,
            targets,
            namings,
        })
    }
}
