// The reports of a program, as a reference program prints them, and one at the limit of its length.
use crate::{Command, ReportFault, fits, report};
use argot_facts::{EscapePair, Findings, Flow, Hop, HopKind, Node, Origin, Trace};
use argot_plain::{Problem, Program};
use argot_plain_parts::{Parts, program_of};
use argot_plain_text::read_parts;
use argot_text::{Memory, Pos, Sequence, Text};
use std::alloc::Global;
use std::test::Fail;

// The plain code of
//
//     type Box struct{ v string }
//     var kept string
//     func source() string { return "secret" }
//     func sink(x string)  {}
//     func fill(b *Box) { b.v = source() }
//     func main() {
//         b := &Box{}
//         go fill(b)
//         sink(b.v)
//         kept = source()
//     }
const PROGRAM: &str = "file main.go
function entry 0 3 4 0 0 own - - - -
  goto 1
  branch 2
  call = f4
  rundefers
  leave
function main.source 5 9 10 0 1 own - - - main::source - -
  goto 6
  op 1
  move 0 1 -
  goto 9
  rundefers
  leave 0
function main.sink 11 12 13 1 0 own - - - main::sink -
  goto 12
  rundefers
  leave
function main.fill 14 18 19 1 0 own - - - main::fill - - -
  goto 15
  step 1 0 f0
  call 2 = f1
  write 1 2
  rundefers
  leave
function main.main 20 32 33 0 0 own - - - main::main - f0 - - - - -
  goto 21
  join 1
  new 2 1
  write 2 1
  move 0 2 -
  go f3 0
  step 3 0 f0
  tag field main:Box:v
  read 4 3 -
  call = f2 4
  global 5 0
  call 6 = f1
  write 5 6
  rundefers
  leave
site 0 0 0 - 22 -
site 22 0 0 f0 31 -
variable main::kept 0
";

// The lines and columns of its places.
const PLACES: [(u32, u32); 34] = [
    (12, 6),
    (12, 6),
    (12, 6),
    (12, 6),
    (12, 6),
    (7, 6),
    (7, 31),
    (7, 24),
    (7, 24),
    (7, 40),
    (7, 40),
    (8, 6),
    (8, 23),
    (8, 23),
    (10, 6),
    (10, 21),
    (10, 27),
    (10, 21),
    (10, 36),
    (10, 36),
    (12, 6),
    (13, 8),
    (13, 7),
    (13, 7),
    (13, 2),
    (14, 2),
    (15, 7),
    (15, 7),
    (15, 2),
    (16, 2),
    (16, 9),
    (16, 2),
    (17, 1),
    (17, 1),
];

const TAINT: &str = "flow p: main.go:10:27 main.source -> main.go:15:2 main.sink arg 0
  start main.go:10:27 main.fill
  plain main.go:10:21 main.fill
  reset main.go:15:7 main.main
  plain main.go:15:2 main.main
escape p: main.go:10:27 main.source -> main.go:13:7 in main.main
escape p: main.go:16:9 main.source -> main.go:5:5 global main.kept
1 flows, 2 escapes
";

const BACKTRACE: &str = "origin p: main.go:7:31 in main.source -> main.go:15:2 main.sink arg 0
  start main.go:7:31 main.source
  plain main.go:7:24 main.source
  plain main.go:7:40 main.source
  return main.go:10:27 main.fill
  plain main.go:10:21 main.fill
  reset main.go:15:7 main.main
  plain main.go:15:2 main.main
origin p: main.go:13:8 in main.main -> main.go:15:2 main.sink arg 0
  start main.go:13:8 main.main
  plain main.go:13:7 main.main
  reset main.go:15:7 main.main
  plain main.go:15:2 main.main
origin p: main.go:13:7 in main.main -> main.go:15:2 main.sink arg 0
  start main.go:13:7 main.main
  plain main.go:13:2 main.main
  plain main.go:15:7 main.main
  plain main.go:15:7 main.main
  plain main.go:15:2 main.main
3 origins
";

const ESCAPE: &str = "escape main.go:13:7 in main.main
1 escaping objects
";

// The program with its positions.
fn program(alloc: Global) -> Result<Option<Program>, Memory> {
    let Some(parts) = read_parts(alloc, PROGRAM)? else {
        return Ok(None);
    };
    let Parts {
        functions,
        instrs,
        sites,
        globals,
        methods,
        implements,
        files,
    } = parts;
    let mut instrs = instrs.into_vec();
    for (instr, at) in instrs.iter_mut().zip(PLACES.iter()) {
        instr.at = position(*at);
    }
    let mut globals = globals.into_vec();
    for global in &mut globals {
        global.1 = position((5, 5));
    }
    Ok(program_of(Parts {
        functions,
        instrs: Sequence::from_vec(instrs),
        sites,
        globals: Sequence::from_vec(globals),
        methods,
        implements,
        files,
    }))
}

fn position(at: (u32, u32)) -> Pos {
    Pos {
        file: 0,
        line: at.0,
        col: at.1,
    }
}

// `source` is a source, `sink` a sink and a point.
fn problem(alloc: Global) -> Result<Problem, Memory> {
    Ok(Problem {
        number: 0,
        name: Text::from_str(alloc, "p")?,
        sources: Sequence::from_vec(vec![in alloc; 1]?),
        sinks: Sequence::from_vec(vec![in alloc; 2]?),
        sanitizers: Sequence::from_vec(Vec::new(alloc)),
        validators: Sequence::from_vec(Vec::new(alloc)),
        points: Sequence::from_vec(vec![in alloc; 2]?),
        source_places: Sequence::from_vec(Vec::new(alloc)),
        escapes: true,
    })
}

fn nodes(alloc: Global) -> Result<Sequence<Node>, Memory> {
    let mut nodes = Vec::new(alloc);
    for place in [
        6, 7, 10, 11, 14, 15, 16, 17, 21, 22, 23, 24, 25, 26, 27, 28, 29, 30, 31,
    ] {
        nodes.push(Node {
            place,
            index: 0,
            leaf: 0,
        })?;
    }
    Ok(Sequence::from_vec(nodes))
}

fn trace(alloc: Global, hops: &[(HopKind, u32)]) -> Result<Trace, Memory> {
    let mut trace = Vec::new(alloc);
    for hop in hops {
        trace.push(Hop {
            kind: hop.0,
            node: hop.1,
        })?;
    }
    Ok(Sequence::from_vec(trace))
}

fn flows(alloc: Global) -> Result<Sequence<(Flow, Trace)>, Memory> {
    let flow = Flow {
        problem: 0,
        source: 16,
        sink: 28,
        arg: 0,
    };
    let hops = [
        (HopKind::Start, 6),
        (HopKind::Plain, 7),
        (HopKind::Reset, 14),
        (HopKind::Plain, 15),
    ];
    let mut flows = Vec::new(alloc);
    flows.push((flow, trace(alloc, &hops)?))?;
    Ok(Sequence::from_vec(flows))
}

fn origin(node: u32) -> Origin {
    Origin {
        problem: 0,
        node,
        point: 28,
        arg: 0,
    }
}

fn origins(alloc: Global) -> Result<Sequence<(Origin, Trace)>, Memory> {
    let from_source = [
        (HopKind::Start, 0),
        (HopKind::Plain, 1),
        (HopKind::Plain, 2),
        (HopKind::Return, 6),
        (HopKind::Plain, 7),
        (HopKind::Reset, 14),
        (HopKind::Plain, 15),
    ];
    let from_zero = [
        (HopKind::Start, 8),
        (HopKind::Plain, 10),
        (HopKind::Reset, 14),
        (HopKind::Plain, 15),
    ];
    let from_box = [
        (HopKind::Start, 9),
        (HopKind::Plain, 11),
        (HopKind::Plain, 13),
        (HopKind::Plain, 14),
        (HopKind::Plain, 15),
    ];
    let mut origins = Vec::new(alloc);
    origins.push((origin(0), trace(alloc, &from_source)?))?;
    origins.push((origin(8), trace(alloc, &from_zero)?))?;
    origins.push((origin(9), trace(alloc, &from_box)?))?;
    Ok(Sequence::from_vec(origins))
}

fn escapes(alloc: Global) -> Result<Sequence<EscapePair>, Memory> {
    let mut escapes = Vec::new(alloc);
    for (source, site) in [(16, 1), (30, 0)] {
        escapes.push(EscapePair {
            problem: 0,
            source,
            site,
        })?;
    }
    Ok(Sequence::from_vec(escapes))
}

// What is found of the program, with so many escaping sites of the box and of the variable.
fn findings(alloc: Global, boxes: usize, variables: usize) -> Result<Findings, Memory> {
    let mut targets = Vec::new(alloc);
    for target in [(2, 4), (16, 1), (25, 3), (28, 2), (30, 1)] {
        targets.push(target)?;
    }
    let mut sites = vec![in alloc; 1u32; boxes]?;
    for _ in 0..variables {
        sites.push(0)?;
    }
    Ok(Findings {
        nodes: nodes(alloc)?,
        flows: flows(alloc)?,
        origins: origins(alloc)?,
        escapes: escapes(alloc)?,
        sites: Sequence::from_vec(sites),
        targets: Sequence::from_vec(targets),
    })
}

// Whether this is the report.
fn prints(
    alloc: Global,
    command: Command,
    program: &Program,
    wanted: &str,
) -> Result<bool, Memory> {
    let mut problems = Vec::new(alloc);
    problems.push(problem(alloc)?)?;
    let found = findings(alloc, 1, 0)?;
    if !fits(program, &found) {
        return Ok(false);
    }
    match report(alloc, command, program, &problems, &found) {
        Ok(out) => Ok(out.bytes() == wanted.as_bytes()),
        Err(_) => Ok(false),
    }
}

// How many bytes the report of so many sites has, None where it is too long.
fn length(alloc: Global, program: &Program, boxes: usize) -> Result<Option<usize>, Memory> {
    let problems = Vec::new(alloc);
    let found = findings(alloc, boxes, 2)?;
    if !fits(program, &found) {
        return Ok(None);
    }
    match report(alloc, Command::Escape, program, &problems, &found) {
        Ok(out) => Ok(Some(out.bytes().len())),
        Err(ReportFault::Report) => Ok(None),
        Err(ReportFault::Memory) => Err(Memory),
    }
}

#[test]
fn each_command_has_its_report(rt: HostRuntime) -> Result<(), Fail> {
    let alloc = rt.alloc();
    let program = program(alloc)?;
    assert!(rt; program.is_some());
    if let Some(program) = program {
        assert!(rt; prints(alloc, Command::Taint, &program, TAINT)?);
        assert!(rt; prints(alloc, Command::Backtrace, &program, BACKTRACE)?);
        assert!(rt; prints(alloc, Command::Escape, &program, ESCAPE)?);
        let trial = Command::Trial { count: 7 };
        assert!(rt; prints(alloc, trial, &program, "trial 7: 1 flows, 2 escapes\n")?);
    }
    Ok(())
}

#[test]
fn a_report_has_as_many_bytes_as_the_limit(rt: HostRuntime) -> Result<(), Fail> {
    let alloc = rt.alloc();
    let program = program(alloc)?;
    assert!(rt; program.is_some());
    if let Some(program) = program {
        assert!(rt; length(alloc, &program, 2033599)? == Some(67108864));
        assert!(rt; length(alloc, &program, 2033600)?.is_none());
    }
    Ok(())
}
