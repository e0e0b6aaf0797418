// The bodies of worked programs, their calls made by value: which definitions reach the uses of x.
use argot_plain::Program;
use argot_plain_text::read_program;
use argot_ssa::{build, defs};
use std::test::Fail;

// `x := source()`, `x = "ok"`, `sink(x)`: the use in `sink(x)` has the one definition `x = "ok"`.
#[test]
fn a_definition_is_killed(rt: HostRuntime) -> Result<(), Fail> {
    let read = read_program(
        rt.alloc(),
        "file main.go
function entry 0 6 7 0 0 own - - - - - - - -
  goto 1
  call 1 = v3
  move 0 1 -
  op 2
  move 0 2 -
  call = v3 0
  rundefers
  leave
",
    )?;
    let program: Program = read.expect(&rt, "a program");
    assert!(rt; program.function_count() > 0);
    let form = build(rt.alloc(), &program, 0)?;
    assert!(rt; form.defs_of(5, 0).eq([4].iter().copied()));
    let all = defs(rt.alloc(), &program)?;
    assert!(rt;
        all.as_slice()
            .iter()
            .copied()
            .eq([(1, 2, 1), (3, 4, 2), (4, 5, 0)].iter().copied())
    );
    Ok(())
}

// `x := "ok"`, `if c {`, `x = source()`, `}`, `sink(x)`: two definitions of x come to the join.
#[test]
fn two_definitions_come_to_a_join(rt: HostRuntime) -> Result<(), Fail> {
    let read = read_program(
        rt.alloc(),
        "file main.go
function entry 0 7 8 0 0 own - - - - - - - - -
  goto 1
  op 1
  move 0 1 -
  branch 4 6
  call 4 = v2
  move 0 4 -
  call = v2 0
  rundefers
  leave
",
    )?;
    let program: Program = read.expect(&rt, "a program");
    assert!(rt; program.function_count() > 0);
    let form = build(rt.alloc(), &program, 0)?;
    assert!(rt; form.defs_of(6, 0).eq([2, 5].iter().copied()));
    assert!(rt; form.defs_of(6, 2).next().is_none());
    Ok(())
}

// `x := "ok"`, `for c {`, `sink(x)`, `x = source()`, `}`: the one behind the use comes to it by the loop.
#[test]
fn a_definition_comes_round_a_loop(rt: HostRuntime) -> Result<(), Fail> {
    let read = read_program(
        rt.alloc(),
        "file main.go
function entry 0 8 9 0 0 own - - - - - - - - -
  goto 1
  op 1
  move 0 1 -
  branch 4 8
  call = v2 0
  call 4 = v2
  move 0 4 -
  goto 3
  rundefers
  leave
",
    )?;
    let program: Program = read.expect(&rt, "a program");
    assert!(rt; program.function_count() > 0);
    let form = build(rt.alloc(), &program, 0)?;
    assert!(rt; form.defs_of(4, 0).eq([2, 6].iter().copied()));
    let all = defs(rt.alloc(), &program)?;
    assert!(rt;
        all.as_slice().iter().copied().eq(
            [(1, 2, 1), (2, 4, 0), (6, 4, 0), (5, 6, 4)].iter().copied()
        )
    );
    Ok(())
}
