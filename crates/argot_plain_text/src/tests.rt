// Programs that are accepted, and texts with one fault each that are not.
use super::*;
use crate::samples::{CALL_SITE, FILLED_BOX, MANY_KINDS, TWO_METHODS};
use std::alloc::Global;
use std::test::Fail;

// The text with the first stretch of it that is `old` made `new`.
fn edited(alloc: Global, text: &str, old: &str, new: &str) -> Result<String, Fail> {
    let mut whole = String::new(alloc);
    match text.split_once(old) {
        Some((front, rest)) => {
            whole.push_str(front)?;
            whole.push_str(new)?;
            whole.push_str(rest)?;
        }
        None => whole.push_str("old text not found")?,
    }
    Ok(whole)
}

#[test]
fn programs_are_accepted(rt: HostRuntime) -> Result<(), Fail> {
    for (text, functions, places, sites) in [
        (FILLED_BOX, 7, 43, 2),
        (TWO_METHODS, 10, 61, 3),
        (MANY_KINDS, 11, 152, 13),
        (CALL_SITE, 2, 7, 1),
    ] {
        let read = read_program(rt.alloc(), text)?;
        let program = read.expect(&rt, "a program");
        assert_eq!(rt; program.function_count(), functions);
        assert_eq!(rt; program.len(), places);
        assert_eq!(rt; program.site_count(), sites);
    }
    Ok(())
}

#[test]
fn other_programs_are_accepted_too(rt: HostRuntime) -> Result<(), Fail> {
    for (text, old, new) in [
        (MANY_KINDS, "  op 9\n", "  passed 9 2\n"),
        (MANY_KINDS, "  op 9\n", "  goto 30\n"),
        (MANY_KINDS, "  op 9\n", "  branch\n"),
        (MANY_KINDS, "  branch 62 64\n", "  branch 62 62 64 111\n"),
        (
            MANY_KINDS,
            "method 31 main.m 7\n",
            "method 31 main.m 7\nmethod 32 main.m 7\n",
        ),
        (
            MANY_KINDS,
            "method 31 main.m 7\n",
            "method 31 main.m 7\nmethod 31 main.m 7\n",
        ),
        (MANY_KINDS, "join 2 f0=1\n", "join 2\n"),
        (MANY_KINDS, "read 59 58 -\n", "read 59 58 - \n"),
        (CALL_SITE, "site 2 0 0 f0 5 -\n", ""),
        (TWO_METHODS, "wrapper - - 5 -", "wrapper - - - -"),
    ] {
        let text = edited(rt.alloc(), text, old, new)?;
        let read = read_program(rt.alloc(), text.as_str())?;
        assert!(rt; read.is_some(), "{old} made {new}");
    }
    Ok(())
}

// Whether the text with this fault is read as parts that make no program.
fn is_refused(alloc: Global, text: &str, old: &str, new: &str) -> Result<bool, Fail> {
    let text = edited(alloc, text, old, new)?;
    let parts = read_parts(alloc, text.as_str())?;
    let program = read_program(alloc, text.as_str())?;
    Ok(parts.is_some() && program.is_none())
}

#[test]
fn functions_and_places_that_do_not_fit_are_refused(rt: HostRuntime) -> Result<(), Fail> {
    for (old, new) in [
        // the places of the functions
        ("main.sink 11 12 13", "main.sink 12 12 13"),
        ("main.sink 11 12 13", "main.sink 11 12 14"),
        ("println 151 151 151", "println 151 151 152"),
        // the entry
        ("own - - - -\n", "own - - - main::entry\n"),
        // externals and bodies
        ("1 0 own - flows", "1 0 wrapper - flows"),
        ("  goto 151\n", "  goto 150\n"),
        ("main.sink 11 12 13", "main.sink 11 11 13"),
        ("  goto 12\n", "  branch 12\n"),
        // successors
        ("  branch 62 64\n", "  branch 62 20\n"),
        ("  branch 62 64\n", "  branch 62 114\n"),
        ("  goto 72\n", "  goto 20\n"),
        // what stands at the exit, at the leave and between them
        ("  op 9\n", "  rundefers\n"),
        ("  goto 12\n  rundefers\n", "  goto 12\n  goto 12\n"),
        ("  op 9\n", "  leave\n"),
        (
            "  goto 12\n  rundefers\n  leave\n",
            "  goto 12\n  rundefers\n  goto 12\n",
        ),
        ("  goto 72\n", "  goto 112\n"),
        ("  branch 73 82\n", "  branch 73 112\n"),
        ("  leave 1\n", "  leave 1 1\n"),
        // roles and names
        ("bound env", "bound -"),
        ("wrapper - - 3", "wrapper env - 3"),
        ("own - - - main::sink", "own env - - main::sink"),
        ("wrapper - - 3 -", "wrapper - - 3 main:A:m"),
        ("wrapper - - 3 -", "wrapper - - 5 -"),
        ("bound env - - -", "bound env - 3 -"),
        ("file main.go\n", ""),
    ] {
        assert!(rt;
            is_refused(rt.alloc(), MANY_KINDS, old, new)?,
            "{old} made {new}"
        );
    }
    Ok(())
}

#[test]
fn registers_and_values_that_do_not_fit_are_refused(rt: HostRuntime) -> Result<(), Fail> {
    for (old, new) in [
        ("  op 9\n", "  op 64\n"),
        ("  op 9\n", "  op 9 64\n"),
        ("main.sink 11 12 13 1 0", "main.sink 11 12 13 2 0"),
        ("call 24 = v17\n", "call 24 24 = v17\n"),
        ("main:A:m f0,f1", "main:A:m f0,f1,f1"),
        ("  write 6 11\n", "  write 2 11\n"),
        ("2 1 own env - - - -", "2 1 own env - - - f0"),
        ("  op 9\n", "  op 15\n"),
        ("  move 31 26 f0\n", "  move 31 26 -\n"),
        ("  move 31 26 f0\n", "  move 31 26 f2\n"),
        ("  join 2 f0=1\n", "  join 2 f2=1\n"),
        ("  read 15 0 f0,f1\n", "  read 15 0 f0\n"),
        ("  grow 11 8 10\n", "  grow 11 8 15\n"),
        // calls by number
        ("  call = f2 24\n", "  call = f2\n"),
        ("  call = f2 24\n", "  call = f2 26\n"),
        ("  call 10 = v3 9\n", "  call 10 = f5 3 9\n"),
        ("  call 1 = f1\n", "  call = f1\n"),
        ("  call 1 = f1\n", "  call 15 = f1\n"),
        ("  defer f2 13\n", "  defer f2 13 13\n"),
        ("  go v52\n", "  go f2\n"),
        // numbers
        ("  call = f2 24\n", "  call = f11 24\n"),
        ("  op 9\n", "  passed 9 11\n"),
        ("  global 54 0\n", "  global 54 1\n"),
        ("  op 9\n", "tag field main:A:t\n  op 9\n"),
    ] {
        assert!(rt;
            is_refused(rt.alloc(), MANY_KINDS, old, new)?,
            "{old} made {new}"
        );
    }
    Ok(())
}

#[test]
fn sites_and_wrappers_that_do_not_fit_are_refused(rt: HostRuntime) -> Result<(), Fail> {
    for (text, old, new) in [
        (MANY_KINDS, "variable main::c 0", "variable main::c 1"),
        (MANY_KINDS, "site 0 0 0 - 21 -", "site 1 0 0 - 21 -"),
        (MANY_KINDS, "  new 4 2\n", "  new 4 3\n"),
        (MANY_KINDS, "  new 4 2\n", "  new 4 13\n"),
        (MANY_KINDS, "site 25 0 0 x0", "site 25 1 0 x0"),
        (MANY_KINDS, "site 34 0 0 e 35 -\n", "site 34 0 0 k 35 -\n"),
        (MANY_KINDS, "site 34 0 0 e 35 -\n", "site 34 0 1 e 35 -\n"),
        (
            MANY_KINDS,
            "site 107 0 0 e 41 -\n",
            "site 107 0 0 e 41 -\nsite 108 0 0 - 4 -\n",
        ),
        (
            MANY_KINDS,
            "site 107 0 0 e 41 -\n",
            "site 107 0 0 e 41 -\nsite 152 0 0 - 4 -\n",
        ),
        (MANY_KINDS, "site 25 0 0 x0 38 5\n", "site 25 0 0 f0 38 5\n"),
        (MANY_KINDS, "site 25 0 0 x0 38 5\n", "site 25 0 0 x0 38 2\n"),
        (
            MANY_KINDS,
            "site 25 0 0 x0 38 5\n",
            "site 25 0 0 x0 38 11\n",
        ),
        (MANY_KINDS, "site 34 0 0 e 35 -\n", "site 34 0 0 e 35 5\n"),
        (
            MANY_KINDS,
            "site 64 0 0 k,v 39 -\n",
            "site 64 0 0 k,k 39 -\n",
        ),
        (MANY_KINDS, "method 31 main.m 7\n", "method 31 main.m 3\n"),
        (MANY_KINDS, "method 31 main.m 7\n", "method 31 main.m 11\n"),
        (TWO_METHODS, "method 32 main.m 9\n", "method 31 main.m 9\n"),
        (CALL_SITE, "site 2 0 0 f0", "site 2 1 0 f0"),
        (CALL_SITE, "site 2 0 0 f0", "site 2 0 1 f0"),
        (
            CALL_SITE,
            "site 2 0 0 f0 5 -\n",
            "site 2 0 0 f0 5 -\nsite 2 0 0 f0 5 -\n",
        ),
    ] {
        assert!(rt; is_refused(rt.alloc(), text, old, new)?, "{old} made {new}");
    }
    Ok(())
}
