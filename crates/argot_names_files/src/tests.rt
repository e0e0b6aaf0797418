// A folder read whole, and each way in which one isn't.
use crate::{ReadingFault, folder_of_texts};
use std::alloc::Global;
use std::test::Fail;

// How reading these files ends.
fn ending(alloc: Global, files: &[(&str, &str)]) -> &'static str {
    match folder_of_texts(alloc, files, "m", None) {
        Ok(Some(_)) => "read",
        Ok(None) => "no folder",
        Err(
            ReadingFault::Token {
                file: 1,
                offset: 14,
            },
        ) => "no token at 14 of file 1",
        Err(ReadingFault::Syntax { file: 0, token: _ }) => "syntax in file 0",
        Err(_) => "another fault",
    }
}

#[test]
fn each_ending(rt: HostRuntime) -> Result<(), Fail> {
    let alloc = rt.alloc();
    let good = ("a.go", "package a\n");
    assert_eq!(rt; ending(alloc, &[]), "read");
    assert_eq!(rt;
        ending(
            alloc,
            &[
                good,
                ("b/x.go", "package b\n"),
                ("b/y.s", ""),
                ("go.mod", "module m\n")
            ]
        ),
        "read"
    );
    assert_eq!(rt;
        ending(alloc, &[("b.go", "package a\n"), good]),
        "no folder"
    );
    assert_eq!(rt; ending(alloc, &[good, good]), "no folder");
    assert_eq!(rt;
        ending(alloc, &[good, ("a_test.go", "package a\n")]),
        "no folder"
    );
    assert_eq!(rt;
        ending(alloc, &[("testdata/a.go", "package a\n")]),
        "no folder"
    );
    assert_eq!(rt; ending(alloc, &[("x.s", "TEXT")]), "no folder");
    assert_eq!(rt;
        ending(alloc, &[good, ("b.go", "package a\nvar @")]),
        "no token at 14 of file 1"
    );
    assert_eq!(rt;
        ending(alloc, &[("a.go", "package a\nvar x\n"), ("b.go", "@")]),
        "syntax in file 0"
    );
    Ok(())
}
