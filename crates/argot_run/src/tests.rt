use super::*;
use argot_io::{MemFiles, MemSink, are_distinct};
use argot_text::{Text, Texts};
use std::process::Abort;
use std::test::Fail;
use std::thread::Threads;

const EMPTY: &str = "package main\n\nfunc main() {\n}\n";

const CLEAN: &str = "0 flows, 0 escapes\n";

const NO_MAIN: &str = "argot: no main function in folder .\n";

const OTHER: &str = "argot: not of the first form\n";

const USAGE: &str =
    "argot: usage: argot taint|backtrace|escape [-config FILE] [-workers N] DIR, or argot trial [-workers N] COUNT\n";

// The outside of one run, and what is wanted of it.
#[derive(Drop)]
struct Case<'a> {
    words: &'a [&'a str],
    files: &'a [(&'a str, &'a str)],
    failing: &'a [u32],
    status: Status,
    out: &'a str,
    err: &'a str,
}

// Runs the case over files and sinks in memory; each sink takes three bytes a write and fails at the writes named.
fn check<R: Abort + Threads + Sync + AllocGlobal>(
    rt: &R,
    case: &Case<'_>,
    out_fails: &[u32],
    err_fails: &[u32],
) -> Result<(), Fail> {
    let alloc = rt.alloc();
    let mut words = Texts::new(alloc);
    for word in case.words {
        words.push(Text::from_str(alloc, word)?)?;
    }
    let mut entries = Vec::new(alloc);
    for (path, text) in case.files {
        let bytes = Vec::from_slice(alloc, text.as_bytes())?;
        entries.push((Text::from_str(alloc, path)?, bytes))?;
    }
    assert!(rt; are_distinct(&entries));
    let mut files = MemFiles::new(alloc, entries, Vec::from_slice(alloc, case.failing)?);
    let mut out = MemSink::new(alloc, 1000, 3, Vec::from_slice(alloc, out_fails)?)?;
    let mut err = MemSink::new(alloc, 1000, 3, Vec::from_slice(alloc, err_fails)?)?;
    let status = argot(rt, alloc, &words, &mut files, &mut out, &mut err);
    assert_eq!(rt; status, case.status, "{:?}", case.words);
    assert_eq!(rt; out.bytes(), case.out.as_bytes(), "{:?}", case.words);
    assert_eq!(rt; err.bytes(), case.err.as_bytes(), "{:?}", case.words);
    Ok(())
}

// Runs `taint` over the folder, with nothing failing.
fn folder<R: Abort + Threads + Sync + AllocGlobal>(
    rt: &R,
    word: &str,
    files: &[(&str, &str)],
    status: Status,
    out: &str,
    err: &str,
) -> Result<(), Fail> {
    let case = Case {
        words: &["taint", word],
        files,
        failing: &[],
        status,
        out,
        err,
    };
    check(rt, &case, &[], &[])
}

// Runs words that ask for nothing.
fn refused<R: Abort + Threads + Sync + AllocGlobal>(rt: &R, words: &[&str]) -> Result<(), Fail> {
    let case = Case {
        words,
        files: &[("p/main.go", EMPTY)],
        failing: &[],
        status: Status::Refused,
        out: "",
        err: USAGE,
    };
    check(rt, &case, &[], &[])
}

#[test]
fn words_that_ask_for_nothing_get_the_usage_line(rt: HostRuntime) -> Result<(), Fail> {
    refused(&rt, &[])?;
    refused(&rt, &["taint"])?;
    refused(&rt, &["taint", "-x"])?;
    refused(&rt, &["taint", ""])?;
    refused(&rt, &["taint", "p", "p"])?;
    refused(&rt, &["escape", "p"])?;
    refused(&rt, &["taint", "-workers", "2", "p"])
}

#[test]
fn folders_are_answered(rt: HostRuntime) -> Result<(), Fail> {
    folder(&rt, "p", &[("p/main.go", EMPTY)], Status::Clean, CLEAN, "")?;
    folder(
        &rt,
        "p///",
        &[("p/main.go", EMPTY)],
        Status::Clean,
        CLEAN,
        "",
    )?;
    folder(&rt, "/", &[("//main.go", EMPTY)], Status::Clean, CLEAN, "")?;
    folder(&rt, "//", &[("//main.go", EMPTY)], Status::Clean, CLEAN, "")?;
    let beside = [
        ("p/main.go", EMPTY),
        ("p/a_test.go", ""),
        ("p/_x/a.go", ""),
        ("p/testdata/a.go", ""),
        ("p/.x/a.s", ""),
        ("p/README.md", ""),
    ];
    folder(&rt, "p", &beside, Status::Clean, CLEAN, "")?;
    folder(
        &rt,
        "p",
        &[("q/main.go", EMPTY)],
        Status::Refused,
        "",
        NO_MAIN,
    )?;
    folder(
        &rt,
        "p",
        &[("p/_main.go", EMPTY)],
        Status::Refused,
        "",
        NO_MAIN,
    )
}

#[test]
fn other_folders_are_not_of_the_form(rt: HostRuntime) -> Result<(), Fail> {
    for (path, text) in [
        ("p/go.mod", "module a\n"),
        ("p/x/a.go", "package x\n"),
        ("p/a.s", ""),
    ] {
        let files = [("p/main.go", EMPTY), (path, text)];
        folder(&rt, "p", &files, Status::Unsupported, "", OTHER)?;
    }
    let files = [("p/main.go", "package main\nfunc main() {}\n")];
    folder(&rt, "p", &files, Status::Unsupported, "", OTHER)
}

// Runs `taint p` over the smallest program with one call or write failing.
fn failing<R: Abort + Threads + Sync + AllocGlobal>(
    rt: &R,
    words: &[&str],
    call: u32,
    write: u32,
    status: Status,
    out: &str,
    err: &str,
) -> Result<(), Fail> {
    let case = Case {
        words,
        files: &[("p/main.go", EMPTY)],
        failing: &[call],
        status,
        out,
        err,
    };
    check(rt, &case, &[write], &[write])
}

#[test]
fn faults_of_the_outside_are_answered(rt: HostRuntime) -> Result<(), Fail> {
    let taint = ["taint", "p"];
    failing(
        &rt,
        &taint,
        1,
        0,
        Status::ReadFault,
        "",
        "argot: cannot list p\n",
    )?;
    failing(
        &rt,
        &taint,
        2,
        0,
        Status::ReadFault,
        "",
        "argot: cannot read p/main.go\n",
    )?;
    failing(&rt, &taint, 0, 2, Status::WriteFault, "0 f", "")?;
    failing(&rt, &[], 0, 2, Status::WriteFault, "", "arg")?;
    failing(&rt, &taint, 1, 3, Status::WriteFault, "", "argot:")
}

#[test]
fn a_file_has_at_most_4096_bytes(rt: HostRuntime) -> Result<(), Fail> {
    let mut text = String::from_str(rt.alloc(), EMPTY)?;
    for _ in EMPTY.len()..4096 {
        text.push_str("\n")?;
    }
    folder(
        &rt,
        "p",
        &[("p/main.go", text.as_str())],
        Status::Clean,
        CLEAN,
        "",
    )?;
    text.push_str("\n")?;
    folder(
        &rt,
        "p",
        &[("p/main.go", text.as_str())],
        Status::Unsupported,
        "",
        OTHER,
    )
}

// The lines that the worked programs begin with.
const SOURCE_AND_SINK: &str =
    "package main\nfunc source() string { return \"secret\" }\nfunc sink(x string) {}\n";

// Runs `taint` over one file of the worked lines and these.
fn program<R: Abort + Threads + Sync + AllocGlobal>(
    rt: &R,
    lines: &str,
    status: Status,
    out: &str,
) -> Result<(), Fail> {
    let mut text = String::from_str(rt.alloc(), SOURCE_AND_SINK)?;
    text.push_str(lines)?;
    folder(rt, "p", &[("p/main.go", text.as_str())], status, out, "")
}

#[test]
fn flows_of_the_worked_programs(rt: HostRuntime) -> Result<(), Fail> {
    program(
        &rt,
        "\nfunc main() {\n\tx := source()\n\tsink(x)\n}\n",
        Status::Found,
        "flow default: main.go:6:7 main.source -> main.go:7:2 main.sink arg 0\n1 flows, 0 escapes\n",
    )?;
    program(
        &rt,
        "func main() {\n\tx := source()\n\tx = \"ok\"\n\tsink(x)\n}\n",
        Status::Clean,
        CLEAN,
    )?;
    program(
        &rt,
        "func id(x string) string { return x }\nfunc main() {\n\ta := id(source())\n\tb := id(\"ok\")\n\tsink(a)\n}\n",
        Status::Found,
        "flow default: main.go:6:10 main.source -> main.go:8:2 main.sink arg 0\n1 flows, 0 escapes\n",
    )?;
    program(
        &rt,
        "func id(x string) string { return x }\nfunc main() {\n\ta := id(source())\n\tb := id(\"ok\")\n\tsink(b)\n}\n",
        Status::Clean,
        CLEAN,
    )
}

// A file with each form of line.
const LINES: [&str; 23] = [
    "package main\n",
    "func source() string { return \"a 1\" }\n",
    "func sink(x string) {}\n",
    "func id(x string) string { return x }\n",
    "func f() {}\n",
    "func g() string { return \"\" }\n",
    "func two(a string, b string) {}\n",
    "\n",
    "func it() {}\n",
    "func lan() {}\n",
    "func maim() {}\n",
    "func inot() {}\n",
    "func main() {\n",
    "\tu := id(source())\n",
    "\tv := \"ok\"\n",
    "\tw := g()\n",
    "\tz := \"\"\n",
    "\ty := w\n",
    "\tv = u\n",
    "\tf()\n",
    "\ttwo(w, \"b\")\n",
    "\tsink(v)\n",
    "}\n",
];

// Runs `taint` over these lines, where one of them is another.
fn with_line<R: Abort + Threads + Sync + AllocGlobal>(
    rt: &R,
    number: usize,
    line: &str,
    status: Status,
    out: &str,
    err: &str,
) -> Result<(), Fail> {
    let mut text = String::new(rt.alloc());
    for (i, own) in LINES.iter().enumerate() {
        text.push_str(if i == number { line } else { own })?;
    }
    folder(rt, "p", &[("p/main.go", text.as_str())], status, out, err)
}

#[test]
fn each_byte_counts(rt: HostRuntime) -> Result<(), Fail> {
    with_line(
        &rt,
        LINES.len(),
        "",
        Status::Found,
        "flow default: main.go:14:10 main.source -> main.go:22:2 main.sink arg 0\n1 flows, 0 escapes\n",
        "",
    )?;
    let broken = [
        (0, "Package main\n"),
        (0, "package main \n"),
        // a byte that may not stand in quotes, a quote or a space that is missing
        (1, "func source() string { return \"a-1\" }\n"),
        (1, "func source() string { return \"a 1 }\n"),
        (1, "func source() string {return \"a 1\" }\n"),
        (2, "func sink(x String) {}\n"),
        (2, "func sink(x string){}\n"),
        // the name after return is no parameter
        (3, "func id(x string) string { return y }\n"),
        // parameters without a space between, two of one name, and one with a function's name
        (6, "func two(a string,b string) {}\n"),
        (6, "func two(a string, a string) {}\n"),
        (6, "func two(a string, f string) {}\n"),
        (7, " \n"),
        // names: a digit first, another byte, a keyword, a function's own, predeclared, main, init
        (8, "func 1t() {}\n"),
        (8, "func i_() {}\n"),
        (8, "func if() {}\n"),
        (8, "func id() {}\n"),
        (9, "func len() {}\n"),
        (10, "func main() {}\n"),
        (11, "func init() {}\n"),
        (12, "func main(){\n"),
        (12, "func main() { \n"),
        // an unknown function, and a bracket that is missing
        (13, "\tu := if(source())\n"),
        (13, "\tu := id(source()\n"),
        // no tab, and no space
        (14, " v := \"ok\"\n"),
        (14, "\tv :=\"ok\"\n"),
        // a call without a result as a value
        (15, "\tw := f()\n"),
        // a variable that is declared twice, or has a function's name
        (16, "\tu := \"\"\n"),
        (16, "\tf := \"\"\n"),
        // variables that aren't declared, or not yet
        (18, "\tq = u\n"),
        (18, "\tv = q\n"),
        (17, "\ty := y\n"),
        (21, "\tsink(q)\n"),
        // an argument too many, one too few, and no space between
        (19, "\tf(u)\n"),
        (21, "\tsink()\n"),
        (20, "\ttwo(w,\"b\")\n"),
        // a call of an unknown function as a statement
        (21, "\tsunk(v)\n"),
        // a space before the brace, and no newline at the end
        (22, " }\n"),
        (22, "}"),
    ];
    for (number, line) in broken.iter() {
        with_line(&rt, *number, line, Status::Unsupported, "", OTHER)?;
    }
    Ok(())
}

// A sink's argument with so many calls around a source's.
fn nested<R: Abort + Threads + Sync + AllocGlobal>(
    rt: &R,
    depth: usize,
    status: Status,
    out: &str,
    err: &str,
) -> Result<(), Fail> {
    let mut text = String::from_str(rt.alloc(), SOURCE_AND_SINK)?;
    text.push_str("func id(x string) string { return x }\nfunc main() {\n\tsink(")?;
    for _ in 0..depth {
        text.push_str("id(")?;
    }
    text.push_str("source()")?;
    for _ in 0..depth {
        text.push_str(")")?;
    }
    text.push_str(")\n}\n")?;
    folder(rt, "p", &[("p/main.go", text.as_str())], status, out, err)
}

// Main's brace, the sink's bracket and the source's make 3 of the 100.
#[test]
fn at_most_100_brackets_are_open(rt: HostRuntime) -> Result<(), Fail> {
    nested(
        &rt,
        97,
        Status::Found,
        "flow default: main.go:6:298 main.source -> main.go:6:2 main.sink arg 0\n1 flows, 0 escapes\n",
        "",
    )?;
    nested(&rt, 98, Status::Unsupported, "", OTHER)
}
