use super::*;
use std::test::Fail;

const HEAD: &str =
    "package main\nfunc source() string { return \"secret\" }\nfunc sink(x string) {}\n";

fn answer_of(rt: &HostRuntime, parts: &[&str]) -> Result<Answer, Fail> {
    let mut text = String::new(rt.alloc());
    for part in parts {
        text.push_str(part)?;
    }
    Ok(analyse_first(rt.alloc(), text.as_bytes())?)
}

fn is_report(answer: &Answer, number: usize, report: &str) -> bool {
    match answer {
        Answer::Report { count, text } => *count == number && text.bytes() == report.as_bytes(),
        Answer::Unsupported => false,
    }
}

fn is_unsupported(answer: &Answer) -> bool {
    match answer {
        Answer::Report { .. } => false,
        Answer::Unsupported => true,
    }
}

#[test]
fn flows_of_whole_files(rt: HostRuntime) -> Result<(), Fail> {
    let rows = [
        // a source's result that is handed to a sink
        (
            "\nfunc main() {\n\tx := source()\n\tsink(x)\n}\n",
            1,
            "flow default: main.go:6:7 main.source -> main.go:7:2 main.sink arg 0\n1 flows, 0 escapes\n",
        ),
        // the value is overwritten
        (
            "func main() {\n\tx := source()\n\tx = \"ok\"\n\tsink(x)\n}\n",
            0,
            "0 flows, 0 escapes\n",
        ),
        // through a function that gives its argument back
        (
            "func id(x string) string { return x }\nfunc main() {\n\ta := id(source())\n\tb := id(\"ok\")\n\tsink(a)\n}\n",
            1,
            "flow default: main.go:6:10 main.source -> main.go:8:2 main.sink arg 0\n1 flows, 0 escapes\n",
        ),
        // a return goes to its own call alone
        (
            "func id(x string) string { return x }\nfunc main() {\n\ta := id(source())\n\tb := id(\"ok\")\n\tsink(b)\n}\n",
            0,
            "0 flows, 0 escapes\n",
        ),
        // a sanitizer
        (
            "func sanitize(x string) string { return x }\nfunc main() {\n\tsink(sanitize(source()))\n}\n\n\n",
            0,
            "0 flows, 0 escapes\n",
        ),
    ];
    for (body, count, report) in rows.iter() {
        let answer = answer_of(&rt, &[HEAD, body])?;
        assert!(&rt; is_report(&answer, *count, report));
    }
    Ok(())
}

#[test]
fn files_that_break_one_rule(rt: HostRuntime) -> Result<(), Fail> {
    let whole = "func main() {\n\tx := source()\n\tsink(x)\n}\n";
    let broken = [
        // main on one line
        "func main() {}\n",
        // no newline at the end
        "func main() {\n\tsink(source())\n}",
        // a keyword, a predeclared name, main and init as names
        "func go(x string) {}\nfunc main() {\n}\n",
        "func len(x string) {}\nfunc main() {\n}\n",
        "func init() {}\nfunc main() {\n}\n",
        "func main() {\n\tmain()\n}\n",
        // two functions, and two parameters, of one name
        "func sink() {}\nfunc main() {\n}\n",
        "func f(a string, a string) {}\nfunc main() {\n}\n",
        // a parameter with a function's name, also one that comes later
        "func f(sink string) {}\nfunc main() {\n}\n",
        "func f(g string) {}\nfunc g() {}\nfunc main() {\n}\n",
        // the name after return is no parameter
        "func f(a string) string { return b }\nfunc main() {\n}\n",
        // a variable declared twice, with a function's name, or not at all
        "func main() {\n\tx := \"a\"\n\tx := \"a\"\n}\n",
        "func main() {\n\tsink := \"a\"\n}\n",
        "func main() {\n\tx = \"a\"\n}\n",
        "func main() {\n\tsink(x)\n}\n",
        "func main() {\n\tx := x\n}\n",
        // an unknown function, a wrong number of arguments, a call without a result as a value
        "func main() {\n\tsunk(source())\n}\n",
        "func main() {\n\tsink(source(), \"a\")\n}\n",
        "func main() {\n\tsink()\n}\n",
        "func main() {\n\tx := sink(source())\n}\n",
        // a byte that may not stand in quotes, and one that is missing
        "func main() {\n\tsink(\"a-b\")\n}\n",
        "func main() {\n\tsink(\"ab)\n}\n",
        "func main() {\n\tsink(source() )\n}\n",
        "func main() {\n sink(source())\n}\n",
    ];
    let first = answer_of(&rt, &[HEAD, whole])?;
    assert!(&rt; !is_unsupported(&first));
    for body in broken.iter() {
        let answer = answer_of(&rt, &[HEAD, body])?;
        assert!(&rt; is_unsupported(&answer), "{body}");
    }
    Ok(())
}

fn repeated(rt: &HostRuntime, part: &str, times: usize) -> Result<String, Fail> {
    let mut text = String::new(rt.alloc());
    for _ in 0..times {
        text.push_str(part)?;
    }
    Ok(text)
}

const MAIN: &str = "func main() {\n}\n";

// A file that ends in so many blank lines.
fn filled(rt: &HostRuntime, newlines: usize) -> Result<Answer, Fail> {
    let blanks = repeated(rt, "\n", newlines)?;
    answer_of(rt, &[HEAD, MAIN, blanks.as_str()])
}

// A sink's argument with so many calls around a source's.
fn nested(rt: &HostRuntime, depth: usize) -> Result<Answer, Fail> {
    let open = repeated(rt, "id(", depth)?;
    let close = repeated(rt, ")", depth)?;
    let id = "func id(x string) string { return x }\nfunc main() {\n\tsink(";
    answer_of(
        rt,
        &[
            HEAD,
            id,
            open.as_str(),
            "source()",
            close.as_str(),
            ")\n}\n",
        ],
    )
}

#[test]
fn the_longest_file(rt: HostRuntime) -> Result<(), Fail> {
    let room = 4096usize.saturating_sub(HEAD.len().saturating_add(MAIN.len()));
    let longest = filled(&rt, room)?;
    assert!(&rt; is_report(&longest, 0, "0 flows, 0 escapes\n"));
    let longer = filled(&rt, room.saturating_add(1))?;
    assert!(&rt; is_unsupported(&longer));
    Ok(())
}

// Main's brace, the sink's bracket and the source's make 3 of the 100.
#[test]
fn the_deepest_call(rt: HostRuntime) -> Result<(), Fail> {
    let deepest = nested(&rt, 97)?;
    assert!(&rt; !is_unsupported(&deepest));
    let deeper = nested(&rt, 98)?;
    assert!(&rt; is_unsupported(&deeper));
    Ok(())
}
