// Configurations and what `read` answers, in tables; the limits at their number and one over; each other call once.

use crate::{Config, ConfigFault, Maker, PatternFault, Patterns, Test, fallback, read};
use std::alloc::{AllocError, Global};
use std::test::Fail;

// A configuration a line: the answer and the text. The answers are those of the reference program of the specification,
// gone through by hand.
const CASES: &str = r#"not JSON|
not JSON|{
not JSON|{"problems":[{"name":"p"}]
not JSON|{"problems":[{"name":"p"}]}}
not JSON|{'problems':[{"name":"p"}]}
not JSON|{"problems":[{"name":"p"},]}
not JSON|{"problems":[{"name":"\ud800"}]}
not JSON|{"problems":[{"name":"p"}],"x":1e999}
wrong shape problems|{}
wrong shape .|[]
wrong shape .|null
unknown key x|{"problems":[],"x":1}
unknown key A|{"b":1,"main":1,"A":1}
unknown key .|{".":1,"problems":[{"name":"p"}]}
wrong shape problems|{"problems":[]}
wrong shape main|{"problems":[],"main":1}
wrong shape problems|{"externals":1,"problems":[]}
ok|{"problems":[{"name":"p"}]}
ok|{"problems":[],"problems":[{"name":"p"}]}
wrong shape problems|{"problems":[{"name":"p"}],"problems":[]}
wrong shape problems[0]|{"problems":[1]}
wrong shape problems[0].name|{"problems":[{}]}
wrong shape problems[1].name|{"problems":[{"name":"p"},{"name":"p"}]}
ok|{"problems":[{"name":"p"},{"name":"P"}]}
wrong shape problems[0].name|{"problems":[{"name":""}]}
wrong shape problems[0].name|{"problems":[{"name":"a b"}]}
wrong shape problems[0].name|{"problems":[{"name":"é"}]}
wrong shape problems[0].name|{"problems":[{"name":"a.b"}]}
ok|{"problems":[{"name":"aZ09_-"}]}
unknown key problems[0].a|{"problems":[{"name":"p","z":1,"a":1}]}
unknown key problems[0].z|{"problems":[{"name":1,"z":1}]}
wrong shape problems[0].name|{"problems":[{"sinks":1}],"externals":1}
wrong shape problems[0].sources|{"problems":[{"name":"p","sinks":1,"sources":1}]}
wrong shape problems[0].sinks[0]|{"problems":[{"name":"p","sinks":[[]]}]}
wrong shape problems[0].sinks[0].kind|{"problems":[{"name":"p","sinks":[{"kind":"field"}]}]}
wrong shape problems[0].points[0].kind|{"problems":[{"name":"p","points":[{"kind":"global"}]}]}
ok|{"problems":[{"name":"p","sinks":[{"kind":"func"}]}]}
ok|{"problems":[{"name":"p","sources":[{"kind":"field"},{"kind":"global"},{"kind":"func"}]}]}
wrong shape problems[0].sources[0].kind|{"problems":[{"name":"p","sources":[{"kind":"Func"}]}]}
wrong shape problems[0].sources[1].package|{"problems":[{"name":"p","sources":[{},{"name":1,"receiver":1,"package":1}]}]}
unknown key problems[0].points[1].nam|{"problems":[{"name":"p","points":[{},{"nam":"","kind":1}]}]}
wrong shape externals[0].package|{"problems":[{"name":"p"}],"externals":[{}]}
wrong shape externals[0].name|{"problems":[{"name":"p"}],"externals":[{"package":"a"}]}
unknown key externals[1].kind|{"problems":[{"name":"p"}],"externals":[{"package":"a","name":"b"},{"kind":"func"}]}
ok|{"problems":[{"name":"p"}],"externals":[{"package":"a","name":"b"},{"package":"a","name":"b"}]}
bad pattern problems[0].sinks[0].name|{"problems":[{"name":"p","sinks":[{"package":"^os/exec$","name":"func["}]}]}
bad pattern problems[0].sources[0].receiver|{"problems":[{"name":"p","sinks":[{"name":"("}],"sources":[{"receiver":"("}]}]}
bad pattern problems[1].points[1].name|{"problems":[{"name":"q"},{"name":"p","points":[{},{"name":"a{2,1}"}]}]}
wrong shape problems[0].escapes|{"problems":[{"name":"p","sinks":[{"name":"("}],"escapes":1}]}
wrong shape externals|{"problems":[{"name":"p","sinks":[{"name":"("}]}],"externals":{}}
"#;

// A key a line: the path of its value, the value of `VALUES` that is right there, and what stands before and behind it.
const KEYS: &str = r#"main|"x"|{"main":|,"problems":[{"name":"p"}]}
problems|none|{"problems":|}
externals|[]|{"problems":[{"name":"p"}],"externals":|}
problems[0].name|"x"|{"problems":[{"name":|}]}
problems[0].sources|[]|{"problems":[{"name":"p","sources":|}]}
problems[0].sinks|[]|{"problems":[{"name":"p","sinks":|}]}
problems[0].sanitizers|[]|{"problems":[{"name":"p","sanitizers":|}]}
problems[0].validators|[]|{"problems":[{"name":"p","validators":|}]}
problems[0].points|[]|{"problems":[{"name":"p","points":|}]}
problems[0].escapes|true|{"problems":[{"name":"p","escapes":|}]}
problems[0].sources[0].kind|none|{"problems":[{"name":"p","sources":[{"kind":|}]}]}
problems[0].sinks[0].package|"x"|{"problems":[{"name":"p","sinks":[{"package":|}]}]}
problems[0].sanitizers[0].receiver|"x"|{"problems":[{"name":"p","sanitizers":[{"receiver":|}]}]}
problems[0].validators[0].name|"x"|{"problems":[{"name":"p","validators":[{"name":|}]}]}
externals[0].package|"x"|{"problems":[{"name":"p"}],"externals":[{"name":"n","package":|}]}
externals[0].name|"x"|{"problems":[{"name":"p"}],"externals":[{"package":"q","name":|}]}
externals[0].receiver|"x"|{"problems":[{"name":"p"}],"externals":[{"package":"q","name":"n","receiver":|}]}
externals[0].flow|true|{"problems":[{"name":"p"}],"externals":[{"package":"q","name":"n","flow":|}]}
"#;

// A value of each JSON type.
const VALUES: &str = r#"null
true
7
-0.5
"x"
[]
{}"#;

// The answer as a line without the file's name.
fn answer<P: Patterns>(alloc: Global, text: &[u8], patterns: &mut P) -> Result<String, AllocError> {
    let (fault, path) = match read(alloc, text, patterns) {
        Ok(_) => return String::from_str(alloc, "ok"),
        Err(ConfigFault::NotJson) => return String::from_str(alloc, "not JSON"),
        Err(ConfigFault::Key { path }) => ("unknown key", path),
        Err(ConfigFault::Shape { path }) => ("wrong shape", path),
        Err(ConfigFault::BadPattern { path }) => ("bad pattern", path),
        Err(ConfigFault::PatternSize { path }) => ("pattern too large", path),
        Err(ConfigFault::Memory) => return String::from_str(alloc, "out of memory"),
    };
    let path = path.as_str();
    format!(in alloc; "{fault} {path}")
}

#[test]
fn configurations_are_read_or_refused(rt: HostRuntime) -> Result<(), Fail> {
    for case in CASES.lines() {
        let mut parts = case.split('|');
        let (Some(want), Some(text)) = (parts.next(), parts.next()) else {
            continue;
        };
        let mut maker = Maker::new(0);
        let found = answer(rt.alloc(), text.as_bytes(), &mut maker)?;
        assert_eq!(rt; found.as_str(), want, "at {text}");
    }
    Ok(())
}

#[test]
fn each_key_has_one_type(rt: HostRuntime) -> Result<(), Fail> {
    let alloc = rt.alloc();
    for case in KEYS.lines() {
        let mut parts = case.split('|');
        let (Some(path), Some(right), Some(before), Some(behind)) = (
            parts.next(),
            parts.next(),
            parts.next(),
            parts.next(),
        ) else {
            continue;
        };
        for value in VALUES.lines() {
            let text = format!(in alloc; "{before}{value}{behind}")?;
            let want = if value == right {
                String::from_str(alloc, "ok")?
            } else {
                format!(in alloc; "wrong shape {path}")?
            };
            let mut maker = Maker::new(0);
            let found = answer(alloc, text.as_bytes(), &mut maker)?;
            assert_eq!(rt; found.as_str(), want.as_str(), "at {text}");
        }
    }
    Ok(())
}

// A limit: what stands before the part that is repeated, the part, what stands between two of them and behind them, how
// often it may stand there, and the answer for one more.
struct Limit {
    before: &'static str,
    part: &'static str,
    between: &'static str,
    behind: &'static str,
    most: usize,
    over: &'static str,
}

static LIMITS: [Limit; 6] = [
    Limit {
        before: "{\"problems\":[{\"name\":\"",
        part: "a",
        between: "",
        behind: "\"}]}",
        most: 64,
        over: "wrong shape problems[0].name",
    },
    Limit {
        before: "{\"problems\":[{\"name\":\"p\",\"sources\":[",
        part: "{}",
        between: ",",
        behind: "]}]}",
        most: 64,
        over: "wrong shape problems[0].sources",
    },
    Limit {
        before: "{\"problems\":[{\"name\":\"p\",\"points\":[",
        part: "{}",
        between: ",",
        behind: "]}]}",
        most: 64,
        over: "wrong shape problems[0].points",
    },
    Limit {
        before: "{\"problems\":[{\"name\":\"p\",\"sinks\":[{\"name\":\"",
        part: "a",
        between: "",
        behind: "\"}]}]}",
        most: 1000,
        over: "wrong shape problems[0].sinks[0].name",
    },
    Limit {
        before: "{\"problems\":[{\"name\":\"p\",\"sinks\":[{\"package\":\"",
        part: "é",
        between: "",
        behind: "\"}]}]}",
        most: 500,
        over: "wrong shape problems[0].sinks[0].package",
    },
    Limit {
        before: "{\"problems\":[{\"name\":\"p\"}],\"externals\":[",
        part: "{\"package\":\"a\",\"name\":\"b\"}",
        between: ",",
        behind: "]}",
        most: 1024,
        over: "wrong shape externals",
    },
];

// The text of a limit with the part so many times.
fn repeated(alloc: Global, limit: &Limit, count: usize) -> Result<String, AllocError> {
    let mut text = String::from_str(alloc, limit.before)?;
    for i in 0..count {
        if i > 0 {
            text.push_str(limit.between)?;
        }
        text.push_str(limit.part)?;
    }
    text.push_str(limit.behind)?;
    Ok(text)
}

#[test]
fn limits_hold_at_their_number(rt: HostRuntime) -> Result<(), Fail> {
    let alloc = rt.alloc();
    for limit in &LIMITS {
        let mut maker = Maker::new(0);
        let full = repeated(alloc, limit, limit.most)?;
        let found = answer(alloc, full.as_bytes(), &mut maker)?;
        assert_eq!(rt; found.as_str(), "ok", "at {full}");
        let over = repeated(alloc, limit, limit.most + 1)?;
        let found = answer(alloc, over.as_bytes(), &mut maker)?;
        assert_eq!(rt; found.as_str(), limit.over, "at {over}");
    }
    Ok(())
}

// So many problems, each with a name of its own.
fn problems(alloc: Global, count: usize) -> Result<String, AllocError> {
    let mut text = String::from_str(alloc, "{\"problems\":[")?;
    for i in 0..count {
        if i > 0 {
            text.push_str(",")?;
        }
        write!(text, "{{\"name\":\"p{i}\"}}")?;
    }
    text.push_str("]}")?;
    Ok(text)
}

// The text between so many of the first part and as many of the last.
fn nested(
    alloc: Global,
    ends: (&str, &str),
    parts: (&str, &str),
    count: usize,
) -> Result<String, AllocError> {
    let mut text = String::from_str(alloc, ends.0)?;
    for _ in 0..count {
        text.push_str(parts.0)?;
    }
    for _ in 0..count {
        text.push_str(parts.1)?;
    }
    text.push_str(ends.1)?;
    Ok(text)
}

#[test]
fn sixteen_problems_and_no_more(rt: HostRuntime) -> Result<(), Fail> {
    let alloc = rt.alloc();
    let mut maker = Maker::new(0);
    let full = problems(alloc, 16)?;
    assert_eq!(rt; answer(alloc, full.as_bytes(), &mut maker)?.as_str(), "ok");
    let over = problems(alloc, 17)?;
    assert_eq!(rt;
        answer(alloc, over.as_bytes(), &mut maker)?.as_str(),
        "wrong shape problems"
    );
    Ok(())
}

#[test]
fn nesting_ends_somewhere(rt: HostRuntime) -> Result<(), Fail> {
    let alloc = rt.alloc();
    let mut maker = Maker::new(0);
    let json = ("{\"x\":", "}");
    for (count, want) in [
        (126, "unknown key x"),
        (127, "not JSON"),
        (100_000, "not JSON"),
    ] {
        let text = nested(alloc, json, ("[", "]"), count)?;
        assert_eq!(rt;
            answer(alloc, text.as_bytes(), &mut maker)?.as_str(),
            want,
            "at {count}"
        );
    }
    let pattern = (
        "{\"problems\":[{\"name\":\"p\",\"sinks\":[{\"name\":\"",
        "\"}]}]}",
    );
    for (count, want) in [(200, "ok"), (400, "bad pattern problems[0].sinks[0].name")] {
        let text = nested(alloc, pattern, ("(", ")"), count)?;
        assert_eq!(rt;
            answer(alloc, text.as_bytes(), &mut maker)?.as_str(),
            want,
            "at {count}"
        );
    }
    Ok(())
}

#[test]
fn bytes_that_are_no_text(rt: HostRuntime) -> Result<(), Fail> {
    let alloc = rt.alloc();
    let mut maker = Maker::new(0);
    let text = b"{\"main\":\"\xff\",\"problems\":[{\"name\":\"p\"}]}";
    assert_eq!(rt; answer(alloc, text, &mut maker)?.as_str(), "not JSON");
    Ok(())
}

// Four patterns, in order: a source's package and name, a sink's package and name.
const COMMANDS: &str =
    r#"{"problems":[{"name":"p","sinks":[{"name":"^Command$","package":"^os/exec$"}],"sources":[{"kind":"global","package":"^os$","name":"^Args$"}]}]}"#;

#[test]
fn a_maker_refuses_one_call(rt: HostRuntime) -> Result<(), Fail> {
    let alloc = rt.alloc();
    for (refusing, want) in [
        (0, "ok"),
        (1, "pattern too large problems[0].sources[0].package"),
        (2, "pattern too large problems[0].sources[0].name"),
        (3, "pattern too large problems[0].sinks[0].package"),
        (4, "pattern too large problems[0].sinks[0].name"),
        (5, "ok"),
    ] {
        let mut maker = Maker::new(refusing);
        let found = answer(alloc, COMMANDS.as_bytes(), &mut maker)?;
        assert_eq!(rt; found.as_str(), want, "at {refusing}");
    }
    let mut maker = Maker::new(1);
    assert!(rt; matches!(maker.compile(alloc, "^a$"), Err(PatternFault::Size)));
    assert_eq!(rt; maker.refusals(), 1);
    assert!(rt; matches!(maker.last(), Some(text) if text.as_str() == "^a$"));
    assert!(rt; matches!(maker.compile(alloc, "^a$"), Ok(_)));
    assert!(rt; matches!(maker.compile(alloc, "("), Err(PatternFault::NoPattern)));
    Ok(())
}

#[test]
fn a_pattern_is_too_large(rt: HostRuntime) -> Result<(), Fail> {
    let alloc = rt.alloc();
    let mut maker = Maker::new(0);
    let text =
        r#"{"problems":[{"name":"p","sinks":[{"package":"a{1000}"},{"receiver":"(?:a{1000}){1000}"}]}]}"#;
    let found = answer(alloc, text.as_bytes(), &mut maker)?;
    assert_eq!(rt;
        found.as_str(),
        "pattern too large problems[0].sinks[1].receiver"
    );
    Ok(())
}

#[test]
fn without_a_file(rt: HostRuntime) -> Result<(), Fail> {
    let config: Config = fallback(rt.alloc())?;
    assert_eq!(rt; config.main.as_str(), "");
    assert_eq!(rt; config.problems.len(), 1);
    for asked in config.problems.as_slice() {
        assert_eq!(rt; asked.name.as_str(), "default");
        assert!(rt; !asked.escapes);
        for matcher in asked.points.as_slice() {
            assert!(rt; matches!(&matcher.package, Test::All));
            match &matcher.name {
                Test::Whole(name) => assert_eq!(rt; name.as_str(), "sink"),
                _ => assert!(rt; false),
            }
        }
    }
    Ok(())
}
