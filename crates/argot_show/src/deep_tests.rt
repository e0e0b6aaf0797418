// Files of 8 MiB that are as deep as they are long: each has a tree, and no call is as deep as a file is long, which at so
// many links no stack would hold.
use argot_lex::lex;
use argot_parse::parse;
use std::alloc::Global;
use std::test::Fail;

/// How long a file is, about.
const BYTES: usize = 8_388_608;

// What stands before, the link as often as it fits, what stands behind.
fn chain(alloc: Global, before: &str, link: &str, behind: &str) -> Result<String, Fail> {
    let mut file = String::from_str(alloc, before)?;
    if let Some(count) = BYTES.checked_div(link.len()) {
        for _ in 0..count {
            file.push_str(link)?;
        }
    }
    file.push_str(behind)?;
    Ok(file)
}

// Whether the file has a tree.
fn is_parsed(alloc: Global, file: &str) -> bool {
    let bytes = file.as_bytes();
    if bytes.len() >= u32::MAX as usize {
        return false;
    }
    let Ok(lexed) = lex(alloc, bytes) else {
        return false;
    };
    parse(alloc, lexed.tokens.as_vec()).is_ok()
}

// Whether the chain is a file of the language.
fn has_tree(alloc: Global, before: &str, link: &str, behind: &str) -> Result<bool, Fail> {
    let file = chain(alloc, before, link, behind)?;
    Ok(is_parsed(alloc, file.as_str()))
}

#[test]
fn types_go_on_to_their_right(rt: HostRuntime) -> Result<(), Fail> {
    let before = "package main\n\nvar x ";
    for link in [
        "func()",
        "[]func()",
        "*func()",
        "chan func()",
        "[f()]",
        "map[(a)]",
    ] {
        let found = has_tree(rt.alloc(), before, link, "int\n")?;
        assert!(rt; found, "{link}");
    }
    Ok(())
}

#[test]
fn operators_and_calls_go_on(rt: HostRuntime) -> Result<(), Fail> {
    let before = "package main\n\nvar x = a";
    for link in ["/a", "||a", "()", "(1)", ".f", ".(T)", "[f(i)]"] {
        let found = has_tree(rt.alloc(), before, link, "\n")?;
        assert!(rt; found, "{link}");
    }
    Ok(())
}

#[test]
fn statements_go_on(rt: HostRuntime) -> Result<(), Fail> {
    let before = "package main\n\nfunc main() {\n\tif a {\n\t}";
    for link in [" else if a {\n\t}", " else if b := a; b > 1 {\n\t}"] {
        let found = has_tree(rt.alloc(), before, link, "\n}\n")?;
        assert!(rt; found, "{link}");
    }
    let before = "package main\n\nfunc main() {\n\t";
    let found = has_tree(rt.alloc(), before, "L:\n", "return\n}\n")?;
    assert!(rt; found);
    Ok(())
}

// Whether the language has one value again and again: what opens and what closes, so deep.
fn is_repeated(alloc: Global, open: &str, close: &str, depth: usize) -> Result<bool, Fail> {
    let mut link = String::from_str(alloc, "var _ = ")?;
    for _ in 0..depth {
        link.push_str(open)?;
    }
    link.push_str("1")?;
    for _ in 0..depth {
        link.push_str(close)?;
    }
    link.push_str("\n")?;
    has_tree(alloc, "package main\n\n", link.as_str(), "")
}

#[test]
fn values_nest_as_deep_as_they_may(rt: HostRuntime) -> Result<(), Fail> {
    for (open, close, depth) in [
        ("T{", "}", 199),
        ("f(", ")", 199),
        ("f(func() {\nreturn ", "\n})", 99),
    ] {
        let found = is_repeated(rt.alloc(), open, close, depth)?;
        assert!(rt; found, "{open}");
    }
    Ok(())
}
