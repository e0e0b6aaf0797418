// Folders that are written down as texts: a case begins with a line `== NAME`, a file with a line `-- PATH --`. What is told of
// a folder stands in its files, as `// ERROR 6 declared again`: the column in that line, and the text. Lines before the first
// file say what no file can: `module m`, `go 1.22`, `entry PACKAGE,RECEIVER,NAME`, `at PATH:1:1 TEXT`, `answer TEXT`.
use std::alloc::Global;
use std::fmt::Write;
use std::test::Fail;

/// A case: its name, the lines before its files, and their paths and texts.
#[derive(Drop)]
pub struct Case<'t> {
    pub name: &'t str,
    pub heads: &'t str,
    pub files: Vec<(&'t str, &'t str)>,
}

/// The case that a text behind `== ` is.
pub fn case_of(alloc: Global, text: &str) -> Result<Case<'_>, Fail> {
    let mut parts = text.split("\n-- ");
    let first = parts.next().unwrap_or("");
    let (name, heads) = first.split_once('\n').unwrap_or((first, ""));
    let mut files = Vec::new(alloc);
    for part in parts {
        if let Some((path, rest)) = part.split_once(" --") {
            files.push((path, rest.strip_prefix("\n").unwrap_or(rest)))?;
        }
    }
    Ok(Case { name, heads, files })
}

/// What stands behind this word in a line before the files; nothing where no line begins with it.
pub fn head_of<'t>(case: &Case<'t>, word: &str) -> &'t str {
    for line in case.heads.split('\n') {
        if let Some(rest) = line.strip_prefix(word) {
            return rest;
        }
    }
    ""
}

// What the lines before the files say of a file.
fn push_heads(told: &mut String, heads: &str, path: &str) -> Result<(), Fail> {
    for line in heads.split('\n') {
        if let Some(rest) = line.strip_prefix("at ") {
            if rest.starts_with(path) {
                writeln!(told, "{rest}")?;
            }
        }
    }
    Ok(())
}

// What the comments of a file say.
fn push_errors(told: &mut String, path: &str, text: &str) -> Result<(), Fail> {
    let mut row: u32 = 0;
    for line in text.split('\n') {
        row = row.saturating_add(1);
        if let Some((_, errors)) = line.split_once("// ERROR ") {
            for error in errors.split("; ") {
                let (col, what) = error.split_once(' ').unwrap_or((error, ""));
                writeln!(told, "{path}:{row}:{col} {what}")?;
            }
        }
    }
    Ok(())
}

/// All that is to be told of the folder, a line each.
pub fn wanted_of(alloc: Global, case: &Case) -> Result<String, Fail> {
    let mut told = String::new(alloc);
    let answer = head_of(case, "answer ");
    if !answer.is_empty() {
        writeln!(told, "{answer}")?;
    }
    for (path, text) in case.files.as_slice() {
        push_heads(&mut told, case.heads, path)?;
        push_errors(&mut told, path, text)?;
    }
    Ok(told)
}
