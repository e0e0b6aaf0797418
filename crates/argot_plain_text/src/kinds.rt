// Instructions, a line each.
use crate::paths::{parts_of, path_of, paths_of};
use crate::words::{callee_of, number_at, number_of, numbers_of};
use argot_plain::{Callee, Kind};
use argot_text::{Memory, Sequence};
use std::alloc::Global;

fn op(alloc: Global, to: &str, from: &[&str]) -> Result<Option<Kind>, Memory> {
    let Some(to) = number_of(to) else {
        return Ok(None);
    };
    match numbers_of(alloc, from)? {
        Some(from) => Ok(Some(Kind::Op { to, from })),
        None => Ok(None),
    }
}

fn join(alloc: Global, to: &str, parts: &[&str]) -> Result<Option<Kind>, Memory> {
    let Some(to) = number_of(to) else {
        return Ok(None);
    };
    match parts_of(alloc, parts)? {
        Some(parts) => Ok(Some(Kind::Join { to, parts })),
        None => Ok(None),
    }
}

// A Move or a Step.
fn along(
    alloc: Global,
    to: &str,
    from: &str,
    path: &str,
    moves: bool,
) -> Result<Option<Kind>, Memory> {
    let Some(to) = number_of(to) else {
        return Ok(None);
    };
    let Some(from) = number_of(from) else {
        return Ok(None);
    };
    let Some(path) = path_of(alloc, path)? else {
        return Ok(None);
    };
    if moves {
        Ok(Some(Kind::Move { to, from, path }))
    } else {
        Ok(Some(Kind::Step { to, from, path }))
    }
}

fn read(alloc: Global, to: &str, at: &str, leaves: &str) -> Result<Option<Kind>, Memory> {
    let Some(to) = number_of(to) else {
        return Ok(None);
    };
    let Some(at) = number_of(at) else {
        return Ok(None);
    };
    match paths_of(alloc, leaves)? {
        Some(leaves) => Ok(Some(Kind::Read { to, at, leaves })),
        None => Ok(None),
    }
}

fn grow(alloc: Global, to: &str, at: &str, items: &[&str]) -> Result<Option<Kind>, Memory> {
    let Some(to) = number_of(to) else {
        return Ok(None);
    };
    let Some(at) = number_of(at) else {
        return Ok(None);
    };
    match numbers_of(alloc, items)? {
        Some(items) => Ok(Some(Kind::Grow { to, at, items })),
        None => Ok(None),
    }
}

// The callee and the arguments of a call.
fn handed(alloc: Global, words: &[&str]) -> Result<Option<(Callee, Sequence<u32>)>, Memory> {
    let [callee, args @ ..] = words else {
        return Ok(None);
    };
    let Some(callee) = callee_of(alloc, *callee)? else {
        return Ok(None);
    };
    match numbers_of(alloc, args)? {
        Some(args) => Ok(Some((callee, args))),
        None => Ok(None),
    }
}

fn call_of(alloc: Global, to: &[&str], words: &[&str]) -> Result<Option<Kind>, Memory> {
    let Some(to) = numbers_of(alloc, to)? else {
        return Ok(None);
    };
    match handed(alloc, words)? {
        Some((callee, args)) => Ok(Some(Kind::Call { to, callee, args })),
        None => Ok(None),
    }
}

fn call(alloc: Global, words: &[&str]) -> Result<Option<Kind>, Memory> {
    for i in 0..words.len() {
        if words[i] == "=" {
            return call_of(alloc, &words[..i], &words[i + 1..]);
        }
    }
    Ok(None)
}

// A Go or a Defer.
fn later(alloc: Global, words: &[&str], goes: bool) -> Result<Option<Kind>, Memory> {
    let Some((callee, args)) = handed(alloc, words)? else {
        return Ok(None);
    };
    if goes {
        Ok(Some(Kind::Go { callee, args }))
    } else {
        Ok(Some(Kind::Defer { callee, args }))
    }
}

// An instruction of two numbers at the most.
fn short(name: &str, words: &[&str]) -> Option<Kind> {
    if name == "rundefers" {
        return Some(Kind::RunDefers);
    }
    let Some(a) = number_at(words, 0) else {
        return None;
    };
    match name {
        "goto" => return Some(Kind::Goto { target: a }),
        "panic" => return Some(Kind::Panic { from: a }),
        _ => {}
    }
    let Some(b) = number_at(words, 1) else {
        return None;
    };
    match name {
        "new" => Some(Kind::New { to: a, site: b }),
        "write" => Some(Kind::Write { at: a, from: b }),
        "global" => Some(Kind::Global { to: a, global: b }),
        "passed" => Some(Kind::Passed { to: a, callee: b }),
        "assert" => match number_at(words, 2) {
            Some(target) => Some(Kind::Assert {
                to: a,
                from: b,
                target,
            }),
            None => None,
        },
        _ => None,
    }
}

fn listed(alloc: Global, words: &[&str], leaves: bool) -> Result<Option<Kind>, Memory> {
    let Some(numbers) = numbers_of(alloc, words)? else {
        return Ok(None);
    };
    if leaves {
        Ok(Some(Kind::Leave { from: numbers }))
    } else {
        Ok(Some(Kind::Branch { targets: numbers }))
    }
}

/// The instruction of a line.
pub fn kind_of(alloc: Global, words: &[&str]) -> Result<Option<Kind>, Memory> {
    match words {
        ["op", to, from @ ..] => op(alloc, *to, from),
        ["join", to, parts @ ..] => join(alloc, *to, parts),
        ["move", to, from, path] => along(alloc, *to, *from, *path, true),
        ["step", to, from, path] => along(alloc, *to, *from, *path, false),
        ["read", to, at, leaves] => read(alloc, *to, *at, *leaves),
        ["grow", to, at, items @ ..] => grow(alloc, *to, *at, items),
        ["call", rest @ ..] => call(alloc, rest),
        ["go", rest @ ..] => later(alloc, rest, true),
        ["defer", rest @ ..] => later(alloc, rest, false),
        ["leave", rest @ ..] => listed(alloc, rest, true),
        ["branch", rest @ ..] => listed(alloc, rest, false),
        [name, rest @ ..] => Ok(short(*name, rest)),
        _ => Ok(None),
    }
}
