// Functions, sites and the other items that are no instructions.
use crate::draft::start;
use crate::paths::paths_of;
use crate::words::{ident_of, maybe_number, number_at, number_of};
use argot_plain::{Function, Ident, Role, Site};
use argot_text::{Memory, Paths, Sequence, Text};
use std::alloc::Global;

fn role_of(word: &str) -> Option<Role> {
    match word {
        "own" => Some(Role::Own),
        "wrapper" => Some(Role::Wrapper),
        "bound" => Some(Role::Bound),
        _ => None,
    }
}

fn external_of(word: &str) -> Option<Option<bool>> {
    match word {
        "-" => Some(None),
        "flows" => Some(Some(true)),
        "inert" => Some(Some(false)),
        _ => None,
    }
}

fn maybe_ident(alloc: Global, word: &str) -> Result<Option<Option<Ident>>, Memory> {
    if word == "-" {
        return Ok(Some(None));
    }
    match ident_of(alloc, word)? {
        Some(ident) => Ok(Some(Some(ident))),
        None => Ok(None),
    }
}

fn registers_of(alloc: Global, words: &[&str]) -> Result<Option<Sequence<Paths>>, Memory> {
    let mut registers = Vec::new(alloc);
    for word in words {
        let Some(paths) = paths_of(alloc, *word)? else {
            return Ok(None);
        };
        registers.push(paths)?;
    }
    Ok(Some(Sequence::from_vec(registers)))
}

// The function of this name, whose places and counts are still 0, of the words from its role on.
fn bare(alloc: Global, name: &str, words: &[&str]) -> Result<Option<Function>, Memory> {
    let [role, env, external, wraps, ident, registers @ ..] = words else {
        return Ok(None);
    };
    let Some(role) = role_of(*role) else {
        return Ok(None);
    };
    let Some(external) = external_of(*external) else {
        return Ok(None);
    };
    let Some(wraps) = maybe_number(*wraps) else {
        return Ok(None);
    };
    let has_env = *env == "env";
    let Some(ident) = maybe_ident(alloc, *ident)? else {
        return Ok(None);
    };
    let Some(registers) = registers_of(alloc, registers)? else {
        return Ok(None);
    };
    let name = Text::from_str(alloc, name)?;
    Ok(Some(Function {
        name,
        at: start(),
        entry: 0,
        exit: 0,
        leave: 0,
        params: 0,
        results: 0,
        registers,
        wraps,
        role,
        ident,
        has_env,
        external,
    }))
}

fn counts_of(words: &[&str]) -> Option<(u32, u32, u32, u32, u32)> {
    match (
        number_at(words, 0),
        number_at(words, 1),
        number_at(words, 2),
        number_at(words, 3),
        number_at(words, 4),
    ) {
        (Some(entry), Some(exit), Some(leave), Some(params), Some(results)) => {
            Some((entry, exit, leave, params, results))
        }
        _ => None,
    }
}

/// The function of the words behind `function`.
pub fn function_of(alloc: Global, words: &[&str]) -> Result<Option<Function>, Memory> {
    if words.len() < 6 {
        return Ok(None);
    }
    let Some((entry, exit, leave, params, results)) = counts_of(&words[1..6]) else {
        return Ok(None);
    };
    let Some(mut function) = bare(alloc, words[0], &words[6..])? else {
        return Ok(None);
    };
    function.entry = entry;
    function.exit = exit;
    function.leave = leave;
    function.params = params;
    function.results = results;
    Ok(Some(function))
}

/// The site of the words behind `site`.
pub fn site_of(alloc: Global, words: &[&str]) -> Result<Option<Site>, Memory> {
    let [place, result, leaf, shape, dynamic, function] = words else {
        return Ok(None);
    };
    let Some(place) = number_of(*place) else {
        return Ok(None);
    };
    let Some(result) = number_of(*result) else {
        return Ok(None);
    };
    let Some(leaf) = number_of(*leaf) else {
        return Ok(None);
    };
    let Some(dynamic) = number_of(*dynamic) else {
        return Ok(None);
    };
    let Some(function) = maybe_number(*function) else {
        return Ok(None);
    };
    let Some(shape) = paths_of(alloc, *shape)? else {
        return Ok(None);
    };
    Ok(Some(Site {
        place,
        result,
        leaf,
        shape,
        dynamic,
        function,
    }))
}
