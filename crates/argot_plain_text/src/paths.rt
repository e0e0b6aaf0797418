// Paths and lists of them.
use crate::words::number_of;
use argot_text::{Memory, Path, PathStep, Paths, Sequence};
use std::alloc::Global;

fn step_of(word: &str) -> Option<PathStep> {
    match word {
        "e" => return Some(PathStep::Element),
        "k" => return Some(PathStep::Key),
        "v" => return Some(PathStep::Value),
        "c" => return Some(PathStep::Channel),
        _ => {}
    }
    if let Some(rest) = word.strip_prefix('f') {
        return match number_of(rest) {
            Some(n) => Some(PathStep::Field(n)),
            None => None,
        };
    }
    let Some(rest) = word.strip_prefix('x') else {
        return None;
    };
    match number_of(rest) {
        Some(n) => Some(PathStep::Capture(n)),
        None => None,
    }
}

/// The path of a word: `-` or steps with dots between them.
pub fn path_of(alloc: Global, word: &str) -> Result<Option<Path>, Memory> {
    let mut steps = Vec::new(alloc);
    if word == "-" {
        return Ok(Some(Sequence::from_vec(steps)));
    }
    for part in word.split('.') {
        let Some(step) = step_of(part) else {
            return Ok(None);
        };
        steps.push(step)?;
    }
    Ok(Some(Sequence::from_vec(steps)))
}

/// The paths of a word: `none` or paths with commas between them.
pub fn paths_of(alloc: Global, word: &str) -> Result<Option<Paths>, Memory> {
    let mut paths = Vec::new(alloc);
    if word == "none" {
        return Ok(Some(Sequence::from_vec(paths)));
    }
    for part in word.split(',') {
        let Some(path) = path_of(alloc, part)? else {
            return Ok(None);
        };
        paths.push(path)?;
    }
    Ok(Some(Sequence::from_vec(paths)))
}

fn part_of(alloc: Global, word: &str) -> Result<Option<(Path, u32)>, Memory> {
    let Some((path, register)) = word.split_once('=') else {
        return Ok(None);
    };
    let Some(register) = number_of(register) else {
        return Ok(None);
    };
    let Some(path) = path_of(alloc, path)? else {
        return Ok(None);
    };
    Ok(Some((path, register)))
}

/// The parts of a Join.
pub fn parts_of(alloc: Global, words: &[&str]) -> Result<Option<Sequence<(Path, u32)>>, Memory> {
    let mut parts = Vec::new(alloc);
    for word in words {
        let Some(part) = part_of(alloc, *word)? else {
            return Ok(None);
        };
        parts.push(part)?;
    }
    Ok(Some(Sequence::from_vec(parts)))
}
