// The words of a line as numbers, names and callees.
use argot_plain::{Callee, Ident};
use argot_text::{Memory, Sequence, Text};
use std::alloc::Global;

/// The word at this index as a number.
pub fn number_at(words: &[&str], n: usize) -> Option<u32> {
    match words.get(n) {
        Some(word) => number_of(*word),
        None => None,
    }
}

/// The word as a number.
pub fn number_of(word: &str) -> Option<u32> {
    match word.parse::<u32>() {
        Ok(number) => Some(number),
        Err(_) => None,
    }
}

/// The words as numbers.
pub fn numbers_of(alloc: Global, words: &[&str]) -> Result<Option<Sequence<u32>>, Memory> {
    let mut numbers = Vec::new(alloc);
    for word in words {
        let Some(number) = number_of(*word) else {
            return Ok(None);
        };
        numbers.push(number)?;
    }
    Ok(Some(Sequence::from_vec(numbers)))
}

/// The number of a word that may be `-`.
pub fn maybe_number(word: &str) -> Option<Option<u32>> {
    if word == "-" {
        return Some(None);
    }
    match number_of(word) {
        Some(number) => Some(Some(number)),
        None => None,
    }
}

fn method_of(alloc: Global, word: &str) -> Result<Option<Callee>, Memory> {
    let Some((register, name)) = word.split_once(':') else {
        return Ok(None);
    };
    let Some(register) = number_of(register) else {
        return Ok(None);
    };
    let name = Text::from_str(alloc, name)?;
    Ok(Some(Callee::Method(register, name)))
}

/// The callee that a word names.
pub fn callee_of(alloc: Global, word: &str) -> Result<Option<Callee>, Memory> {
    if let Some(rest) = word.strip_prefix('m') {
        return method_of(alloc, rest);
    }
    if let Some(rest) = word.strip_prefix('f') {
        return match number_of(rest) {
            Some(function) => Ok(Some(Callee::Static(function))),
            None => Ok(None),
        };
    }
    let Some(rest) = word.strip_prefix('v') else {
        return Ok(None);
    };
    match number_of(rest) {
        Some(register) => Ok(Some(Callee::Value(register))),
        None => Ok(None),
    }
}

fn named(alloc: Global, package: &str, receiver: &str, name: &str) -> Result<Ident, Memory> {
    let package = Text::from_str(alloc, package)?;
    let receiver = Text::from_str(alloc, receiver)?;
    let name = Text::from_str(alloc, name)?;
    Ok(Ident {
        package,
        receiver,
        name,
    })
}

/// The name of a declared function or a variable, as `PACKAGE:RECEIVER:NAME`.
pub fn ident_of(alloc: Global, word: &str) -> Result<Option<Ident>, Memory> {
    let Some((package, rest)) = word.split_once(':') else {
        return Ok(None);
    };
    let Some((receiver, name)) = rest.split_once(':') else {
        return Ok(None);
    };
    Ok(Some(named(alloc, package, receiver, name)?))
}
