// What the words ask for.
use std::rt::Env;
use std::{env, io};

/// What is printed.
#[derive(Clone, Copy)]
pub enum Asked {
    /// The packages, declarations and uses.
    Lines,
    /// How many there are.
    Count,
    /// How many nodes the trees have.
    Parse,
}

/// What is asked for, and the file that is named, where one is.
#[derive(Drop)]
pub struct Words {
    pub asked: Asked,
    pub file: Option<String>,
}

// What one word asks for; any other word names a file.
fn asked_by(word: &str) -> Option<Asked> {
    if word == "-count" {
        return Some(Asked::Count);
    }
    if word == "-parse" {
        return Some(Asked::Parse);
    }
    None
}

/// The words behind the program's own name; of several that say the same thing the last counts.
pub fn read_words<R: Env + AllocGlobal>(rt: &R) -> io::Result<Words> {
    let mut words = Words {
        asked: Asked::Lines,
        file: None,
    };
    for word in env::args(rt)?.skip(1) {
        match asked_by(word.as_str()) {
            Some(asked) => words.asked = asked,
            None => words.file = Some(word),
        }
    }
    Ok(words)
}
