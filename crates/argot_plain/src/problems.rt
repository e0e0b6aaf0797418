// What is asked of a program.

use argot_text::{Sequence, Text};

/// Which functions and places are sources, sinks and so on. The lists hold function numbers.
#[derive(Drop)]
pub struct Problem {
    /// Its number in the configuration, which its findings bear.
    pub number: u32,
    /// Its name.
    pub name: Text,
    /// Functions whose results are tracked.
    pub sources: Sequence<u32>,
    /// Functions that tracked data is to stay away from.
    pub sinks: Sequence<u32>,
    /// Functions whose results are clean.
    pub sanitizers: Sequence<u32>,
    /// Functions that test a value, which is clean behind the test.
    pub validators: Sequence<u32>,
    /// Functions whose arguments are traced back.
    pub points: Sequence<u32>,
    /// Places whose results are tracked, each with the name of the field or variable.
    pub source_places: Sequence<(u32, Text)>,
    /// Whether escapes are asked for.
    pub escapes: bool,
}
