// A configuration that has been read.

use argot_text::{Sequence, Text};
use argot_tree::Entries;
use regex::Regex;

/// What a matcher looks at.
#[derive(Clone, Copy, Debug, PartialEq, Eq)]
pub enum MatchKind {
    /// A function or method: the import path, the receiver's type, the name.
    Func,
    /// A field: the path and the name of its struct type, the field's name.
    Field,
    /// A package variable: the path, an empty receiver, the name.
    Global,
}

/// A test of a text.
#[derive(Drop)]
pub enum Test {
    /// Every text passes.
    All,
    /// This text alone passes.
    Whole(Text),
    /// A text passes in which the pattern matches somewhere.
    Built(Regex),
}

/// Which functions, fields or package variables are meant: those of which each part passes its test.
#[derive(Drop)]
pub struct Matcher {
    /// What is looked at.
    pub kind: MatchKind,
    /// The test of the package's path.
    pub package: Test,
    /// The test of the receiver's type.
    pub receiver: Test,
    /// The test of the name.
    pub name: Test,
}

/// A problem as it is asked, before it meets a program.
#[derive(Drop)]
pub struct Asked {
    /// Its name, which no other problem has.
    pub name: Text,
    /// Functions, fields and variables whose values are tracked.
    pub sources: Sequence<Matcher>,
    /// Functions that tracked data is to stay away from.
    pub sinks: Sequence<Matcher>,
    /// Functions whose results are clean.
    pub sanitizers: Sequence<Matcher>,
    /// Functions that test a value.
    pub validators: Sequence<Matcher>,
    /// Functions whose arguments are traced back.
    pub points: Sequence<Matcher>,
    /// Whether escapes are asked for.
    pub escapes: bool,
}

/// A configuration.
#[derive(Drop)]
pub struct Config {
    /// The folder of the main package.
    pub main: Text,
    /// The problems, in order.
    pub problems: Sequence<Asked>,
    /// The flow of functions without a body, in order.
    pub externals: Entries,
}
