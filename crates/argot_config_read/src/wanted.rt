// A configuration as it is written, with its patterns still texts.

use crate::MatchKind;
use argot_text::{Sequence, Text};
use argot_tree::Entries;

/// A matcher as it is written. Where a pattern is missing everything matches.
#[derive(Drop)]
pub(crate) struct WantedMatcher {
    pub(crate) kind: MatchKind,
    pub(crate) package: Option<Text>,
    pub(crate) receiver: Option<Text>,
    pub(crate) name: Option<Text>,
}

/// A problem as it is written.
#[derive(Drop)]
pub(crate) struct WantedProblem {
    pub(crate) name: Text,
    pub(crate) sources: Sequence<WantedMatcher>,
    pub(crate) sinks: Sequence<WantedMatcher>,
    pub(crate) sanitizers: Sequence<WantedMatcher>,
    pub(crate) validators: Sequence<WantedMatcher>,
    pub(crate) points: Sequence<WantedMatcher>,
    pub(crate) escapes: bool,
}

/// A configuration as it is written.
#[derive(Drop)]
pub(crate) struct Wanted {
    pub(crate) main: Text,
    pub(crate) problems: Sequence<WantedProblem>,
    pub(crate) externals: Entries,
}
