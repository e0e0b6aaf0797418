// A way into a value, from the whole to one of its leaves.
use crate::Sequence;

/// One step into a value.
#[derive(Clone, Copy, Debug, PartialEq, Eq)]
pub enum PathStep {
    /// The field of a struct with this number, counted from 0.
    Field(u32),
    /// An element of an array or a slice, whichever.
    Element,
    /// A key of a map.
    Key,
    /// A value of a map.
    Value,
    /// An element of a channel.
    Channel,
    /// The captured variable of a function value with this number, counted from 0.
    Capture(u32),
}

/// A path: its steps from the outermost on.
pub type Path = Sequence<PathStep>;

/// A list of paths.
pub type Paths = Sequence<Path>;
