// The rules, and why there may be none.
use argot_facts::Node;
use argot_text::{Memory, Path};
use std::alloc::{AllocError, AllocFailed};
use thiserror::Error;

/// Why there is no answer, in the order in which it is looked for.
#[derive(Clone, Copy, Debug, PartialEq, Eq, Drop, Error)]
pub enum PointsFault {
    /// There are more than 262,144 nodes.
    #[error("too many nodes")]
    Nodes,
    /// There are more than 65,536 locations.
    #[error("too many locations")]
    Locations,
    /// Nodes and locations, times locations, are more than 4,294,967,296.
    #[error("too large a table")]
    Table,
    /// There was no memory left.
    #[error("out of memory")]
    Memory,
}

impl From<AllocError> for PointsFault {
    ghost use Rattle.std.specs.Prelude.{◌≡◌};
    ghost use Rattle.argot_points_rules.specs.declared.rules.PointsFault.TheVariants.{Memory};

    ghost from_gives = { λ _ e. e ≡ Memory };

    fn from(_e: AllocError) -> PointsFault {
        PointsFault::Memory
    }
}

impl<T: Drop> From<AllocFailed<T>> for PointsFault {
    ghost use Rattle.std.specs.Prelude.{◌≡◌};
    ghost use Rattle.argot_points_rules.specs.declared.rules.PointsFault.TheVariants.{Memory};

    ghost from_gives = { λ _ e. e ≡ Memory };

    fn from(_e: AllocFailed<T>) -> PointsFault {
        PointsFault::Memory
    }
}

impl From<Memory> for PointsFault {
    ghost use Rattle.std.specs.Prelude.{◌≡◌};
    ghost use Rattle.argot_points_rules.specs.declared.rules.PointsFault.TheVariants.{Memory as OutOfMemory};

    ghost from_gives = { λ _ e. e ≡ OutOfMemory };

    fn from(_e: Memory) -> PointsFault {
        PointsFault::Memory
    }
}

/// What an instruction asks of the relation. A node is known by its place, index and leaf; the objects of a site
/// are referred to as a whole by the site's location with the empty path. A call goes by the node `by` where its callee
/// isn't a function's number.
#[derive(Drop)]
pub enum Rule {
    /// The node refers to the objects of the site.
    Put {
        to: Node,
        site: u32,
    },
    /// The node refers to all that another does.
    Copy {
        to: Node,
        source: Node,
    },
    /// The node refers to what another does, moved along a path.
    Shift {
        to: Node,
        source: Node,
        path: Path,
    },
    /// The node refers to the boxes of a type that another does.
    Keep {
        to: Node,
        source: Node,
        target: u32,
    },
    /// The node refers to what stands along a path behind `at`.
    Load {
        to: Node,
        at: Node,
        path: Path,
    },
    /// What stands along a path behind `at` refers to all that the node does.
    Store {
        at: Node,
        path: Path,
        source: Node,
    },
    /// The targets of the place are live.
    Aim {
        place: u32,
        by: Node,
    },
    /// The parameters that the handed value of this index becomes at the targets refer, at the leaf of this path, to
    /// all that the node does.
    Enter {
        place: u32,
        by: Node,
        index: u32,
        path: Path,
        source: Node,
    },
    /// The parameters that the handed value of this index becomes, by which the callee is found, each refer to that alone of
    /// what the value refers to by which their function is meant.
    Choose {
        place: u32,
        by: Node,
        index: u32,
    },
    /// The node refers to all that the targets hand back with this index at the leaf of this path.
    Return {
        place: u32,
        by: Node,
        index: u32,
        path: Path,
        to: Node,
    },
    /// The node refers to the objects of the site if a target is an external.
    Fresh {
        place: u32,
        by: Node,
        to: Node,
        site: u32,
    },
}

/// A rule that counts where the function is live.
#[derive(Drop)]
pub struct Owned {
    pub function: u32,
    pub rule: Rule,
}
