//! Plain code of the first form: programs in one file without branches, whose values are all texts. It has seven kinds of
//! instructions, and `specs/First.antt` its programs and their flows.

use sqlite_items::Items;

/// What an instruction does. Registers are numbered in each function, places and functions over the program.
#[derive(Debug, Drop)]
pub enum Kind {
    /// Gives a value that is made from these registers.
    Op {
        to: usize,
        from: Items<usize>,
    },
    /// Gives what another register holds.
    Move {
        to: usize,
        from: usize,
    },
    /// Calls the function with this number.
    Call {
        to: Items<usize>,
        function: usize,
        arguments: Items<usize>,
    },
    /// Runs the deferred calls.
    RunDefers,
    /// Ends the function and hands these registers back.
    Leave {
        from: Items<usize>,
    },
    /// Goes on at a place.
    Goto {
        target: usize,
    },
    /// Goes on at any of these places.
    Branch {
        targets: Items<usize>,
    },
}
