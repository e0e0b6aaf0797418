// The instructions of a program. Registers are numbered in each function, places over the program.

use crate::functions::Ident;
use argot_text::{Path, Paths, Pos, Sequence, Text};

/// What is called.
#[derive(Drop)]
pub enum Callee {
    /// The function of this number.
    Static(u32),
    /// Each function of an object that this register refers to.
    Value(u32),
    /// The method of this name of the value in the box that this register refers to.
    Method(u32, Text),
}

/// An instruction.
#[derive(Drop)]
pub enum Kind {
    /// A number, text or truth value computed from others, as `r2 = op r0 r1`.
    Op {
        to: u32,
        from: Sequence<u32>,
    },
    /// What stands below a path of a value, as `r1 = r0.0`.
    Move {
        to: u32,
        from: u32,
        path: Path,
    },
    /// A value put together from parts at their paths; without parts a zero value.
    Join {
        to: u32,
        parts: Sequence<(Path, u32)>,
    },
    /// A reference to a fresh object of the site, as `r0 = new s3`.
    New {
        to: u32,
        site: u32,
    },
    /// The reference to a part of what a reference refers to, as `r1 = &r0.0`.
    Step {
        to: u32,
        from: u32,
        path: Path,
    },
    /// What stands at these leaves of what a reference refers to, as `r1 = *r0`.
    Read {
        to: u32,
        at: u32,
        leaves: Paths,
    },
    /// A value put where a reference refers to, as `*r0 = r1`.
    Write {
        at: u32,
        from: u32,
    },
    /// A slice with items added, in place or in a copy, as `r1 = grow r0 r2`.
    Grow {
        to: u32,
        at: u32,
        items: Sequence<u32>,
    },
    /// A reference to a package variable.
    Global {
        to: u32,
        global: u32,
    },
    /// A box where its type is or implements the target, else nothing.
    Assert {
        to: u32,
        from: u32,
        target: u32,
    },
    /// A call, as `r2 = call f4 r0 r1`.
    Call {
        to: Sequence<u32>,
        callee: Callee,
        args: Sequence<u32>,
    },
    /// A call in a goroutine of its own.
    Go {
        callee: Callee,
        args: Sequence<u32>,
    },
    /// A call that runs at the function's exit.
    Defer {
        callee: Callee,
        args: Sequence<u32>,
    },
    /// The deferred calls, last first: the exit of a function.
    RunDefers,
    /// The end of a function, which hands these values back.
    Leave {
        from: Sequence<u32>,
    },
    /// Goes on at the target.
    Goto {
        target: u32,
    },
    /// Goes on at any one of the targets.
    Branch {
        targets: Sequence<u32>,
    },
    /// Begins to unwind.
    Panic {
        from: u32,
    },
    /// A register behind a test of it by the function `callee`.
    Passed {
        to: u32,
        callee: u32,
    },
}

/// A field or package variable that a place expression goes through.
#[derive(Drop)]
pub struct Tag {
    /// Whether it is a package variable.
    pub global: bool,
    /// Its name.
    pub ident: Ident,
}

/// The fields and package variables of a place expression, in order.
pub type Tags = Sequence<Tag>;

/// An instruction with its position.
#[derive(Drop)]
pub struct Instr {
    /// What it does.
    pub kind: Kind,
    /// Where it stands in the text.
    pub at: Pos,
    /// What the place expression of a Read or Move goes through.
    pub tags: Tags,
}
