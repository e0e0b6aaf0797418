// The functions of a program.

use argot_text::{Paths, Pos, Sequence, Text};

/// What a function is made from.
#[derive(Drop)]
pub enum Role {
    /// A function that the program's text has, the entry, an initialiser or an external.
    Own,
    /// The function that stands for a method where a value is called through an interface.
    Wrapper,
    /// The function of a method value.
    Bound,
}

/// The name by which a declared function, field or variable is found.
#[derive(Drop)]
pub struct Ident {
    /// The package's path.
    pub package: Text,
    /// The receiver's type, empty where there is none.
    pub receiver: Text,
    /// The name itself.
    pub name: Text,
}

/// A function, whose places are those from `entry` to `leave`.
#[derive(Drop)]
pub struct Function {
    /// The name that is printed.
    pub name: Text,
    /// Where it is declared.
    pub at: Pos,
    /// Its first place, which defines the parameters.
    pub entry: u32,
    /// The place at which deferred calls run.
    pub exit: u32,
    /// The place at which it hands its values back, its last one.
    pub leave: u32,
    /// How many parameters it has; they are its first registers.
    pub params: u32,
    /// How many results it has.
    pub results: u32,
    /// The leaf paths of the type of each register.
    pub registers: Sequence<Paths>,
    /// The declared method that a wrapper calls, but for a method of an embedded interface.
    pub wraps: Option<u32>,
    /// What it is made from.
    pub role: Role,
    /// The name of a declared function or method.
    pub ident: Option<Ident>,
    /// Whether its first parameter is the reference by which it is called.
    pub has_env: bool,
    /// None for a function with a body, else whether its results depend on its arguments.
    pub external: Option<bool>,
}
