// The parts of a program.
use argot_plain::{Function, Ident, Instr, Site};
use argot_text::{Pos, Sequence, Text, Texts};

/// What a program is made from; `argot_plain` says what each list has.
#[derive(Drop)]
pub struct Parts {
    /// The functions, by number.
    pub functions: Sequence<Function>,
    /// The instructions, by place.
    pub instrs: Sequence<Instr>,
    /// The sites, by number.
    pub sites: Sequence<Site>,
    /// The package variables, each with its name, its position and its site.
    pub globals: Sequence<(Ident, Pos, u32)>,
    /// The wrappers, each with the type and the name of its method.
    pub methods: Sequence<(u32, Text, u32)>,
    /// The pairs of a type of a box and a type that it is or implements.
    pub implements: Sequence<(u32, u32)>,
    /// The paths of the files.
    pub files: Texts,
}
