// The parts as they are put together.
use argot_plain::{Function, Ident, Instr, Kind, Site, Tag};
use argot_plain_parts::Parts;
use argot_text::{Memory, Pos, Sequence, Text, Texts};
use std::alloc::Global;

/// The lists of a program that is being read.
#[derive(Drop)]
pub struct Draft {
    /// The functions so far.
    pub functions: Vec<Function>,
    /// The instructions so far.
    pub instrs: Vec<Instr>,
    /// The tags of the next instruction.
    pub tags: Vec<Tag>,
    /// The sites so far.
    pub sites: Vec<Site>,
    /// The package variables so far.
    pub globals: Vec<(Ident, Pos, u32)>,
    /// The wrappers so far.
    pub methods: Vec<(u32, Text, u32)>,
    /// The pairs of a type and one that it is or implements so far.
    pub implements: Vec<(u32, u32)>,
    /// The files so far.
    pub files: Texts,
}

/// The position of all that is read.
pub fn start() -> Pos {
    Pos {
        file: 0,
        line: 1,
        col: 1,
    }
}

impl Draft {
    /// A draft of nothing.
    pub fn new(alloc: Global) -> Draft {
        Draft {
            functions: Vec::new(alloc),
            instrs: Vec::new(alloc),
            tags: Vec::new(alloc),
            sites: Vec::new(alloc),
            globals: Vec::new(alloc),
            methods: Vec::new(alloc),
            implements: Vec::new(alloc),
            files: Texts::new(alloc),
        }
    }

    /// Adds an instruction, with the tags that were read before it.
    pub fn push_kind(&mut self, alloc: Global, kind: Kind) -> Result<(), Memory> {
        let tags = std::mem::replace(&mut self.tags, Vec::new(alloc));
        let tags = Sequence::from_vec(tags);
        let at = start();
        self.instrs.push(Instr { kind, at, tags })?;
        Ok(())
    }

    /// The parts.
    pub fn into_parts(self) -> Parts {
        let Draft {
            functions,
            instrs,
            tags: _,
            sites,
            globals,
            methods,
            implements,
            files,
        } = self;
        Parts {
            functions: Sequence::from_vec(functions),
            instrs: Sequence::from_vec(instrs),
            sites: Sequence::from_vec(sites),
            globals: Sequence::from_vec(globals),
            methods: Sequence::from_vec(methods),
            implements: Sequence::from_vec(implements),
            files,
        }
    }
}
