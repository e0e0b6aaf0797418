// A whole program, well formed.

ghost use Rattle.std.specs.Prelude.{◌≡◌, ◌<◌, Some, length, slice_get};
ghost use Rattle.argot_plain.specs.Code.{IsAt, IsFunction};
ghost use Rattle.argot_plain.specs.WellFormed.{WellFormed};

use crate::functions::{Function, Ident};
use crate::instructions::{Instr, Kind};
use crate::problems::Problem;
use crate::sites::Site;
use argot_text::{Pos, Sequence, Text, Texts};
use std::marker::Model;

/// A program of plain code, well formed.
#[derive(Drop)]
pub struct Program {
    functions: Sequence<Function>,
    instrs: Sequence<Instr>,
    sites: Sequence<Site>,
    globals: Sequence<(Ident, Pos, u32)>,
    methods: Sequence<(u32, Text, u32)>,
    implements: Sequence<(u32, u32)>,
    files: Texts,
}

impl Model for Program {
    ghost use Rattle.argot_plain.specs.Code.{Code};

    ghost Value = { Code };

    ghost use Rattle.argot_plain.specs.WellFormed.{WellFormed, code_of};

    ghost view = { code_of };

    ghost invariant = { λ p. WellFormed (code_of p) };
}

impl Program {
    /// The program of these parts, which have to be well formed.
    pub fn from_parts(
        functions: Sequence<Function>,
        instrs: Sequence<Instr>,
        sites: Sequence<Site>,
        globals: Sequence<(Ident, Pos, u32)>,
        methods: Sequence<(u32, Text, u32)>,
        implements: Sequence<(u32, u32)>,
        files: Texts,
    ) -> Program
        requires { WellFormed (record { functions = functions; instrs = instrs; sites = sites; globals = globals; methods = methods; implements = implements; files = files }) }
        ensures { result ≡ record { functions = functions; instrs = instrs; sites = sites; globals = globals; methods = methods; implements = implements; files = files } }
    {
        Program {
            functions,
            instrs,
            sites,
            globals,
            methods,
            implements,
            files,
        }
    }

    /// How many functions it has.
    pub fn function_count(&self) -> usize
        ensures count { result ≡ length self.now.functions }
        ensures well { WellFormed self.now }
    {
        self.functions.len()
    }

    /// The function of a number.
    pub fn function(&self, number: usize) -> &Function
        requires { number < length self.now.functions }
        ensures { IsFunction self.now number result.now }
    {
        &self.functions.as_vec()[number]
    }

    /// How many places it has.
    pub fn len(&self) -> usize
        ensures count { result ≡ length self.now.instrs }
        ensures well { WellFormed self.now }
    {
        self.instrs.len()
    }

    /// The instruction at a place.
    pub fn instr(&self, place: usize) -> &Instr
        requires { place < length self.now.instrs }
        ensures { slice_get self.now.instrs place ≡ Some result.now }
    {
        &self.instrs.as_vec()[place]
    }

    /// What the instruction at a place does.
    pub fn kind(&self, place: usize) -> &Kind
        requires { place < length self.now.instrs }
        ensures { IsAt self.now place result.now }
    {
        &self.instrs.as_vec()[place].kind
    }

    /// How many sites it has.
    pub fn site_count(&self) -> usize
        ensures count { result ≡ length self.now.sites }
        ensures well { WellFormed self.now }
    {
        self.sites.len()
    }

    /// The site of a number.
    pub fn site(&self, number: usize) -> &Site
        requires { number < length self.now.sites }
        ensures { slice_get self.now.sites number ≡ Some result.now }
    {
        &self.sites.as_vec()[number]
    }

    /// The package variables, each with its name, its position and its site.
    pub fn globals(&self) -> &Vec<(Ident, Pos, u32)>
        ensures { result.now.items ≡ self.now.globals }
    {
        self.globals.as_vec()
    }

    /// The wrappers, each with the type and the name of its method.
    pub fn methods(&self) -> &Vec<(u32, Text, u32)>
        ensures { result.now.items ≡ self.now.methods }
    {
        self.methods.as_vec()
    }

    /// The pairs of a type of a box and a type that it is or implements.
    pub fn implements(&self) -> &Vec<(u32, u32)>
        ensures { result.now.items ≡ self.now.implements }
    {
        self.implements.as_vec()
    }

    /// The paths of the files, which positions name by number.
    pub fn files(&self) -> &Texts
        ensures { result.now ≡ self.now.files }
    {
        &self.files
    }
}

fn needs_sharing<T: Send + Sync>(_shared: &T) {}

/// Workers may share a program and a problem: the check of this function shows that both types are `Send` and `Sync`.
pub fn may_be_shared(program: &Program, problem: &Problem) {
    needs_sharing(program);
    needs_sharing(problem);
}
