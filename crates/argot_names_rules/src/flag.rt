// What the subset leaves out.
use argot_text::Pos;

/// What is left out by name, in the order in which two at one place are listed.
#[derive(Clone, Copy, Debug, PartialEq, Eq)]
pub enum Feature {
    ImportUnsafe,
    ImportReflect,
    ImportC,
    /// An import with `.`.
    DotImport,
    /// A `.s` file in the folder of a package.
    AssemblyFile,
    /// `//go:linkname`.
    Linkname,
    /// `//go:build`.
    BuildLine,
    /// `//go:embed`.
    Embed,
    TypeParameters,
    FloatingPointLiteral,
    ImaginaryLiteral,
    /// `float32` or `float64`.
    FloatingPointType,
    /// `complex64` or `complex128`.
    ComplexType,
    /// `complex`, `real` or `imag`.
    ComplexBuiltIn,
    Uintptr,
    Comparable,
    Recover,
    Goto,
    /// `T.M` or `(*T).M`.
    MethodExpression,
    /// A function or method that has neither a body nor an entry.
    FunctionWithoutBody,
    /// A `go` line that names 1.22 or later.
    GoLine,
}

/// A feature that is left out, and where it stands.
#[derive(Clone, Copy, Debug, PartialEq, Eq)]
pub struct Flag {
    pub at: Pos,
    pub feature: Feature,
}
