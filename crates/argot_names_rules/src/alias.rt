// How an import names its package.

/// The name that an import has of its own.
#[derive(Clone, Copy, Debug, PartialEq, Eq)]
pub enum Alias {
    /// None: the package's own name counts.
    Unnamed,
    /// A dot.
    Dotted,
    /// That of the token of this number.
    Named(u32),
}
