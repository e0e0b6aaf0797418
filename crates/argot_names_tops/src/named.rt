// Names that scopes declare.
ghost use Rattle.std.specs.Prelude.{◌≡◌};

use argot_files::Place;

/// A name that a scope declares: the number of the scope, which is a package's or a file's, the name, the place where it
/// stands, and what it is of: the node of its declaration, or the number of an import.
#[derive(Clone, Copy)]
pub struct Named<'a> {
    pub scope: u32,
    pub name: &'a [u8],
    pub place: Place,
    pub of: usize,
}
