// A byte of a file, and which of two comes first.
ghost use Rattle.std.specs.Prelude.{◌≡◌, ◌↔◌, IsTrue};
ghost use Rattle.argot_names_rules.specs.Files.{IsBefore};
ghost use Rattle.argot_files.specs.Places.{place_of, before};

/// A byte of a file.
#[derive(Clone, Copy, Debug, PartialEq, Eq)]
pub struct Place {
    /// The number of the file.
    pub file: u32,
    /// The offset of the byte, counted from 0.
    pub offset: u32,
}

/// Whether the one stands before the other: by file, and in a file by offset. No memory.
pub fn is_before(a: Place, b: Place) -> bool
    ensures computed { result ≡ before a b }
    ensures exact { IsTrue result ↔ IsBefore (place_of a) (place_of b) }
{
    a.file < b.file || (a.file == b.file && a.offset < b.offset)
}
