// The files of a folder, as they were read.
use crate::{Sequence, Text, Texts};

/// The bytes of each file, in order of number.
pub type Contents = Sequence<Sequence<u8>>;

/// The files that an analysis reads, numbered from 0 in byte order of their paths.
#[derive(Debug, Drop)]
pub struct Sources {
    /// The path of each file, relative to the folder.
    pub paths: Texts,
    /// The bytes of each file, at the same index; none for an assembly file, which isn't read.
    pub contents: Contents,
    /// The paths of the assembly files, once more.
    pub assembly: Texts,
    /// The module path; empty where no go.mod gives one.
    pub module: Text,
    /// The numbers of the `go` line, such as 1 and 21, where there is one.
    pub go_line: Option<(u32, u32)>,
}
