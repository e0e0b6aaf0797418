// The files of a folder.
use argot_text::Sources;
use argot_tree::{Lexed, Tree};

/// The files of a folder, by their numbers: their paths and bytes, their tokens, and their trees. Contracts speak of them as
/// the `SourceFiles` of argot_names_rules (`files_in`).
#[derive(Clone, Copy)]
pub struct Files<'a> {
    pub sources: &'a Sources,
    pub lexed: &'a [Lexed],
    pub trees: &'a [Tree],
}
