// One file, with what is known of its names and of its package.
use crate::entries::EntryTable;
use argot_files::File;
use argot_names_rules::Feature;

/// One file with its number; of its nodes, by the names that stand for a declaration, the features and the types; the
/// entries, and the import path of its package where that is a folder.
#[derive(Clone, Copy)]
pub struct View<'a, 'e> {
    pub number: u32,
    pub file: &'a File<'a>,
    pub named: &'a [Option<Feature>],
    pub typed: &'a [bool],
    pub entries: &'a EntryTable<'e>,
    pub path: Option<&'a [u8]>,
}
