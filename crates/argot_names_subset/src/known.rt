// What is known before files are looked through.
use argot_files::Files;
use argot_names_rules::Feature;
use argot_names_subset_file::EntryTable;

/// What is handed over, with the number of each file's first node, and for each node of all trees the feature that its name
/// stands for and whether it stands for a type.
#[derive(Clone, Copy)]
pub struct Known<'a, 'e> {
    pub files: Files<'a>,
    pub entries: &'a EntryTable<'e>,
    pub bases: &'a [usize],
    pub named: &'a [Option<Feature>],
    pub typed: &'a [bool],
}
