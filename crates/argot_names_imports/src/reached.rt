// The packages that are reached.
use crate::Survey;
use argot_typed::Package;

/// The packages that the main one leads to, and the imports of all files.
#[derive(Drop)]
pub struct Reached {
    /// The imports, what each finds, and the first file of each package that is reached.
    pub survey: Survey,
    /// What each package is, in the order of the first files; the main one is the first.
    pub packages: Vec<Package>,
}
