// Where objects are made.

use argot_text::Paths;

/// A place at which objects are made, or a package variable.
#[derive(Drop)]
pub struct Site {
    /// The place of its instruction, 0 for a package variable.
    pub place: u32,
    /// Which result of a Call the fresh reference is, else 0.
    pub result: u32,
    /// Which leaf of that result it is, else 0.
    pub leaf: u32,
    /// The leaf paths of what its objects hold.
    pub shape: Paths,
    /// The number of the type of what its objects hold.
    pub dynamic: u32,
    /// The function that an object of the site stands for, where it is a function value.
    pub function: Option<u32>,
}
