// Functions without a body whose flow a user states.
use argot_text::{Sequence, Text};

/// An entry: it names a function without a body, and says what its results depend on. Each of the three texts is
/// compared whole.
#[derive(Debug, Drop)]
pub struct Entry {
    /// The package's path.
    pub package: Text,
    /// The receiver's type, empty for a function.
    pub receiver: Text,
    /// The name itself.
    pub name: Text,
    /// Whether the results unite the labels of all that the arguments reach; if not, they have none.
    pub flow: bool,
}

/// Entries in their order: of several for one function the first counts.
pub type Entries = Sequence<Entry>;
