// Where a package stands.
use argot_text::Text;

/// A package is the Go files of one folder, or one text of the library that argot knows by itself.
#[derive(Debug, Drop)]
pub enum PackageKey {
    /// By the folder's path, which is empty at the top.
    Folder(Text),
    /// By the import path.
    Library(Text),
}
