// The folder of a path.
ghost use Rattle.std.specs.Prelude.{◌≡◌};
ghost use Rattle.argot_names_rules.specs.Packages.{folder_of};

/// The folder of a path: what stands before its last slash, or nothing. No memory.
pub fn folder_of(path: &str) -> &str
    ensures { result.now ≡ folder_of path.now }
{
    match path.rsplit_once('/') {
        Some((folder, _)) => folder,
        None => "",
    }
}
