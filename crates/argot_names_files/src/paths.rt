// Which paths of a folder are numbered.
ghost use Rattle.std.specs.Prelude.{◌≡◌};
ghost use Rattle.argot_names_rules.specs.Agreeing.{is_open_part, is_open_path, is_go_file, is_kept, is_assembly, is_module_file, is_numbered};

/// A Go file, a test or not.
pub fn is_go_file(path: &str) -> bool
    ensures { result ≡ is_go_file path.now }
{
    path.as_bytes().ends_with(b".go")
}

/// An assembly file.
pub fn is_assembly(path: &str) -> bool
    ensures { result ≡ is_assembly path.now }
{
    path.as_bytes().ends_with(b".s")
}

fn is_module_file(path: &str) -> bool
    ensures { result ≡ is_module_file path.now }
{
    path == "go.mod"
}

fn is_open_part(part: &[u8]) -> bool
    ensures { result ≡ is_open_part part.now }
{
    !part.starts_with(b"_") && !part.starts_with(b".") && part != b"testdata".as_slice()
}

fn is_open_path(path: &str) -> bool
    ensures { result ≡ is_open_path path.now }
{
    path.as_bytes()
        .split(|b| *b == b'/')
        .all(|part| is_open_part(part))
}

fn is_kept(path: &str) -> bool
    ensures { result ≡ is_kept path.now }
{
    is_go_file(path) && !path.as_bytes().ends_with(b"_test.go") && is_open_path(path)
}

/// A path that is numbered: go.mod, a Go file that is no test, or an assembly file, where no part of the path begins with
/// `_` or `.` or is `testdata`.
pub fn is_numbered(path: &str) -> bool
    ensures { result ≡ is_numbered path.now }
{
    is_module_file(path) || is_kept(path) || is_assembly(path) && is_open_path(path)
}
