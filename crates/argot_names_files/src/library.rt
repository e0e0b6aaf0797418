// The texts of the library, by number.
ghost use Rattle.std.specs.Prelude.{◌≡◌, ◌<◌, Some, slice_get};
ghost use Rattle.argot_names_files.specs.Library.{library_paths};

/// The paths of the library, in byte order.
pub fn library_path(k: usize) -> &'static str
    requires { k < 8 }
    ensures { slice_get library_paths k ≡ Some result.now }
{
    match k {
        0 => "errors",
        1 => "fmt",
        2 => "log",
        3 => "os",
        4 => "os/exec",
        5 => "strconv",
        6 => "strings",
        _ => "sync",
    }
}
