// What a whole file gives.
ghost use Rattle.std.specs.Prelude.{◌≡◌, ◌<◌, ◌^◌, length};
ghost use Rattle.argot_names_rules.specs.GoMod.{GivesModule, GivesNumbers};

use crate::lines::first_line;
use crate::numbers::numbers_of;
use crate::quotes::unquoted;

/// What `go.mod` gives.
#[derive(Clone, Copy, Debug)]
pub struct GoMod<'a> {
    /// The module's path; empty where no line gives one.
    pub path: &'a [u8],
    /// The numbers of the `go` line, such as 1 and 21, where there are two.
    pub go_line: Option<(u32, u32)>,
}

/// The module's path.
fn path_of(bytes: &[u8]) -> &[u8]
    requires { length bytes.now < 2 ^ 63 }
    ensures { GivesModule bytes.now result.now }
{
    match first_line(bytes, "module".as_bytes()) {
        Some(line) => unquoted(line.second),
        None => &[],
    }
}

/// The numbers of the `go` line.
fn go_line_of(bytes: &[u8]) -> Option<(u32, u32)>
    requires { length bytes.now < 2 ^ 63 }
    ensures { GivesNumbers bytes.now result }
{
    match first_line(bytes, "go".as_bytes()) {
        Some(line) => numbers_of(line.second),
        None => None,
    }
}

/// The module's path and the numbers of the `go` line, from the bytes of `go.mod`. No memory.
pub fn go_mod_of(bytes: &[u8]) -> GoMod<'_>
    requires { length bytes.now < 2 ^ 63 }
    ensures path { GivesModule bytes.now result.path.now }
    ensures go_line { GivesNumbers bytes.now result.go_line }
{
    GoMod {
        path: path_of(bytes),
        go_line: go_line_of(bytes),
    }
}
