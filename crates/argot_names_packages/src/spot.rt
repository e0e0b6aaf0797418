// Bytes of files, and the least one so far.
ghost use Rattle.std.specs.Prelude.{◌≡◌, ◌<◌, ◌^◌, ◌-◌, length, slice_get};
ghost use Rattle.argot_text.specs.Lines.{line_of, column_of};
ghost use Rattle.argot_names_imports.specs.Reads.{tokens_at};
ghost use Rattle.argot_names_packages.specs.Spots.{spot_in, comes_first, sooner_of};

use argot_files::{Place, is_before};
use argot_names_imports::tokens_at;
use argot_text::{Pos, pos_of};
use argot_tree::Lexed;

/// The first byte of a token; none where there is no such token. No memory.
pub fn spot_at(lexed: &[Lexed], file: u32, token: u32) -> Option<Place>
    ensures { result ≡ spot_in lexed.now file token }
{
    match tokens_at(lexed, file).get(token as usize) {
        Some(token) => Some(Place {
            file,
            offset: token.start,
        }),
        None => None,
    }
}

/// The byte stands before the least one so far. No memory.
pub fn is_first(spot: Place, least: Option<Place>) -> bool
    ensures { result ≡ comes_first spot least }
{
    match least {
        Some(other) => is_before(spot, other),
        None => true,
    }
}

/// The least one so far, or a new one where that stands before it. No memory.
pub fn sooner(least: Option<Place>, new: Option<Place>) -> Option<Place>
    ensures { result ≡ sooner_of least new }
{
    match new {
        Some(spot) => {
            if is_first(spot, least) {
                Some(spot)
            } else {
                least
            }
        }
        None => least,
    }
}

/// The line and column of a byte of a file, counted from 1. No memory.
pub fn pos_at(bytes: &[u8], spot: Place) -> Pos
    requires { length bytes.now < 2 ^ 32 - 1 }
    ensures file { result.file ≡ spot.file }
    ensures line { result.line ≡ line_of bytes.now spot.offset }
    ensures column { result.col ≡ column_of bytes.now spot.offset }
{
    pos_of(bytes, spot.file, bytes.len().min(spot.offset as usize))
}
