// Lines and columns of spots, by one way through the bytes of each file.
ghost use Rattle.std.specs.Prelude.{◌≡◌, ◌<◌, ◌^◌, ◌-◌, ◌≤◌, ℕ, map, length, Some, slice_get, IfOk};
ghost use Rattle.argot_text.specs.Lines.{line_of, column_of};
ghost use Rattle.argot_names_imports.specs.Reads.{bytes_at};
ghost use Rattle.argot_names_subset.specs.Positions.{feature_ranked, flagged, IsAt, IsCursor};

use argot_names_imports::bytes_at;
use argot_names_rules::{Feature, Flag};
use argot_names_subset_file::Spot;
use argot_text::{Memory, Pos, Sources};
use std::alloc::Global;

/// A byte of a file, with its line and its column.
#[derive(Clone, Copy, Debug, PartialEq, Eq)]
pub struct Cursor {
    pub file: u32,
    pub offset: usize,
    pub line: u32,
    pub col: u32,
}

/// The feature of a number in the order of features.
fn feature_ranked(rank: u8) -> Feature
    ensures { result ≡ feature_ranked rank }
{
    match rank {
        0 => Feature::ImportUnsafe,
        1 => Feature::ImportReflect,
        2 => Feature::ImportC,
        3 => Feature::DotImport,
        4 => Feature::AssemblyFile,
        5 => Feature::Linkname,
        6 => Feature::BuildLine,
        7 => Feature::Embed,
        8 => Feature::TypeParameters,
        9 => Feature::FloatingPointLiteral,
        10 => Feature::ImaginaryLiteral,
        11 => Feature::FloatingPointType,
        12 => Feature::ComplexType,
        13 => Feature::ComplexBuiltIn,
        14 => Feature::Uintptr,
        15 => Feature::Comparable,
        16 => Feature::Recover,
        17 => Feature::Goto,
        18 => Feature::MethodExpression,
        19 => Feature::FunctionWithoutBody,
        _ => Feature::GoLine,
    }
}

/// The first byte of a file.
fn start(file: u32) -> Cursor
    ensures { result ≡ record { file = file; offset = 0; line = 1; col = 1 } }
{
    Cursor {
        file,
        offset: 0,
        line: 1,
        col: 1,
    }
}

/// The byte at `end`, on from the one at which the cursor stands.
fn advance(bytes: &[u8], cursor: Cursor, end: usize) -> Cursor
    requires short { length bytes.now < 2 ^ 32 - 1 }
    requires inside { end ≤ length bytes.now }
    requires ahead { cursor.offset ≤ end }
    requires at { IsAt bytes.now cursor }
    ensures file { result.file ≡ cursor.file }
    ensures offset { result.offset ≡ end }
    ensures at { IsAt bytes.now result }
{
    let mut line = cursor.line;
    let mut col = cursor.col;
    for k in cursor.offset..end {
        if bytes[k] == b'\n' {
            line += 1;
            col = 1;
        } else {
            col += 1;
        }
    }
    Cursor {
        file: cursor.file,
        offset: end,
        line,
        col,
    }
}

/// The byte at that offset of the file: on from the cursor where it stands before it, and else from the file's first.
fn moved(sources: &Sources, cursor: Cursor, file: u32, offset: u32) -> Cursor
    requires short { (file : ℕ) → length (bytes_at sources.now file) < 2 ^ 32 - 1 }
    requires cursor { IsCursor sources.now cursor }
    ensures cursor { IsCursor sources.now result }
    ensures file { result.file ≡ file }
    ensures line { result.line ≡ line_of (bytes_at sources.now file) offset }
    ensures column { result.col ≡ column_of (bytes_at sources.now file) offset }
{
    let bytes = bytes_at(sources, file);
    let end = bytes.len().min(offset as usize);
    if cursor.file == file && cursor.offset <= end {
        advance(bytes, cursor, end)
    } else {
        advance(bytes, start(file), end)
    }
}

/// A spot as a flag, by the cursor that stands there.
fn flag_at(spot: Spot, cursor: Cursor) -> Flag
    ensures { result ≡ record { at = record { file = cursor.file; line = cursor.line; col = cursor.col }; feature = feature_ranked spot.rank } }
{
    Flag {
        at: Pos {
            file: cursor.file,
            line: cursor.line,
            col: cursor.col,
        },
        feature: feature_ranked(spot.rank),
    }
}

/// Spot k.
fn spot_at(spots: &[Spot], k: usize) -> Spot
    requires { k < length spots.now }
    ensures { slice_get spots.now k ≡ Some result }
{
    spots[k]
}

/// The spots as flags. Where they stand in order, each file's bytes are gone through once.
pub fn flags_of(alloc: Global, sources: &Sources, spots: &[Spot]) -> Result<Vec<Flag>, Memory>
    requires { (file : ℕ) → length (bytes_at sources.now file) < 2 ^ 32 - 1 }
    ensures { IfOk result (λ v. v.items ≡ map (flagged sources.now) spots.now) }
{
    let mut flags = Vec::new(alloc);
    let mut cursor = start(0);
    for k in 0..spots.len() {
        let spot = spot_at(spots, k);
        cursor = moved(sources, cursor, spot.file, spot.offset);
        flags.push(flag_at(spot, cursor))?;
    }
    Ok(flags)
}
