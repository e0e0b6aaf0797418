// Which of the listed paths belong to a program.
ghost use Rattle.std.specs.Prelude.{◌≡◌};
ghost use Rattle.argot_run.specs.Listed.{is_go_file, is_open_part, is_open_path, is_other_source, is_source};
ghost use Rattle.std.specs.List.{list_any};
ghost use Rattle.argot_run.specs.Choice.{Chooses};

use argot_text::{Text, Texts};

/// What a folder's sources are.
#[derive(Clone, Copy, Debug, PartialEq, Eq)]
pub enum Sources {
    None,
    MainAlone,
    Others,
}

/// What the sources among the paths are.
pub fn sources_of(paths: &Texts) -> Sources
    ensures { Chooses paths.now result }
{
    if has_other_source(paths.as_slice()) {
        Sources::Others
    } else if has_source(paths.as_slice()) {
        Sources::MainAlone
    } else {
        Sources::None
    }
}

fn has_source(paths: &[Text]) -> bool
    ensures { result ≡ list_any is_source paths.now }
{
    paths.iter().any(|path| is_source(path.as_str()))
}

fn has_other_source(paths: &[Text]) -> bool
    ensures { result ≡ list_any is_other_source paths.now }
{
    paths.iter().any(|path| is_source(path.as_str()) && path.as_str() != "main.go")
}

fn is_source(path: &str) -> bool
    ensures { result ≡ is_source path.now }
{
    path == "go.mod" || (is_go_file(path) || path.as_bytes().ends_with(b".s")) && is_open_path(path)
}

fn is_go_file(path: &str) -> bool
    ensures { result ≡ is_go_file path.now }
{
    path.as_bytes().ends_with(b".go") && !path.as_bytes().ends_with(b"_test.go")
}

fn is_open_path(path: &str) -> bool
    ensures { result ≡ is_open_path path.now }
{
    path.as_bytes()
        .split(|b| *b == b'/')
        .all(|part| is_open_part(part))
}

fn is_open_part(part: &[u8]) -> bool
    ensures { result ≡ is_open_part part.now }
{
    !part.starts_with(b"_") && !part.starts_with(b".") && part != b"testdata".as_slice()
}
