// A folder made of texts, for tests and windows of the crates above.
ghost use Rattle.std.specs.Prelude.{ℕ, List, IfOk, IfSome};
ghost use Rattle.argot_names_rules.specs.Agreeing.{Agrees, HasLibrary};
ghost use Rattle.argot_names_imports.specs.Reads.{handed};

use crate::folder::{Folder, with_library};
use crate::reading::{ReadingFault, read_files};
use crate::sources::sources_of;
use argot_text::{Memory, Sequence, Text, Texts};
use std::alloc::Global;

// Puts the bytes of a text last.
fn push_bytes(alloc: Global, contents: &mut Vec<Sequence<u8>>, text: &str) -> Result<(), Memory> {
    let bytes = text.as_bytes().to_vec(alloc)?;
    contents.push(Sequence::from_vec(bytes))?;
    Ok(())
}

/// The folder of these paths and texts, which stand in byte order of path, with the texts of the library behind them; none
/// where paths and texts don't agree.
pub fn folder_of_texts(
    alloc: Global,
    files: &[(&str, &str)],
    module: &str,
    go_line: Option<(u32, u32)>,
) -> Result<Option<Folder>, ReadingFault>
    ensures agrees { IfOk result (λ o. IfSome o (λ f. Agrees (handed f.sources f.lexed.items f.trees.items))) }
    ensures library { IfOk result (λ o. IfSome o (λ f. (main : List ℕ)
        → HasLibrary (handed f.sources f.lexed.items f.trees.items) main)) }
{
    let mut paths = Texts::new(alloc);
    let mut contents = Vec::new(alloc);
    for file in files {
        paths.push(Text::from_str(alloc, file.0)?)?;
        push_bytes(alloc, &mut contents, file.1)?;
    }
    let path = Text::from_str(alloc, module)?;
    let Some(sources) = sources_of(alloc, paths, contents, path, go_line)? else {
        return Ok(None);
    };
    let readings = read_files(alloc, &sources)?;
    Ok(Some(with_library(alloc, sources, readings)?))
}
