// The tokens and the tree of each Go file.
ghost use Rattle.std.specs.Prelude.{◌≡◌, ◌+◌, ◌<◌, ◌^◌, ◌++◌, ◌∷◌, [], true, length, IfOk, IfErr, OnOk};
ghost use Rattle.argot_names_rules.specs.Agreeing.{is_go_file};
ghost use Rattle.argot_names_files.specs.Files.{AreFiles};
ghost use Rattle.argot_tree.specs.Text.{SpellsText};
ghost use Rattle.argot_tree.specs.Trees.{SpellsTree};
ghost use Rattle.argot_names_files.specs.Reading.{IsUnlexed, IsUnparsed, HasTree, HasNothing, HasNoTree, IsReading, AreReadings, IsUnread};

use crate::paths::is_go_file;
use argot_lex::{LexFault, lex};
use argot_names_imports::bytes_at;
use argot_parse::{ParseFault, parse};
use argot_text::{Memory, Sequence, Sources};
use argot_tree::{Lexed, Token, Tree};
use std::alloc::{AllocError, Global};

/// Why a file can't be read, by its number; offsets are in bytes, tokens by number.
#[derive(Clone, Copy, Debug, PartialEq, Eq)]
pub enum ReadingFault {
    /// No token begins there.
    Token { file: u32, offset: u32 },
    /// The token is nested too deeply.
    TooDeep { file: u32, token: u32 },
    /// No tree spells the tokens; something is missing at that one.
    Syntax { file: u32, token: u32 },
    /// There was no memory left.
    Memory,
}

impl From<Memory> for ReadingFault {
    ghost use Rattle.std.specs.Prelude.{◌≡◌};
    ghost use Rattle.argot_names_files.specs.declared.reading.ReadingFault.TheVariants.{Memory};

    ghost from_gives = { λ _ e. e ≡ Memory };

    fn from(_: Memory) -> ReadingFault {
        ReadingFault::Memory
    }
}

impl From<AllocError> for ReadingFault {
    ghost use Rattle.std.specs.Prelude.{◌≡◌};
    ghost use Rattle.argot_names_files.specs.declared.reading.ReadingFault.TheVariants.{Memory};

    ghost from_gives = { λ _ e. e ≡ Memory };

    fn from(_: AllocError) -> ReadingFault {
        ReadingFault::Memory
    }
}

/// The tokens and the tree of each file; none of a file that isn't Go.
#[derive(Debug, Drop)]
pub struct Readings {
    pub lexed: Vec<Lexed>,
    pub trees: Vec<Tree>,
}

// The tokens of a text.
fn lexed_of(alloc: Global, file: u32, bytes: &[u8]) -> Result<Lexed, ReadingFault>
    requires { length bytes.now < 2 ^ 32 }
    ensures ok { IfOk result (λ lexed. SpellsText lexed bytes.now) }
    ensures fault { IfErr result (IsUnlexed bytes.now file) }
{
    match lex(alloc, bytes) {
        Ok(lexed) => Ok(lexed),
        Err(LexFault::Bad { offset }) => Err(ReadingFault::Token { file, offset }),
        Err(LexFault::Memory) => Err(ReadingFault::Memory),
    }
}

// The tree of tokens.
fn tree_of(alloc: Global, file: u32, tokens: &Vec<Token>) -> Result<Tree, ReadingFault>
    ensures ok { IfOk result (λ tree. SpellsTree tree tokens.now.items) }
    ensures fault { IfErr result (IsUnparsed tokens.now.items file) }
{
    match parse(alloc, tokens) {
        Ok(tree) => Ok(tree),
        Err(ParseFault::Syntax { token }) => Err(ReadingFault::Syntax { file, token }),
        Err(ParseFault::TooDeep { token }) => Err(ReadingFault::TooDeep { file, token }),
        Err(ParseFault::Memory) => Err(ReadingFault::Memory),
    }
}

/// The tokens and the tree of a text.
pub fn read_text(alloc: Global, file: u32, bytes: &[u8]) -> Result<(Lexed, Tree), ReadingFault>
    requires { length bytes.now < 2 ^ 32 }
    ensures ok { IfOk result (λ r. HasTree bytes.now r.0 r.1) }
    ensures fault { IfErr result (HasNoTree bytes.now file) }
{
    let lexed = match lexed_of(alloc, file, bytes) {
        Ok(lexed) => lexed,
        Err(fault) => return Err(fault),
    };
    match tree_of(alloc, file, lexed.tokens.as_vec()) {
        Ok(tree) => Ok((lexed, tree)),
        Err(fault) => Err(fault),
    }
}

// Of a file that isn't read.
fn nothing(alloc: Global) -> (Lexed, Tree)
    ensures { HasNothing result.0 result.1 }
{
    let lexed = Lexed {
        tokens: Sequence::from_vec(Vec::new(alloc)),
        directives: Sequence::from_vec(Vec::new(alloc)),
    };
    let tree = Tree {
        nodes: Sequence::from_vec(Vec::new(alloc)),
    };
    (lexed, tree)
}

// What is read of a file.
fn read_file(
    alloc: Global,
    file: u32,
    path: &str,
    bytes: &[u8],
) -> Result<(Lexed, Tree), ReadingFault>
    requires { length bytes.now < 2 ^ 32 }
    ensures ok { IfOk result (λ r. IsReading path.now bytes.now r.0 r.1) }
    ensures go { IfErr result (λ _. is_go_file path.now ≡ true) }
    ensures fault { IfErr result (HasNoTree bytes.now file) }
{
    if is_go_file(path) {
        read_text(alloc, file, bytes)
    } else {
        Ok(nothing(alloc))
    }
}

// Puts the item last.
fn push<T: Drop>(list: &mut Vec<T>, item: T) -> Result<(), Memory>
    ensures { OnOk result (list.new.items ≡ list.old.items ++ item ∷ []) }
{
    list.push(item)?;
    Ok(())
}

// Reads the file of this number, behind those before it.
fn read_next(
    alloc: Global,
    sources: &Sources,
    file: u32,
    lexed: &mut Vec<Lexed>,
    trees: &mut Vec<Tree>,
) -> Result<(), ReadingFault>
    requires files { AreFiles sources.now }
    requires inside { file < length sources.now.paths }
    requires so_far { AreReadings sources.now file lexed.old.items trees.old.items }
    ensures ok { OnOk result (AreReadings sources.now (file + 1) lexed.new.items trees.new.items) }
    ensures fault { IfErr result (IsUnread sources.now) }
{
    let path = sources.paths.get(file as usize).as_str();
    let (tokens, tree) = read_file(alloc, file, path, bytes_at(sources, file))?;
    push(lexed, tokens)?;
    push(trees, tree)?;
    Ok(())
}

/// Reads the Go files among these, in order of number.
pub fn read_files(alloc: Global, sources: &Sources) -> Result<Readings, ReadingFault>
    requires { AreFiles sources.now }
    ensures ok { IfOk result (λ r. AreReadings sources.now (length sources.now.paths) r.lexed.items r.trees.items) }
    ensures fault { IfErr result (IsUnread sources.now) }
{
    let Ok(count) = u32::try_from(sources.paths.len()) else {
        return Err(ReadingFault::Memory);
    };
    let mut lexed = Vec::new(alloc);
    let mut trees = Vec::new(alloc);
    for file in 0..count {
        read_next(alloc, sources, file, &mut lexed, &mut trees)?;
    }
    Ok(Readings { lexed, trees })
}
