// The parts that are read by themselves.
ghost use Rattle.std.specs.Prelude.{◌≤◌, length, IfOk, IfErr};
ghost use Rattle.argot_tree.specs.Grammar.{Level};
ghost use Rattle.argot_tree.specs.Nesting.{IsShallow};
ghost use Rattle.argot_tree.specs.Trees.{IsLongestPart};
ghost use Rattle.argot_parse_reader.specs.Reading.{The, Gives};
ghost use Rattle.argot_parse_reader.specs.Reader.{read};
ghost use Rattle.argot_grammar.specs.Parts.{part_of, alone_part, IsNoPart, NamesUpTo};

use crate::alone::{Alone, Part};
use crate::blocks::block;
use crate::declarations::decl;
use crate::expressions::level;
use crate::fault::ParseFault;
use crate::signatures::{params, signature};
use crate::types::any_type;
use argot_parse_nodes::link;
use argot_parse_tokens::{Writer, narrow};
use argot_text::{Memory, Sequence};
use argot_tree::{Token, Tree};
use std::alloc::Global;

fn read_alone(
    tokens: &[Token],
    out: &mut Writer,
    steps: usize,
    what: Alone,
    at: usize,
) -> Result<Option<usize>, Memory>
    ensures { IfOk result (λ r. Gives out.old.posts.items r out.new.posts.items (read tokens.now steps (The (alone_part what)) at out.old.posts.items)) }
{
    match what {
        Alone::Expression(bare) => level(tokens, out, steps, 1, bare, at),
        Alone::Other(Part::Kinds) => any_type(tokens, out, steps, at),
        Alone::Other(Part::Params) => params(tokens, out, steps, true, at),
        Alone::Other(Part::Sig) => signature(tokens, out, steps, at),
        Alone::Other(Part::Decl) => decl(tokens, out, steps, at),
        Alone::Other(Part::Block) => block(tokens, out, steps, at),
    }
}

// The furthest token at which one that is needed was missing, of so many.
fn furthest(out: &Writer, count: u32) -> u32
    ensures { result ≤ count }
{
    u32::try_from(out.furthest).unwrap_or(u32::MAX).min(count)
}

fn longest(
    alloc: Global,
    tokens: &[Token],
    what: Alone,
    at: usize,
) -> Result<(Tree, u32), ParseFault>
    requires { at ≤ length tokens.now }
    ensures longest { IfOk result (λ r. IsLongestPart tokens.now (alone_part what) r.0.nodes at r.1) }
    ensures fault { IfErr result (IsNoPart tokens.now (alone_part what) at) }
    ensures token { IfErr result (NamesUpTo (length tokens.now)) }
{
    let count = narrow(tokens.len())?;
    let mut out = Writer {
        alloc,
        posts: Vec::new(alloc),
        furthest: at,
    };
    let steps = 32 * (count as usize - at) + 32;
    let Some(to) = read_alone(tokens, &mut out, steps, what, at)? else {
        return Err(ParseFault::Syntax {
            token: furthest(&out, count),
        });
    };
    let behind = narrow(to)?;
    let nodes = link(alloc, out.posts)?;
    let tree = Tree {
        nodes: Sequence::from_vec(nodes),
    };
    Ok((tree, behind))
}

/// The longest expression from a token, and the token behind it (Go specification: Expressions).
///
/// Elements in braces may stand behind a bare type name where `bare`. The tree's nodes are in preorder, and their tokens
/// are numbers in `tokens`. A syntax fault is answered exactly where no expression begins at the token;
/// it names a token, or their number.
pub fn expression(
    alloc: Global,
    tokens: &Vec<Token>,
    at: u32,
    bare: bool,
) -> Result<(Tree, u32), ParseFault>
    requires within { at ≤ length tokens.now.items }
    requires shallow { IsShallow tokens.now.items }
    ensures longest { IfOk result (λ r. IsLongestPart tokens.now.items (Level 1 bare) r.0.nodes at r.1) }
    ensures fault { IfErr result (IsNoPart tokens.now.items (Level 1 bare) at) }
    ensures token { IfErr result (NamesUpTo (length tokens.now.items)) }
{
    longest(alloc, tokens, Alone::Expression(bare), at as usize)
}

/// The longest part of this kind from a token, and the token behind it (Go specification: Types, Function types,
/// Declarations and scope, Blocks).
///
/// The tree's nodes are in preorder, and their tokens are numbers in `tokens`. A syntax fault is answered exactly where no
/// part of this kind begins at the token; it names a token, or their number.
pub fn part(
    alloc: Global,
    tokens: &Vec<Token>,
    at: u32,
    what: Part,
) -> Result<(Tree, u32), ParseFault>
    requires within { at ≤ length tokens.now.items }
    requires shallow { IsShallow tokens.now.items }
    ensures longest { IfOk result (λ r. IsLongestPart tokens.now.items (part_of what) r.0.nodes at r.1) }
    ensures fault { IfErr result (IsNoPart tokens.now.items (part_of what) at) }
    ensures token { IfErr result (NamesUpTo (length tokens.now.items)) }
{
    longest(alloc, tokens, Alone::Other(what), at as usize)
}
