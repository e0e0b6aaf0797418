// All tokens of a file, as one tree.
ghost use Rattle.std.specs.Prelude.{◌≡◌, IfOk, IfErr, IfSome, List, length};
ghost use Rattle.argot_grammar.specs.Parts.{NamesUpTo};
ghost use Rattle.argot_tree.specs.Nesting.{IsShallow};
ghost use Rattle.argot_tree.specs.Trees.{SpellsTree};
ghost use Rattle.argot_parse.specs.Parsed.{IsSyntax, IsUnparsed};

use crate::files::file;
use argot_grammar::ParseFault;
use argot_parse_nodes::{first_too_deep, link};
use argot_parse_tokens::Writer;
use argot_text::Sequence;
use argot_tree::{Token, Tree};
use std::alloc::Global;

// The furthest of so many tokens at which one that is needed was missing; a file may end too early too.
fn syntax(out: &Writer, to: usize, count: u32) -> ParseFault
    ensures syntax { IsSyntax result }
    ensures token { NamesUpTo count result }
{
    let furthest = u32::try_from(out.furthest.max(to)).unwrap_or(u32::MAX);
    ParseFault::Syntax {
        token: furthest.min(count),
    }
}

/// The tree that spells a file's tokens (Go specification: Source file organization).
///
/// The nodes are in preorder, each with its first token and its last, its first child and its next sibling. A tree is
/// answered exactly where one spells the tokens and none of them is nested deeper than 200. A fault of syntax names a token,
/// or their number.
pub fn parse(alloc: Global, tokens: &Vec<Token>) -> Result<Tree, ParseFault>
    ensures tree { IfOk result (λ tree. SpellsTree tree tokens.now.items) }
    ensures shallow { IfOk result (λ _. IsShallow tokens.now.items) }
    ensures fault { IfErr result (IsUnparsed tokens.now.items) }
    ensures token { IfErr result (NamesUpTo (length tokens.now.items)) }
{
    if tokens.len() > u32::MAX as usize {
        return Err(ParseFault::Memory);
    }
    if let Some(token) = first_too_deep(tokens) {
        return Err(ParseFault::TooDeep {
            token: token as u32,
        });
    }
    let mut out = Writer {
        alloc,
        posts: Vec::new(alloc),
        furthest: 0,
    };
    let count = tokens.len() as u32;
    let steps = 32 * tokens.len() + 1;
    let Some(to) = file(tokens, &mut out, steps, 0)? else {
        return Err(syntax(&out, 0, count));
    };
    if to != tokens.len() {
        return Err(syntax(&out, to, count));
    }
    let nodes = link(alloc, out.posts)?;
    Ok(Tree {
        nodes: Sequence::from_vec(nodes),
    })
}
