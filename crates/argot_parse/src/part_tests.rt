// What argot_grammar has that `parse` doesn't show: links of a small tree, the bound on nesting, and parts by themselves.
ghost use Rattle.std.specs.Prelude.{◌<◌, ◌^◌, length};

use argot_grammar::{ParseFault, Part, expression, part};
use argot_lex::lex;
use argot_parse_nodes::{first_too_deep, link};
use argot_parse_reader::Post;
use argot_tree::{Keyword, Mark, NodeKind, Token, TokenKind, Tree, TreeNode};
use std::alloc::Global;
use std::fmt::Write;
use std::test::Fail;

fn post(kind: NodeKind, token: u32, last: u32, size: u32) -> Post {
    Post {
        kind,
        token,
        last,
        size,
    }
}

#[test]
fn nodes_come_in_preorder_with_their_links(rt: HostRuntime) -> Result<(), Fail> {
    let behind = vec![in rt.alloc();
        post(NodeKind::DeclName, 1, 1, 1),
        post(NodeKind::ImportPath, 4, 4, 1),
        post(NodeKind::Spec, 4, 4, 2),
        post(NodeKind::Import, 3, 4, 3),
        post(NodeKind::File, 0, 5, 5),
    ]?;
    let nodes = link(rt.alloc(), behind)?;
    let want = [
        (NodeKind::File, 0, 5, Some(1), None),
        (NodeKind::DeclName, 1, 1, None, Some(2)),
        (NodeKind::Import, 3, 4, Some(3), None),
        (NodeKind::Spec, 4, 4, Some(4), None),
        (NodeKind::ImportPath, 4, 4, None, None),
    ];
    assert_eq!(rt; nodes.len(), want.len());
    for (node, (kind, token, last, first, next)) in nodes.iter().zip(want) {
        let wanted = TreeNode {
            kind,
            token,
            last,
            first,
            next,
        };
        assert!(rt; *node == wanted);
    }
    Ok(())
}

// `package main ; var x = ( .. 1`, with so many brackets.
fn brackets(rt: &HostRuntime, count: usize) -> Result<Vec<Token>, Fail> {
    let mut tokens = Vec::new(rt.alloc());
    let head = [
        TokenKind::Word(Keyword::Package),
        TokenKind::Name,
        TokenKind::Inserted,
        TokenKind::Word(Keyword::Var),
        TokenKind::Name,
        TokenKind::Mark(Mark::Assign),
    ];
    for kind in head {
        tokens.push(Token {
            kind,
            start: 0,
            end: 0,
        })?;
    }
    for _ in 0..count {
        tokens.push(Token {
            kind: TokenKind::Mark(Mark::OpenParen),
            start: 0,
            end: 0,
        })?;
    }
    tokens.push(Token {
        kind: TokenKind::Whole,
        start: 0,
        end: 0,
    })?;
    Ok(tokens)
}

#[test]
fn two_hundred_brackets_are_the_most(rt: HostRuntime) -> Result<(), Fail> {
    let tokens = brackets(&rt, 200)?;
    assert!(rt; tokens.len() < 1000);
    assert_eq!(rt; first_too_deep(tokens.as_slice()), None);
    let tokens = brackets(&rt, 201)?;
    assert!(rt; tokens.len() < 1000);
    assert_eq!(rt; first_too_deep(tokens.as_slice()), Some(207));
    Ok(())
}

// Where the part ends, how many nodes it has, and its first.
fn shown(alloc: Global, read: Result<(Tree, u32), ParseFault>) -> Result<String, Fail> {
    let mut line = String::new(alloc);
    match read {
        Ok((tree, behind)) => {
            let count = tree.nodes.len();
            write!(line, "{behind} {count}")?;
            if let Some(node) = tree.nodes.as_slice().first() {
                let kind = node.kind;
                write!(line, " {kind:?}")?;
            }
        }
        Err(ParseFault::Syntax { token }) => write!(line, "none at {token}")?,
        Err(ParseFault::TooDeep { token }) => write!(line, "deep {token}")?,
        Err(ParseFault::Memory) => line.push_str("out of memory")?,
    }
    Ok(line)
}

// An expression, with braces behind bare type names or without, or another part of a text.
fn read(alloc: Global, text: &[u8], bare: bool, what: Option<Part>) -> Result<String, Fail>
    requires { length text.now < 2 ^ 32 }
{
    let Ok(lexed) = lex(alloc, text) else {
        return Ok(String::new(alloc));
    };
    let tokens = lexed.tokens.as_vec();
    if tokens.len() >= 1000 {
        return Ok(String::new(alloc));
    }
    if let Some(_) = first_too_deep(tokens) {
        return Ok(String::new(alloc));
    }
    match what {
        None => shown(alloc, expression(alloc, tokens, 0, bare)),
        Some(what) => shown(alloc, part(alloc, tokens, 0, what)),
    }
}

#[test]
fn the_longest_part_is_read(rt: HostRuntime) -> Result<(), Fail> {
    let cases = [
        ("a + b * c)", true, None, "5 5 Binary"),
        ("a * b + c", true, None, "5 5 Binary"),
        ("a + )", true, None, "1 1 NameUse"),
        ("T{1}", true, None, "4 5 Composite"),
        ("T{1}", false, None, "1 1 NameUse"),
        ("f(a", true, None, "1 1 NameUse"),
        ("f(a).b[1:", true, None, "6 5 Selector"),
        (")", true, None, "none at 0"),
        ("[]int{1}", true, Some(Part::Kinds), "3 2 SliceType"),
        ("chan<- <-chan int", true, Some(Part::Kinds), "5 3 SendType"),
        (
            "(a, b int, c ...string) x",
            true,
            Some(Part::Params),
            "10 9 NamedParams",
        ),
        (
            "(int) (b, c string) {",
            true,
            Some(Part::Sig),
            "9 10 Signature",
        ),
        ("var x = 1, 2, )", true, Some(Part::Decl), "6 7 VarDecl"),
        ("{ x := 1; return } y", true, Some(Part::Block), "7 7 Block"),
        ("x", true, Some(Part::Block), "none at 0"),
    ];
    for (text, bare, what, want) in cases {
        assert!(rt; text.len() < 1000);
        assert_eq!(rt;
            read(rt.alloc(), text.as_bytes(), bare, what)?.as_str(),
            want,
            "at {text}"
        );
    }
    Ok(())
}
