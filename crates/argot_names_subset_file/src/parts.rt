// What is left out at one node of a file, but for what names stand for.
ghost use Rattle.argot_answers.specs.Answers.{Exactly};
ghost use Rattle.argot_names_rules.specs.Subset.{LeavesLiteral};
ghost use Rattle.argot_names_subset_file.specs.Parts.{IsKindAt, IsLiteralAt, IsDot, IsPlain, IsNumber};

use argot_files::File;
use argot_names_imports::site_at;
use argot_names_rules::{Alias, Feature};
use argot_tree::{NodeKind, TokenKind};

/// A feature, and the token at which it stands.
#[derive(Clone, Copy, Debug, PartialEq, Eq)]
pub struct Part {
    pub feature: Feature,
    pub token: u32,
}

/// An import under a dot, at its first token.
pub fn dot_at(file: &File, k: usize) -> Option<Part>
    ensures { Exactly (IsDot file.now.nodes k) result }
{
    let site = site_at(file.nodes(), k)?;
    match site.alias {
        Alias::Dotted => Some(Part {
            feature: Feature::DotImport,
            token: site.at,
        }),
        _ => None,
    }
}

/// Type parameters and `goto`, at their first tokens.
pub fn plain_at(file: &File, k: usize) -> Option<Part>
    ensures { Exactly (IsPlain file.now.nodes k) result }
{
    let node = file.node(k)?;
    match node.kind {
        NodeKind::TypeParams => Some(Part {
            feature: Feature::TypeParameters,
            token: node.token,
        }),
        NodeKind::Goto => Some(Part {
            feature: Feature::Goto,
            token: node.token,
        }),
        _ => None,
    }
}

/// The feature of a literal by the kind of its token.
fn number_of(kind: TokenKind) -> Option<Feature>
    ensures { Exactly (LeavesLiteral kind) result }
{
    match kind {
        TokenKind::Float => Some(Feature::FloatingPointLiteral),
        TokenKind::Imaginary => Some(Feature::ImaginaryLiteral),
        _ => None,
    }
}

/// The kind of a token.
fn kind_at(file: &File, token: u32) -> Option<TokenKind>
    ensures { Exactly (IsKindAt file.now.tokens token) result }
{
    let is = file.token(token)?;
    Some(is.kind)
}

/// The token of a literal.
fn literal_at(file: &File, k: usize) -> Option<u32>
    ensures { Exactly (IsLiteralAt file.now.nodes k) result }
{
    let node = file.node(k)?;
    match node.kind {
        NodeKind::Literal => Some(node.token),
        _ => None,
    }
}

/// A literal with a point or an exponent, or an imaginary one.
pub fn number_at(file: &File, k: usize) -> Option<Part>
    ensures { Exactly (IsNumber file.now.tokens file.now.nodes k) result }
{
    let token = literal_at(file, k)?;
    let kind = kind_at(file, token)?;
    let feature = number_of(kind)?;
    Some(Part { feature, token })
}
