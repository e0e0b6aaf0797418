// What the last node is.
ghost use Rattle.std.specs.Prelude.{◌≡◌};
ghost use Rattle.argot_parse_reader.specs.ExpressionReader.{is_type, typed};
ghost use Rattle.argot_parse_reader.specs.StatementReader.{is_operation, is_primary};

use argot_parse_reader::Post;
use argot_tree::NodeKind;

fn is_type(kind: NodeKind) -> bool
    ensures { result ≡ is_type kind }
{
    matches!(
        kind,
        NodeKind::PointerType
            | NodeKind::ArrayType
            | NodeKind::SliceType
            | NodeKind::MapType
            | NodeKind::ChanType
            | NodeKind::SendType
            | NodeKind::ReceiveType
            | NodeKind::FuncType
            | NodeKind::StructType
            | NodeKind::InterfaceType
    )
}

/// Whether the last node is that of a type that is no expression.
pub fn typed(posts: &[Post]) -> bool
    ensures { result ≡ typed posts.now }
{
    match posts.last() {
        Some(post) => is_type(post.kind),
        None => false,
    }
}

fn is_operation(kind: NodeKind) -> bool
    ensures { result ≡ is_operation kind }
{
    matches!(
        kind,
        NodeKind::Binary
            | NodeKind::Positive
            | NodeKind::Negative
            | NodeKind::LogicalNot
            | NodeKind::Complement
            | NodeKind::Deref
            | NodeKind::AddressOf
            | NodeKind::Receive
    )
}

/// Whether the last node is not that of an expression with an operator.
pub fn is_primary(posts: &[Post]) -> bool
    ensures { result ≡ is_primary posts.now }
{
    match posts.last() {
        Some(post) => !is_operation(post.kind),
        None => true,
    }
}
