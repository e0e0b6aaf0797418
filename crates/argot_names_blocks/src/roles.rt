// Kinds of nodes by what they are to a name below them.
ghost use Rattle.std.specs.Prelude.{◌≡◌};
ghost use Rattle.argot_names_blocks.specs.Roles.{role_of};

use argot_tree::NodeKind;

/// What a node is to a name below it.
#[derive(Clone, Copy, Debug, PartialEq, Eq)]
pub enum Role {
    /// A specification of constants or variables.
    Values,
    /// A specification of a type.
    Kind,
    /// A statement with `:=`.
    Define,
    /// A `range` clause with `:=`.
    RangeDefine,
    /// A clause that receives with `:=`.
    ReceiveDefine,
    /// A function, a method or a function literal.
    Function,
    /// A parameter with a name.
    Entry,
    /// A list of parameters with names.
    Entries,
    Signature,
    Names,
    Expressions,
    TypeSwitch,
    Case,
    Default,
    /// A name that is declared.
    Declared,
    /// A name in the place of a value.
    Used,
    /// A name in the place of a type.
    Typed,
    /// A name of a package, a dot and the name of a type.
    Qualified,
    /// An operand, a dot and a name.
    Selector,
    /// That name.
    Selected,
    /// An item with a key.
    Keyed,
    /// An import under a dot.
    DotImport,
    /// The text of an import's path.
    Path,
    Other,
}

/// The role of a node of this kind.
pub fn role_of(kind: NodeKind) -> Role
    ensures { result ≡ role_of kind }
{
    match kind {
        NodeKind::ConstSpec | NodeKind::VarSpec => Role::Values,
        NodeKind::TypeSpec | NodeKind::AliasSpec => Role::Kind,
        NodeKind::Define => Role::Define,
        NodeKind::DefineRange => Role::RangeDefine,
        NodeKind::DefineCase => Role::ReceiveDefine,
        NodeKind::FuncDecl | NodeKind::FuncLiteral => Role::Function,
        NodeKind::NamedParam | NodeKind::LoneParam | NodeKind::NamedVariadic => Role::Entry,
        NodeKind::NamedParams => Role::Entries,
        NodeKind::Signature => Role::Signature,
        NodeKind::Names => Role::Names,
        NodeKind::Exprs => Role::Expressions,
        NodeKind::TypeSwitch => Role::TypeSwitch,
        NodeKind::Case => Role::Case,
        NodeKind::Default => Role::Default,
        NodeKind::DeclName => Role::Declared,
        NodeKind::NameUse => Role::Used,
        NodeKind::TypeName => Role::Typed,
        NodeKind::QualifiedType => Role::Qualified,
        NodeKind::Selector => Role::Selector,
        NodeKind::SelectedName => Role::Selected,
        NodeKind::KeyedItem => Role::Keyed,
        NodeKind::DotSpec => Role::DotImport,
        NodeKind::ImportPath => Role::Path,
        _ => Role::Other,
    }
}
