// The productions of the grammar.

/// What a node is: one kind for each production, and for each alternative that its children don't tell apart.
#[derive(Clone, Copy, Debug, PartialEq, Eq)]
pub enum NodeKind {
    /// `package` and its name, imports, declarations.
    File,
    Import,
    ImportGroup,
    /// A path alone.
    Spec,
    /// `.` and a path.
    DotSpec,
    /// A name and a path.
    NamedSpec,
    /// The text of a path.
    ImportPath,
    /// A function or a method at the top: its receiver, name, type parameters, signature, body.
    FuncDecl,
    TypeParams,
    ConstDecl,
    ConstGroup,
    VarDecl,
    VarGroup,
    TypeDecl,
    TypeGroup,
    ConstSpec,
    VarSpec,
    TypeSpec,
    /// `Name = Type`.
    AliasSpec,
    /// The names of a declaration.
    Names,
    /// A name that is declared, or that `:=` may declare.
    DeclName,
    Signature,
    /// Parameters without names.
    Params,
    /// Parameters with names.
    NamedParams,
    Param,
    NamedParam,
    /// A name that has the type of the next entry with one.
    LoneParam,
    VariadicParam,
    NamedVariadic,
    TypeName,
    /// `Name.Name` as a type.
    QualifiedType,
    TypeParens,
    PointerType,
    ArrayType,
    SliceType,
    /// `[...]Type`.
    OpenArrayType,
    MapType,
    ChanType,
    /// `chan<- Type`.
    SendType,
    /// `<-chan Type`.
    ReceiveType,
    FuncType,
    StructType,
    InterfaceType,
    Field,
    EmbeddedField,
    EmbeddedPointer,
    /// The text behind a field.
    Tag,
    Method,
    EmbeddedType,
    Binary,
    Positive,
    Negative,
    LogicalNot,
    Complement,
    Deref,
    AddressOf,
    Receive,
    Literal,
    NameUse,
    Parens,
    FuncLiteral,
    Composite,
    Conversion,
    Selector,
    /// The name behind a selector's dot.
    SelectedName,
    Index,
    /// `x[:]`.
    SliceAll,
    /// `x[a:]`.
    SliceFrom,
    /// `x[:b]`.
    SliceTo,
    /// `x[a:b]`.
    SliceBetween,
    /// `x[:b:c]`.
    SliceToMax,
    /// `x[a:b:c]`.
    SliceBetweenMax,
    TypeAssertion,
    Call,
    /// A call whose last argument has `...` behind it.
    SpreadCall,
    Elems,
    Item,
    KeyedItem,
    Exprs,
    Block,
    Empty,
    DeclStmt,
    Labeled,
    Go,
    Defer,
    Return,
    Break,
    Continue,
    Goto,
    Fallthrough,
    /// The label that a statement names.
    LabelUse,
    ExprStmt,
    Send,
    Increment,
    Decrement,
    Assign,
    /// An assignment with an operator.
    OpAssign,
    Define,
    If,
    /// The statement before a semicolon in a head.
    Init,
    /// The last statement in the head of a `for`.
    Post,
    Switch,
    TypeSwitch,
    /// `x.(type)`.
    Guard,
    /// `name := x.(type)`.
    NamedGuard,
    Case,
    Default,
    /// The values or types of a case.
    Values,
    Select,
    SendCase,
    AssignCase,
    DefineCase,
    ReceiveCase,
    /// A loop over a condition, or for ever.
    While,
    /// A loop with three parts.
    For,
    Range,
    AssignRange,
    DefineRange,
}
