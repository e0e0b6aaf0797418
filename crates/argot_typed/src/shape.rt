// The forms of types. The parts of a type are numbers of other types.
use argot_text::{Sequence, Text};

/// The number of a type in its table.
#[derive(Clone, Copy, Debug, PartialEq, Eq)]
pub struct TypeId(pub u32);

/// Which way a channel type goes.
#[derive(Clone, Copy, Debug, PartialEq, Eq)]
pub enum Dir {
    /// Values are sent and received.
    Both,
    /// Values are sent only.
    Send,
    /// Values are received only.
    Receive,
}

/// The form of a type.
#[derive(Debug, Drop)]
pub enum Shape {
    /// Truth values.
    Truth,
    /// Texts.
    Chars,
    /// Whole numbers of so many bits.
    Whole {
        bits: u8,
        signed: bool,
    },
    /// A declared type: its declaration, the type under its name, and the methods declared for it.
    Named {
        decl: u32,
        under: TypeId,
        methods: Sequence<MethodShape>,
    },
    /// Pointers.
    Pointer {
        to: TypeId,
    },
    /// Arrays of so many elements.
    Array {
        len: u64,
        of: TypeId,
    },
    /// Slices.
    Slice {
        of: TypeId,
    },
    /// Maps.
    Map {
        key: TypeId,
        value: TypeId,
    },
    /// Structs.
    Struct {
        fields: Sequence<FieldShape>,
    },
    /// Functions. The last parameter of a variadic one has the slice type.
    Func {
        params: Sequence<TypeId>,
        results: Sequence<TypeId>,
        variadic: bool,
    },
    /// Interfaces, with all their methods, those of embedded interfaces too.
    Interface {
        methods: Sequence<MethodShape>,
    },
    /// Channels.
    Chan {
        dir: Dir,
        of: TypeId,
    },
    /// Untyped constants and truth values, with their default type.
    Untyped {
        normal: TypeId,
    },
    /// The name `nil`.
    NilShape,
}

/// A field of a struct.
#[derive(Debug, Drop)]
pub struct FieldShape {
    pub name: Text,
    /// The package's number.
    pub package: Option<u32>,
    pub tag: Text,
    pub embedded: bool,
    pub of: TypeId,
}

/// A method of a declared type or of an interface.
#[derive(Debug, Drop)]
pub struct MethodShape {
    pub name: Text,
    /// The package's number; None for the method of `error`.
    pub package: Option<u32>,
    /// The declaration's or the interface element's node; None for the method of `error`.
    pub node: Option<u32>,
    /// Whether the receiver is a pointer.
    pub pointer: bool,
    /// A function type without the receiver.
    pub of: TypeId,
}
