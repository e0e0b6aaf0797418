// The names that are declared in every package (Go specification: Predeclared identifiers), by number.
ghost use Rattle.std.specs.Prelude.{◌≡◌, ◌↔◌, ◌<◌, IsTrue, Some, true, false, IfSome, IsNone, length, map, slice_get};
ghost use Rattle.argot_names_rules.specs.Universe.{predeclared, is_among};

/// How many there are.
pub const COUNT: u32 = 44;

// All of them, in the order in which they are numbered.
const NAMES: [&str; 44] = [
    "bool",
    "string",
    "int",
    "int8",
    "int16",
    "int32",
    "int64",
    "uint",
    "uint8",
    "uint16",
    "uint32",
    "uint64",
    "byte",
    "rune",
    "error",
    "any",
    "float32",
    "float64",
    "complex64",
    "complex128",
    "uintptr",
    "comparable",
    "true",
    "false",
    "iota",
    "nil",
    "append",
    "cap",
    "clear",
    "close",
    "copy",
    "delete",
    "len",
    "make",
    "max",
    "min",
    "new",
    "panic",
    "print",
    "println",
    "recover",
    "complex",
    "real",
    "imag",
];

// The name of this number in a list that has them.
fn name_in(names: &[&'static str], number: u32) -> &'static str
    requires names { map (λ n. n.now) names.now ≡ predeclared }
    requires number { number < length names.now }
    ensures { slice_get predeclared number ≡ Some result.now }
{
    names[number as usize]
}

/// The predeclared name of this number. No memory.
pub fn predeclared_name(number: u32) -> &'static str
    requires { number < 44 }
    ensures { slice_get predeclared number ≡ Some result.now }
{
    name_in(&NAMES, number)
}

// Whether two texts are one.
fn is_same(a: &[u8], b: &[u8]) -> bool
    ensures { IsTrue result ↔ (a.now ≡ b.now) }
{
    a == b
}

/// The number of a predeclared name; none where the name is none. No memory.
pub fn predeclared_number(name: &[u8]) -> Option<u32>
    ensures some { IfSome result (λ n. (slice_get predeclared n ≡ Some name.now) ×
        (is_among name.now predeclared ≡ true)) }
    ensures none { IsNone result → is_among name.now predeclared ≡ false }
{
    for number in 0..COUNT {
        if is_same(predeclared_name(number).as_bytes(), name) {
            return Some(number);
        }
    }
    None
}
