// Where a byte of a file stands, for people.
ghost use Rattle.std.specs.Prelude.{◌≡◌, ◌+◌, ◌-◌, ◌<◌, ◌≤◌, ◌^◌, length};
ghost use Rattle.argot_text.specs.Lines.{line_of, column_of};

/// A place in a numbered file.
#[derive(Clone, Copy, Debug, PartialEq, Eq)]
pub struct Pos {
    /// The number of the file, counted from 0.
    pub file: u32,
    /// The line, counted from 1.
    pub line: u32,
    /// The column in bytes, counted from 1.
    pub col: u32,
}

/// The position of the byte at `offset`, counted from 0; the end of the bytes has one too.
pub fn pos_of(bytes: &[u8], file: u32, offset: usize) -> Pos
    requires inside { offset ≤ length bytes.now }
    requires short { length bytes.now < 2 ^ 32 - 1 }
    ensures file { result.file ≡ file }
    ensures line { result.line ≡ line_of bytes.now offset }
    ensures column { result.col ≡ column_of bytes.now offset }
{
    let before = &bytes[..offset];
    let mut line = 1;
    let mut col = 1;
    for byte in before {
        if *byte == b'\n' {
            line += 1;
            col = 1;
        } else {
            col += 1;
        }
    }
    Pos { file, line, col }
}
