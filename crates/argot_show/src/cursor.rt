// A place in a file that moves on.
ghost use Rattle.std.specs.Prelude.{◌≡◌, ◌+◌, ◌≤◌, ◌<◌, ◌-◌, ◌^◌, length};
ghost use Rattle.argot_show.specs.Cursors.{IsCursor};

/// An offset with its line and its column, counted from 1.
#[derive(Clone, Copy)]
pub struct Cursor {
    pub at: usize,
    pub line: u32,
    pub col: u32,
}

impl Cursor {
    /// The first byte.
    pub fn start(bytes: &[u8]) -> Cursor
        ensures at { result.at ≡ 0 }
        ensures there { IsCursor bytes.now result }
    {
        Cursor {
            at: 0,
            line: 1,
            col: 1,
        }
    }

    /// The byte at an offset; it costs the way from here to there where that lies behind.
    pub fn moved(self, bytes: &[u8], to: usize) -> Cursor
        requires short { length bytes.now < 2 ^ 32 - 1 }
        requires there { IsCursor bytes.now self }
        requires inside { to ≤ length bytes.now }
        ensures at { result.at ≡ to }
        ensures there { IsCursor bytes.now result }
    {
        let mut here = if to < self.at {
            Cursor::start(bytes)
        } else {
            self
        };
        while here.at < to {
            here = here.next(bytes);
        }
        here
    }

    // One byte further.
    fn next(self, bytes: &[u8]) -> Cursor
        requires short { length bytes.now < 2 ^ 32 - 1 }
        requires there { IsCursor bytes.now self }
        requires inside { self.at < length bytes.now }
        ensures at { result.at ≡ self.at + 1 }
        ensures there { IsCursor bytes.now result }
    {
        if bytes[self.at] == b'\n' {
            Cursor {
                at: self.at + 1,
                line: self.line + 1,
                col: 1,
            }
        } else {
            Cursor {
                at: self.at + 1,
                line: self.line,
                col: self.col + 1,
            }
        }
    }
}
