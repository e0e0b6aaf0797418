// The bytes of an answer, put together before any of them is written.
ghost use Rattle.std.specs.Prelude.{◌≡◌, [], ◌++◌, ◌<◌, length, OnOk, OnErr, take};
ghost use Rattle.std.specs.Fmt.{decimal};
ghost use Rattle.argot_text.specs.Lines.{position_text};

use crate::{Memory, Pos, Texts};
use std::alloc::Global;
use std::marker::Model;

/// A text that grows at its end, seen as the bytes pushed so far.
#[derive(Debug, Drop)]
pub struct Out {
    bytes: Vec<u8>,
}

impl Model for Out {
    ghost use Rattle.std.specs.Prelude.{List, ℕ};

    ghost Value = { List ℕ };

    ghost view = { λ it. it.bytes.items };
}

impl Out {
    /// An empty text.
    pub fn new(alloc: Global) -> Out
        ensures { result ≡ [] }
    {
        Out {
            bytes: Vec::new(alloc),
        }
    }

    /// Adds the text.
    pub fn push_str(&mut self, text: &str) -> Result<(), Memory>
        ensures ok { OnOk result (self.new ≡ self.old ++ text.now) }
        ensures err { OnErr result (self.new ≡ self.old) }
    {
        self.bytes.extend_from_slice(text.as_bytes())?;
        Ok(())
    }

    /// Adds the number in decimal.
    pub fn push_number(&mut self, n: u64) -> Result<(), Memory>
        ensures ok { OnOk result (self.new ≡ self.old ++ decimal n) }
        ensures err { OnErr result (self.new ≡ self.old) }
    {
        let mut buffer = itoa::Buffer::new();
        self.push_str(buffer.format(n))
    }

    /// Adds `PATH:LINE:COL`, with the path of the file.
    pub fn push_pos(&mut self, names: &Texts, pos: Pos) -> Result<(), Memory>
        requires { pos.file < length names.now }
        ensures ok { OnOk result (self.new ≡ self.old ++ position_text names.now pos) }
        ensures err { OnErr result (self.new ≡ self.old) }
    {
        let before = self.bytes.len();
        let done = self.push_parts(names, pos);
        if done.is_err() {
            self.bytes.truncate(before);
        }
        done
    }

    // The parts one after another; after `Memory` some of them may stand there.
    fn push_parts(&mut self, names: &Texts, pos: Pos) -> Result<(), Memory>
        requires { pos.file < length names.now }
        ensures ok { OnOk result (self.new ≡ self.old ++ position_text names.now pos) }
        ensures kept { take (length self.old) self.new ≡ self.old }
    {
        self.push_str(names.get(pos.file as usize).as_str())?;
        self.push_str(":")?;
        self.push_number(pos.line as u64)?;
        self.push_str(":")?;
        self.push_number(pos.col as u64)
    }

    /// The bytes so far.
    pub fn bytes(&self) -> &[u8]
        ensures { result.now ≡ self.now }
    {
        self.bytes.as_slice()
    }
}
