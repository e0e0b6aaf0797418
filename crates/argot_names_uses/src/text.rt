// Names as texts.
ghost use Rattle.std.specs.Prelude.{◌≡◌, IfOk};

use argot_text::{Memory, Text};
use std::alloc::Global;

/// Bytes as a text; a name is one.
pub fn text_of(alloc: Global, bytes: &[u8]) -> Result<Text, Memory>
    ensures { IfOk result (λ t. t ≡ bytes.now) }
{
    match std::str::from_utf8(bytes) {
        Ok(text) => Text::from_str(alloc, text),
        Err(_) => Err(Memory),
    }
}
