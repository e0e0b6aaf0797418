//! Brackets that are open.

ghost use Rattle.std.specs.Prelude.{◌≡◌, ◌↔◌, IsTrue};
ghost use Rattle.argot_first_form.specs.Form.{is_opening, is_closing, BracketsFit};

fn is_opening(byte: u8) -> bool
    ensures { result ≡ is_opening byte }
{
    byte == b'(' || byte == b'[' || byte == b'{'
}

fn is_closing(byte: u8) -> bool
    ensures { result ≡ is_closing byte }
{
    byte == b')' || byte == b']' || byte == b'}'
}

/// Whether at most 100 brackets are open at any byte.
pub fn brackets_fit(bytes: &[u8]) -> bool
    ensures { IsTrue result ↔ BracketsFit bytes.now }
{
    let mut opened: usize = 0;
    let mut closed: usize = 0;
    for byte in bytes {
        if is_opening(*byte) {
            opened += 1;
        }
        if is_closing(*byte) {
            closed += 1;
        }
        if opened > closed + 100 {
            return false;
        }
    }
    true
}
