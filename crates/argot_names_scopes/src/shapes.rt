// Which texts may be those of names that come into a file's blocks, by their first byte and their length: most names that no
// block has are told at one look.
ghost use Rattle.std.specs.Prelude.{◌≡◌, ◌+◌, ◌<◌, Some, true, false, length, slice_get, unwrap_or, IfOk};
ghost use Rattle.argot_names_scopes.specs.Shapes.{shape_of, AreShapes};

use crate::firsts::item_at;
use crate::texts::spelled_at;
use argot_names_blocks::Binding;
use argot_text::Memory;
use argot_tree::Token;
use std::alloc::Global;

/// How many shapes there are.
const SHAPES: usize = 256;

/// The first byte of the text; 0 where it has none.
fn first_byte(text: &[u8]) -> u8
    ensures { result ≡ unwrap_or (slice_get text.now 0) 0 }
{
    match text.first() {
        Some(byte) => *byte,
        None => 0,
    }
}

/// The shape of a text, a number below 256: texts of different shapes differ in their first byte or in their length.
fn shape_of(text: &[u8]) -> usize
    ensures { result ≡ shape_of text.now }
{
    (first_byte(text) as usize + text.len() % 8 * 32) % SHAPES
}

/// Puts the shape of item k down.
fn note_shape(bytes: &[u8], tokens: &[Token], brought: &[Binding], k: usize, shapes: &mut Vec<bool>)
    requires item { k < length brought.now }
    requires so_far { AreShapes bytes.now tokens.now brought.now k shapes.old.items }
    ensures { AreShapes bytes.now tokens.now brought.now (k + 1) shapes.new.items }
{
    let b = item_at(brought, k);
    let shape = shape_of(spelled_at(bytes, tokens, b.token));
    shapes[shape] = true;
}

/// For each shape whether a name that comes into a block has it.
pub fn shapes_of(
    alloc: Global,
    bytes: &[u8],
    tokens: &[Token],
    brought: &[Binding],
) -> Result<Vec<bool>, Memory>
    ensures { IfOk result (λ v. AreShapes bytes.now tokens.now brought.now (length brought.now) v.items) }
{
    let mut shapes = vec![in alloc; false; SHAPES]?;
    for k in 0..brought.len() {
        note_shape(bytes, tokens, brought, k, &mut shapes);
    }
    Ok(shapes)
}

/// Whether a name that comes into a block may have the text. No memory.
pub fn has_shape(shapes: &[bool], text: &[u8]) -> bool
    ensures { result ≡ false → slice_get shapes.now (shape_of text.now) ≡ Some true → ⊥ }
{
    match shapes.get(shape_of(text)) {
        Some(there) => *there,
        None => false,
    }
}
