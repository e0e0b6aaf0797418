// Rows in order, each once.
ghost use Rattle.std.specs.Prelude.{◌≡◌, ℕ, OnOk};
ghost use Rattle.argot_plain.specs.Lists.{In};
ghost use Rattle.argot_ssa.specs.Form.{AreInOrder};

use argot_text::Memory;

/// Puts the rows in order, by place, register and definition, each once.
pub fn put_in_order(rows: &mut Vec<(u32, u32, u32)>) -> Result<(), Memory>
    ensures kept { OnOk result ((x : ℕ × ℕ × ℕ) → In x rows.old.items → In x rows.new.items) }
    ensures only { OnOk result ((x : ℕ × ℕ × ℕ) → In x rows.new.items → In x rows.old.items) }
    ensures in_order { OnOk result (AreInOrder rows.new.items) }
{
    rows.sort()?;
    rows.dedup();
    Ok(())
}
