// What the table of functions has, as a list.
ghost use Rattle.std.specs.Prelude.{◌≡◌, ℕ, ◌<◌, true, length, IfOk};
ghost use Rattle.argot_links.specs.Members.{IsAscending};
ghost use Rattle.argot_links.specs.Table.{row};
ghost use Rattle.argot_plain.specs.Lists.{In};

use argot_links::Rows;
use argot_text::Memory;
use std::alloc::Global;

/// Whether all numbers are below the bound.
pub(crate) fn are_below(numbers: &[u32], bound: usize) -> bool
    ensures { result ≡ true → (g : ℕ) → In g numbers.now → g < bound }
{
    for n in 0..numbers.len() {
        if numbers[n] as usize >= bound {
            return false;
        }
    }
    true
}

/// The numbers in the first row.
pub(crate) fn first_row(alloc: Global, rows: &Rows) -> Result<Vec<u32>, Memory>
    requires { 0 < length rows.now.rows }
    ensures all { IfOk result (λ v. v.items ≡ row rows.now 0) }
    ensures ascending { IsAscending (row rows.now 0) }
{
    let mut found = Vec::new(alloc);
    for g in rows.walk(0) {
        found.push(g)?;
    }
    Ok(found)
}
