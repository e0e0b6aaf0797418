// Files of packages that are reached.
ghost use Rattle.std.specs.Prelude.{◌≡◌, ◌↔◌, ℕ, Some, true, false};
ghost use Rattle.argot_names_rules.specs.Lists.{In};
ghost use Rattle.argot_names_packages.specs.Standing.{IsLedBy};

use argot_names_imports::{Survey, leader_at};
use indexmap::IndexSet;

/// The number is one of these. No memory.
pub fn has(numbers: &IndexSet<u32>, number: u32) -> bool
    ensures yes { result ≡ true → In number numbers.now.keys }
    ensures no { result ≡ false → In number numbers.now.keys → ⊥ }
{
    numbers.contains(&number)
}

/// The first file of the package of this file, where that package is reached. No memory.
pub fn reached_leader(survey: &Survey, file: u32) -> Option<u32>
    ensures { (l : ℕ) → result ≡ Some l ↔ IsLedBy survey.now file l }
{
    match leader_at(&survey.leaders, file) {
        Some(first) => {
            if has(&survey.reached, first) {
                Some(first)
            } else {
                None
            }
        }
        None => None,
    }
}
