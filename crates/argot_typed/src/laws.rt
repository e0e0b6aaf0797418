// What the definitions on types mean: laws, each the contract of a function without code.
ghost use Rattle.std.specs.Prelude.{◌≡◌, ℕ, ◌<◌, List, length};
ghost use Rattle.std.specs.List.{AllByRecursion};
ghost use Rattle.argot_typed.specs.declared.shape.Shape.{Shape};
ghost use Rattle.argot_typed.specs.Parts.{shape_at};
ghost use Rattle.argot_typed.specs.Fitting.{Ends, Leads, AreFit, IsOrdered};
ghost use Rattle.argot_typed.specs.Leaves.{leaves_of, leaves_of_shape};

/// The leaf paths of a type in a table that fits are those of its shape, from those of its parts.
pub fn leaves_are_by_shape()
    ensures { (shapes : List Shape) → AreFit shapes → (t : ℕ) → t < length shapes → leaves_of shapes t ≡ leaves_of_shape (leaves_of shapes) (shape_at shapes t) }
{}

/// Where walks end, none leads back.
pub fn walks_that_end_never_lead_back()
    ensures { (parts : ℕ → List ℕ) (k t : ℕ) → Ends parts k t → Leads parts t t → ⊥ }
{}

/// Walks end where the types can be ranked so that each part ranks below the whole.
pub fn ranked_walks_end()
    ensures { (parts : ℕ → List ℕ) (rank : ℕ → ℕ) (n : ℕ) → ((t : ℕ) → t < n → rank t < n) → ((t : ℕ) → t < n → AllByRecursion (λ p. (p < n) × (rank p < rank t)) (parts t)) → (t : ℕ) → t < n → Ends parts n t }
{}

/// A table fits if each type stands behind its parts.
pub fn ordered_tables_fit()
    ensures { (shapes : List Shape) → IsOrdered shapes → AreFit shapes }
{}
