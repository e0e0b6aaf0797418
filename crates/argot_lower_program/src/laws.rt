// What the definition of plain code means: laws, each the contract of a function without code.
ghost use Rattle.std.specs.Prelude.{◌≡◌, ℕ, List};
ghost use Rattle.argot_plain.specs.Code.{Code};
ghost use Rattle.argot_tree.specs.declared.entries.Entry.{Entry};
ghost use Rattle.argot_lower_locals.specs.Typed.{Typed};
ghost use Rattle.argot_lower_program.specs.Functions.{Origin};
ghost use Rattle.argot_lower_program.specs.Orders.{IsOrder};
ghost use Rattle.argot_lower_program.specs.PlainCode.{AreGlobals, IsPlainCode};
ghost use Rattle.argot_lower_program.specs.Same.{AreSame};
ghost use Rattle.argot_lower_scripts.specs.Script.{Note};

/// Two plain codes of one typed program whose functions and package variables stand in the same order have the same
/// functions, instructions, sites, package variables and files.
pub fn one_program()
    ensures { (t : Typed) (entries : List Entry) (c d : Code) (x : IsPlainCode t entries c) (y : IsPlainCode t entries d) → x.order ≡ y.order → x.variables ≡ y.variables → AreSame c d }
{}

/// The functions of a program have one order, by what their code notes; and its package variables have one.
pub fn one_order()
    ensures functions { (t : Typed) (notes : List Note) (a b : List Origin) → IsOrder t notes a → IsOrder t notes b → a ≡ b }
    ensures variables { (t : Typed) (c d : Code) (xs ys : List ℕ) → AreGlobals t c xs → AreGlobals t d ys → xs ≡ ys }
{}

/// So two plain codes of one typed program whose code notes the same are the same.
pub fn one_program_by_notes()
    ensures { (t : Typed) (entries : List Entry) (c d : Code) (x : IsPlainCode t entries c) (y : IsPlainCode t entries d) → x.notes ≡ y.notes → AreSame c d }
{}
