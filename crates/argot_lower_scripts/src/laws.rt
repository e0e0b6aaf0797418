// What the definitions on scripts mean: laws, each the contract of a function without code.
ghost use Rattle.std.specs.Prelude.{◌≡◌, ℕ, List};
ghost use Rattle.argot_lower_scripts.specs.Script.{Task, Script};
ghost use Rattle.argot_lower_scripts.specs.Says.{Finished, At, Says};
ghost use Rattle.argot_lower_scripts.specs.Agrees.{Agrees};

/// Two codes of one script that begin at the same point hand on the same registers, end at the same point, and have the
/// same between: instructions but for the places of labels, those places, registers, sites and notes.
pub fn one_code()
    ensures { (rows : Task → ℕ → Script) (f g : Finished) (h n : ℕ) (c : Script) (rs qs : List ℕ) (a b d : At) → Says rows f h n c rs a b → Says rows g h n c qs a d → (rs ≡ qs) × (b ≡ d) × Agrees f g h a b }
{}
