// Laws on blocks, as the contracts of functions without code.
ghost use Rattle.std.specs.Prelude.{◌↔◌, ℕ, List};
ghost use Rattle.argot_plain.specs.Code.{Code};
ghost use Rattle.argot_plain.specs.WellFormed.{WellFormed};
ghost use Rattle.argot_facts.specs.Follows.{FollowsBy};
ghost use Rattle.argot_facts.specs.Handed.{FactsOf};
ghost use Rattle.argot_facts.specs.Pointing.{Pointing};
ghost use Rattle.argot_control.specs.Blocks.{AreBlocks, IsBehind, IsStraightOn, IsInner, IsRow};
ghost use Rattle.argot_control.specs.Steps.{AreBetween, IsLed};

/// A place follows another exactly where it stands behind it in one block, or where the block of the one leads to that of
/// the other.
pub fn follows_by_blocks()
    ensures { (p : Code) (x : Pointing) (block : ℕ → ℕ) → AreBlocks p (FactsOf p x) block → (a b : ℕ) → FollowsBy p (FactsOf p x) a b ↔ IsBehind p (FactsOf p x) block a b }
{}

/// Behind an instruction that goes straight on stands an inner place, unless that is an exit or something leads there.
pub fn straight_places_are_inner()
    ensures { (p : Code) (x : Pointing) (i : ℕ) → WellFormed p → IsStraightOn p (FactsOf p x) i → IsInner p (FactsOf p x) i }
{}

/// Where the steps are exactly those between blocks, they lead from one block to another exactly where control goes from the
/// one to the other.
pub fn steps_lead_as_blocks_do()
    ensures { (p : Code) (x : Pointing) (block : ℕ → ℕ) (steps : List (ℕ × ℕ)) → AreBetween p (FactsOf p x) block steps → (a b : ℕ) → IsLed steps a b ↔ IsRow p (FactsOf p x) block a b }
{}
