// What the definitions on types mean: laws, each the contract of a function without code.
ghost use Rattle.argot_check_types.specs.Laws.{IdenticalIsEqual};

/// Types are identical where they are equal trees.
pub fn identical_is_equal()
    ensures { IdenticalIsEqual }
{}
