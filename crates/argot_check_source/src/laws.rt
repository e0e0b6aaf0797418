// Worked values: laws, each the contract of a function without code.
ghost use Rattle.argot_check_source.specs.Laws.{ValuesOfLiterals};

/// What some literals stand for.
pub fn values_of_literals()
    ensures { ValuesOfLiterals }
{}
