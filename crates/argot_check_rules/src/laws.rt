// Worked values of the rules: laws, each the contract of a function without code.
ghost use Rattle.argot_check_rules.specs.Worked.{WorkedExpressions, WorkedDeclarations, WorkedStatements};

/// What the rules of expressions say of some facts.
pub fn worked_expressions()
    ensures { WorkedExpressions }
{}

/// What the rules of types and declarations say of some facts.
pub fn worked_declarations()
    ensures { WorkedDeclarations }
{}

/// What the rules of statements say of some facts.
pub fn worked_statements()
    ensures { WorkedStatements }
{}
