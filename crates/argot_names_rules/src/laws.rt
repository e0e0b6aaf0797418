// What the definitions of names and faults mean: laws, each the contract of a function without code.
ghost use Rattle.argot_names_rules.specs.Laws.{OneMeaning, OneFault, NoFault, BlocksNest, OneBlock};

/// A name means at most one declaration.
pub fn one_meaning()
    ensures { OneMeaning }
{}

/// But for want of memory at most one fault is answered.
pub fn one_fault()
    ensures { OneFault }
{}

/// No fault is answered where nothing is wrong.
pub fn no_fault()
    ensures { NoFault }
{}

/// In a tree that spells tokens a block that begins within another ends within it.
pub fn blocks_nest()
    ensures { BlocksNest }
{}

/// The innermost block around a token is one.
pub fn one_block()
    ensures { OneBlock }
{}
