// The laws of the reader, each the contract of a function that does nothing.
ghost use Rattle.std.specs.Prelude.{List};
ghost use Rattle.argot_tree.specs.declared.token.Token.{Token};
ghost use Rattle.argot_parse_reader.specs.Laws.{OnePart, OneTree, ReadLongest, ReadNone, ReadsSpelled, SpelledRead, SpelledReached};

/// What the reader takes for a part of the grammar is spelled so.
pub fn reads_spelled()
    ensures { (tokens : List Token) → ReadsSpelled tokens }
{}

/// A file that is spelled is read, from its first token to its last.
pub fn spelled_read()
    ensures { (tokens : List Token) → SpelledRead tokens }
{}

/// At most one tree spells a token list.
pub fn one_tree()
    ensures { OneTree }
{}

/// Reading reaches at least as far as any expression, type, parameters, signature, declaration or block that is spelled
/// where it begins.
pub fn spelled_reached()
    ensures { (tokens : List Token) → SpelledReached tokens }
{}

/// What is read of these is the longest.
pub fn read_longest()
    ensures { (tokens : List Token) → ReadLongest tokens }
{}

/// Where none of them is read, none begins.
pub fn read_none()
    ensures { (tokens : List Token) → ReadNone tokens }
{}

/// At most one tree of each of them spells the tokens from one place up to another.
pub fn one_part()
    ensures { OnePart }
{}
