// What stands at a place among the tokens.
ghost use Rattle.std.specs.Prelude.{◌≡◌, ◌<◌, ◌+◌, length, IsTrue, IfSome, Some};
ghost use Rattle.argot_tree.specs.TokensAt.{kind_at, mark_level, level_at, unary_of, is_semicolon, is_literal, is_text, begins_type, begins_conversion, begins_composite, is_op_assign, follows_parameter, is_no_bracket};
ghost use Rattle.argot_parse_reader.specs.StatementReader.{ends_stmt, ends_stmts, begins_clause, begins_assign, is_range, defines, ranges, guards, labels};
ghost use Rattle.argot_parse_reader.specs.DeclarationReader.{is_generic};
ghost use Rattle.argot_parse_reader.specs.FileReader.{opens_bracket};
ghost use Rattle.argot_tree.specs.declared.token.TokenKind.TheVariants.{Name};
ghost use Rattle.argot_parse_reader.specs.Reading.{word_number, mark_number, kind_number, is_at, is_mark, is_word, behind_comma, goes_on, behind_names, names_then};
ghost use Rattle.argot_parse_reader.specs.TypeReader.{begins_parameter, is_dotted};

use argot_tree::{Keyword, Mark, NodeKind, Token, TokenKind};

fn word_number(word: Keyword) -> u8
    ensures { result ≡ word_number word }
{
    match word {
        Keyword::Break => 0,
        Keyword::Case => 1,
        Keyword::Chan => 2,
        Keyword::Const => 3,
        Keyword::Continue => 4,
        Keyword::Default => 5,
        Keyword::Defer => 6,
        Keyword::Else => 7,
        Keyword::Fallthrough => 8,
        Keyword::For => 9,
        Keyword::Func => 10,
        Keyword::Go => 11,
        Keyword::Goto => 12,
        Keyword::If => 13,
        Keyword::Import => 14,
        Keyword::Interface => 15,
        Keyword::Map => 16,
        Keyword::Package => 17,
        Keyword::Range => 18,
        Keyword::Return => 19,
        Keyword::Select => 20,
        Keyword::Struct => 21,
        Keyword::Switch => 22,
        Keyword::TypeWord => 23,
        Keyword::Var => 24,
    }
}

fn mark_number(mark: Mark) -> u8
    ensures { result ≡ mark_number mark }
{
    match mark {
        Mark::Plus => 0,
        Mark::Minus => 1,
        Mark::Star => 2,
        Mark::Slash => 3,
        Mark::Percent => 4,
        Mark::And => 5,
        Mark::Or => 6,
        Mark::Xor => 7,
        Mark::ShiftLeft => 8,
        Mark::ShiftRight => 9,
        Mark::AndNot => 10,
        Mark::PlusAssign => 11,
        Mark::MinusAssign => 12,
        Mark::StarAssign => 13,
        Mark::SlashAssign => 14,
        Mark::PercentAssign => 15,
        Mark::AndAssign => 16,
        Mark::OrAssign => 17,
        Mark::XorAssign => 18,
        Mark::ShiftLeftAssign => 19,
        Mark::ShiftRightAssign => 20,
        Mark::AndNotAssign => 21,
        Mark::LogicalAnd => 22,
        Mark::LogicalOr => 23,
        Mark::Arrow => 24,
        Mark::Increment => 25,
        Mark::Decrement => 26,
        Mark::Equal => 27,
        Mark::Less => 28,
        Mark::Greater => 29,
        Mark::Assign => 30,
        Mark::Not => 31,
        Mark::Tilde => 32,
        Mark::NotEqual => 33,
        Mark::LessEqual => 34,
        Mark::GreaterEqual => 35,
        Mark::Define => 36,
        Mark::Ellipsis => 37,
        Mark::OpenParen => 38,
        Mark::CloseParen => 39,
        Mark::OpenBracket => 40,
        Mark::CloseBracket => 41,
        Mark::OpenBrace => 42,
        Mark::CloseBrace => 43,
        Mark::Comma => 44,
        Mark::Semicolon => 45,
        Mark::Dot => 46,
        Mark::Colon => 47,
    }
}

fn kind_number(kind: TokenKind) -> u8
    ensures { result ≡ kind_number kind }
{
    match kind {
        TokenKind::Name => 0,
        TokenKind::Whole => 1,
        TokenKind::Float => 2,
        TokenKind::Imaginary => 3,
        TokenKind::Rune => 4,
        TokenKind::Chars => 5,
        TokenKind::RawChars => 6,
        TokenKind::Inserted => 7,
        TokenKind::Word(word) => 10 + word_number(word),
        TokenKind::Mark(mark) => 40 + mark_number(mark),
    }
}

/// The kind of the token there.
pub fn kind_at(tokens: &[Token], at: usize) -> Option<TokenKind>
    ensures { result ≡ kind_at tokens.now at }
{
    match tokens.get(at) {
        Some(token) => Some(token.kind),
        None => None,
    }
}

/// Whether a token of this kind stands there.
pub fn is_at(tokens: &[Token], at: usize, kind: TokenKind) -> bool
    ensures value { result ≡ is_at tokens.now at kind }
    ensures within { IsTrue result → at < length tokens.now }
{
    match tokens.get(at) {
        Some(found) => kind_number(found.kind) == kind_number(kind),
        None => false,
    }
}

/// Whether a name stands there.
pub fn is_name(tokens: &[Token], at: usize) -> bool
    ensures value { result ≡ is_at tokens.now at Name }
    ensures within { IsTrue result → at < length tokens.now }
{
    is_at(tokens, at, TokenKind::Name)
}

/// Whether this keyword stands there.
pub fn is_word(tokens: &[Token], at: usize, word: Keyword) -> bool
    ensures value { result ≡ is_word tokens.now at word }
    ensures within { IsTrue result → at < length tokens.now }
{
    is_at(tokens, at, TokenKind::Word(word))
}

/// Whether this mark stands there.
pub fn is_mark(tokens: &[Token], at: usize, mark: Mark) -> bool
    ensures value { result ≡ is_mark tokens.now at mark }
    ensures within { IsTrue result → at < length tokens.now }
{
    is_at(tokens, at, TokenKind::Mark(mark))
}

/// Behind a comma, where one stands there.
pub fn behind_comma(tokens: &[Token], at: usize) -> usize
    ensures { result ≡ behind_comma tokens.now at }
{
    if is_mark(tokens, at, Mark::Comma) {
        at + 1
    } else {
        at
    }
}

/// Whether a comma stands there, and no closer behind it.
pub fn goes_on(tokens: &[Token], closer: Mark, at: usize) -> bool
    ensures value { result ≡ goes_on tokens.now closer at }
    ensures within { IsTrue result → at < length tokens.now }
{
    is_mark(tokens, at, Mark::Comma) && !is_mark(tokens, at + 1, closer)
}

/// Whether a point and a name stand behind the name there.
pub fn is_dotted(tokens: &[Token], at: usize) -> bool
    requires { at < length tokens.now }
    ensures value { result ≡ is_dotted tokens.now at }
    ensures within { IsTrue result → at + 2 < length tokens.now }
{
    is_mark(tokens, at + 1, Mark::Dot) && is_name(tokens, at + 2)
}

#[tactic(auto, using(crate::proofs::NameLaws::names_go_on, crate::proofs::NameLaws::no_comma, crate::proofs::NameLaws::no_name))]
// Behind the names with commas between that begin at a name.
pub fn behind_names(tokens: &[Token], at: usize) -> usize
    requires { at < length tokens.now }
    ensures { result ≡ behind_names tokens.now at }
{
    let mut behind = at + 1;
    while is_mark(tokens, behind, Mark::Comma) && is_name(tokens, behind + 1) {
        behind += 2;
    }
    behind
}

fn is_semicolon(kind: TokenKind) -> bool
    ensures { result ≡ is_semicolon (Some kind) }
{
    matches!(kind, TokenKind::Mark(Mark::Semicolon) | TokenKind::Inserted)
}

/// Whether a semicolon, written or inserted stands there.
pub fn semicolon_at(tokens: &[Token], at: usize) -> bool
    ensures value { result ≡ is_semicolon (kind_at tokens.now at) }
    ensures within { IsTrue result → at < length tokens.now }
{
    match tokens.get(at) {
        Some(token) => is_semicolon(token.kind),
        None => false,
    }
}

fn is_literal(kind: TokenKind) -> bool
    ensures { result ≡ is_literal (Some kind) }
{
    matches!(
        kind,
        TokenKind::Whole
            | TokenKind::Float
            | TokenKind::Imaginary
            | TokenKind::Rune
            | TokenKind::Chars
            | TokenKind::RawChars
    )
}

/// Whether a literal stands there.
pub fn literal_at(tokens: &[Token], at: usize) -> bool
    ensures value { result ≡ is_literal (kind_at tokens.now at) }
    ensures within { IsTrue result → at < length tokens.now }
{
    match tokens.get(at) {
        Some(token) => is_literal(token.kind),
        None => false,
    }
}

fn is_text(kind: TokenKind) -> bool
    ensures { result ≡ is_text (Some kind) }
{
    matches!(kind, TokenKind::Chars | TokenKind::RawChars)
}

/// Whether a text stands there.
pub fn text_at(tokens: &[Token], at: usize) -> bool
    ensures value { result ≡ is_text (kind_at tokens.now at) }
    ensures within { IsTrue result → at < length tokens.now }
{
    match tokens.get(at) {
        Some(token) => is_text(token.kind),
        None => false,
    }
}

fn begins_type(kind: TokenKind) -> bool
    ensures { result ≡ begins_type (Some kind) }
{
    match kind {
        TokenKind::Word(word) => matches!(
            word,
            Keyword::Map | Keyword::Chan | Keyword::Func | Keyword::Struct | Keyword::Interface
        ),
        TokenKind::Mark(mark) => matches!(
            mark,
            Mark::OpenParen | Mark::Star | Mark::OpenBracket | Mark::Arrow
        ),
        TokenKind::Name => true,
        _ => false,
    }
}

/// Whether the beginning of a type stands there.
pub fn type_at(tokens: &[Token], at: usize) -> bool
    ensures value { result ≡ begins_type (kind_at tokens.now at) }
    ensures within { IsTrue result → at < length tokens.now }
{
    match tokens.get(at) {
        Some(token) => begins_type(token.kind),
        None => false,
    }
}

fn begins_conversion(kind: TokenKind) -> bool
    ensures { result ≡ begins_conversion (Some kind) }
{
    match kind {
        TokenKind::Word(word) => matches!(
            word,
            Keyword::Map | Keyword::Chan | Keyword::Func | Keyword::Struct | Keyword::Interface
        ),
        TokenKind::Mark(mark) => matches!(mark, Mark::OpenBracket),
        _ => false,
    }
}

/// Whether the beginning of a conversion stands there.
pub fn conversion_at(tokens: &[Token], at: usize) -> bool
    ensures value { result ≡ begins_conversion (kind_at tokens.now at) }
    ensures within { IsTrue result → at < length tokens.now }
{
    match tokens.get(at) {
        Some(token) => begins_conversion(token.kind),
        None => false,
    }
}

fn begins_composite(kind: TokenKind) -> bool
    ensures { result ≡ begins_composite (Some kind) }
{
    match kind {
        TokenKind::Word(word) => matches!(word, Keyword::Map | Keyword::Struct),
        TokenKind::Mark(mark) => matches!(mark, Mark::OpenBracket),
        _ => false,
    }
}

/// Whether the beginning of a type that elements may follow stands there.
pub fn composite_at(tokens: &[Token], at: usize) -> bool
    ensures value { result ≡ begins_composite (kind_at tokens.now at) }
    ensures within { IsTrue result → at < length tokens.now }
{
    match tokens.get(at) {
        Some(token) => begins_composite(token.kind),
        None => false,
    }
}

/// Whether a type begins behind the names there.
pub fn names_then_type(tokens: &[Token], at: usize) -> bool
    ensures { result ≡ names_then tokens.now begins_type at }
{
    is_name(tokens, at) && type_at(tokens, behind_names(tokens, at))
}

/// Whether a type or `...` stands behind the names there.
pub fn names_then_parameter(tokens: &[Token], at: usize) -> bool
    ensures { result ≡ names_then tokens.now begins_parameter at }
{
    if !is_name(tokens, at) {
        return false;
    }
    let behind = behind_names(tokens, at);
    type_at(tokens, behind) || is_mark(tokens, behind, Mark::Ellipsis)
}

fn mark_level(mark: Mark) -> usize
    ensures { result ≡ mark_level mark }
{
    match mark {
        Mark::Star
        | Mark::Slash
        | Mark::Percent
        | Mark::ShiftLeft
        | Mark::ShiftRight
        | Mark::And
        | Mark::AndNot => 5,
        Mark::Plus | Mark::Minus | Mark::Or | Mark::Xor => 4,
        Mark::Equal
        | Mark::NotEqual
        | Mark::Less
        | Mark::LessEqual
        | Mark::Greater
        | Mark::GreaterEqual => 3,
        Mark::LogicalAnd => 2,
        Mark::LogicalOr => 1,
        _ => 0,
    }
}

/// How tightly the operator there binds, from 1 to 5; 0 where none stands.
pub fn level_at(tokens: &[Token], at: usize) -> usize
    ensures value { result ≡ level_at tokens.now at }
    ensures within { 0 < result → at < length tokens.now }
    ensures bound { result < 6 }
{
    match tokens.get(at) {
        Some(token) => match token.kind {
            TokenKind::Mark(mark) => mark_level(mark),
            _ => 0,
        },
        None => 0,
    }
}

/// The node of the operator there before its operand.
pub fn unary_at(tokens: &[Token], at: usize) -> Option<NodeKind>
    ensures value { result ≡ unary_of (kind_at tokens.now at) }
    ensures within { IfSome result (λ _. at < length tokens.now) }
{
    match tokens.get(at) {
        Some(token) => match token.kind {
            TokenKind::Mark(Mark::Plus) => Some(NodeKind::Positive),
            TokenKind::Mark(Mark::Minus) => Some(NodeKind::Negative),
            TokenKind::Mark(Mark::Not) => Some(NodeKind::LogicalNot),
            TokenKind::Mark(Mark::Xor) => Some(NodeKind::Complement),
            TokenKind::Mark(Mark::Star) => Some(NodeKind::Deref),
            TokenKind::Mark(Mark::And) => Some(NodeKind::AddressOf),
            TokenKind::Mark(Mark::Arrow) => Some(NodeKind::Receive),
            _ => None,
        },
        None => None,
    }
}

fn ends_stmt(kind: TokenKind) -> bool
    ensures { result ≡ ends_stmt (Some kind) }
{
    match kind {
        TokenKind::Mark(mark) => matches!(mark, Mark::Semicolon | Mark::CloseBrace),
        TokenKind::Inserted => true,
        _ => false,
    }
}

/// Whether the end of a statement stands there.
pub fn ends_stmt_at(tokens: &[Token], at: usize) -> bool
    ensures value { result ≡ ends_stmt (kind_at tokens.now at) }
    ensures within { IsTrue result → at < length tokens.now }
{
    match tokens.get(at) {
        Some(token) => ends_stmt(token.kind),
        None => false,
    }
}

fn ends_stmts(kind: TokenKind) -> bool
    ensures { result ≡ ends_stmts (Some kind) }
{
    match kind {
        TokenKind::Word(word) => matches!(word, Keyword::Case | Keyword::Default),
        TokenKind::Mark(mark) => matches!(mark, Mark::CloseBrace),
        _ => false,
    }
}

/// Whether the end of a list of statements stands there.
pub fn ends_stmts_at(tokens: &[Token], at: usize) -> bool
    ensures value { result ≡ ends_stmts (kind_at tokens.now at) }
    ensures within { IsTrue result → at < length tokens.now }
{
    match tokens.get(at) {
        Some(token) => ends_stmts(token.kind),
        None => false,
    }
}

fn begins_clause(kind: TokenKind) -> bool
    ensures { result ≡ begins_clause (Some kind) }
{
    match kind {
        TokenKind::Word(word) => matches!(word, Keyword::Case | Keyword::Default),
        _ => false,
    }
}

/// Whether the beginning of a clause stands there.
pub fn clause_at(tokens: &[Token], at: usize) -> bool
    ensures value { result ≡ begins_clause (kind_at tokens.now at) }
    ensures within { IsTrue result → at < length tokens.now }
{
    match tokens.get(at) {
        Some(token) => begins_clause(token.kind),
        None => false,
    }
}

fn is_op_assign(kind: TokenKind) -> bool
    ensures { result ≡ is_op_assign (Some kind) }
{
    match kind {
        TokenKind::Mark(mark) => matches!(
            mark,
            Mark::PlusAssign
                | Mark::MinusAssign
                | Mark::StarAssign
                | Mark::SlashAssign
                | Mark::PercentAssign
                | Mark::AndAssign
                | Mark::OrAssign
                | Mark::XorAssign
                | Mark::ShiftLeftAssign
                | Mark::ShiftRightAssign
                | Mark::AndNotAssign
        ),
        _ => false,
    }
}

/// Whether an operator with `=` stands there.
pub fn op_assign_at(tokens: &[Token], at: usize) -> bool
    ensures value { result ≡ is_op_assign (kind_at tokens.now at) }
    ensures within { IsTrue result → at < length tokens.now }
{
    match tokens.get(at) {
        Some(token) => is_op_assign(token.kind),
        None => false,
    }
}

fn begins_assign(kind: TokenKind) -> bool
    ensures { result ≡ begins_assign (Some kind) }
{
    match kind {
        TokenKind::Mark(mark) => matches!(
            mark,
            Mark::Comma
                | Mark::Assign
                | Mark::PlusAssign
                | Mark::MinusAssign
                | Mark::StarAssign
                | Mark::SlashAssign
                | Mark::PercentAssign
                | Mark::AndAssign
                | Mark::OrAssign
                | Mark::XorAssign
                | Mark::ShiftLeftAssign
                | Mark::ShiftRightAssign
                | Mark::AndNotAssign
        ),
        _ => false,
    }
}

/// Whether a comma or an operator that assigns stands there.
pub fn assign_at(tokens: &[Token], at: usize) -> bool
    ensures value { result ≡ begins_assign (kind_at tokens.now at) }
    ensures within { IsTrue result → at < length tokens.now }
{
    match tokens.get(at) {
        Some(token) => begins_assign(token.kind),
        None => false,
    }
}

fn is_range(kind: TokenKind) -> bool
    ensures { result ≡ is_range (Some kind) }
{
    match kind {
        TokenKind::Word(word) => matches!(word, Keyword::Range),
        _ => false,
    }
}

/// Whether the word `range` stands there.
pub fn range_at(tokens: &[Token], at: usize) -> bool
    ensures value { result ≡ is_range (kind_at tokens.now at) }
    ensures within { IsTrue result → at < length tokens.now }
{
    match tokens.get(at) {
        Some(token) => is_range(token.kind),
        None => false,
    }
}

fn follows_parameter(kind: TokenKind) -> bool
    ensures { result ≡ follows_parameter (Some kind) }
{
    match kind {
        TokenKind::Word(_) => true,
        TokenKind::Mark(mark) => matches!(mark, Mark::Tilde | Mark::Comma),
        TokenKind::Name => true,
        _ => false,
    }
}

/// Whether what follows the first name of type parameters stands there.
pub fn parameter_at(tokens: &[Token], at: usize) -> bool
    ensures value { result ≡ follows_parameter (kind_at tokens.now at) }
    ensures within { IsTrue result → at < length tokens.now }
{
    match tokens.get(at) {
        Some(token) => follows_parameter(token.kind),
        None => false,
    }
}

fn is_no_bracket(kind: TokenKind) -> bool
    ensures { result ≡ is_no_bracket (Some kind) }
{
    match kind {
        TokenKind::Mark(mark) => !matches!(
            mark,
            Mark::OpenParen
                | Mark::CloseParen
                | Mark::OpenBracket
                | Mark::CloseBracket
                | Mark::OpenBrace
                | Mark::CloseBrace
        ),
        _ => true,
    }
}

/// Whether a token that is no bracket stands there.
pub fn no_bracket_at(tokens: &[Token], at: usize) -> bool
    ensures value { result ≡ is_no_bracket (kind_at tokens.now at) }
    ensures within { IsTrue result → at < length tokens.now }
{
    match tokens.get(at) {
        Some(token) => is_no_bracket(token.kind),
        None => false,
    }
}

/// Whether names and `:=` stand there, and not before `range`.
pub fn defines(tokens: &[Token], at: usize) -> bool
    ensures { result ≡ defines tokens.now at }
{
    if !is_name(tokens, at) {
        return false;
    }
    let behind = behind_names(tokens, at);
    is_mark(tokens, behind, Mark::Define) && !range_at(tokens, behind + 1)
}

/// Whether `= range` or `:= range` stands there.
pub fn ranges(tokens: &[Token], at: usize) -> bool
    ensures value { result ≡ ranges tokens.now at }
    ensures within { IsTrue result → at + 1 < length tokens.now }
{
    (is_mark(tokens, at, Mark::Assign) || is_mark(tokens, at, Mark::Define))
        && range_at(tokens, at + 1)
}

/// Whether `.(type)` stands there.
pub fn guards(tokens: &[Token], at: usize) -> bool
    ensures value { result ≡ guards tokens.now at }
    ensures within { IsTrue result → at + 3 < length tokens.now }
{
    is_mark(tokens, at, Mark::Dot)
        && (is_mark(tokens, at + 1, Mark::OpenParen)
            && (is_word(tokens, at + 2, Keyword::TypeWord)
                && is_mark(tokens, at + 3, Mark::CloseParen)))
}

/// Whether a label stands there.
pub fn is_label(tokens: &[Token], at: usize) -> bool
    ensures value { result ≡ labels tokens.now at }
    ensures within { IsTrue result → at + 1 < length tokens.now }
{
    is_name(tokens, at) && is_mark(tokens, at + 1, Mark::Colon)
}

/// Whether type parameters stand behind the name of a declared type.
pub fn is_generic(tokens: &[Token], at: usize) -> bool
    requires { at < length tokens.now }
    ensures value { result ≡ is_generic tokens.now at }
    ensures within { IsTrue result → at + 3 < length tokens.now }
{
    is_mark(tokens, at + 1, Mark::OpenBracket)
        && (is_name(tokens, at + 2) && parameter_at(tokens, at + 3))
}

/// Whether a bracket opens there.
pub fn opens_bracket(tokens: &[Token], at: usize) -> bool
    ensures { result ≡ opens_bracket tokens.now at }
{
    is_mark(tokens, at, Mark::OpenParen)
        || (is_mark(tokens, at, Mark::OpenBracket) || is_mark(tokens, at, Mark::OpenBrace))
}
