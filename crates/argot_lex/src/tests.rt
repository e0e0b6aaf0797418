// The tokens of small texts, each form and each refusal once.
ghost use Rattle.std.specs.Prelude.{length, ◌<◌, ◌^◌};

use crate::{LexFault, lex};
use std::alloc::Global;
use std::test::Fail;

// Texts and their tokens, as the reference program of the specification prints them.
static SPELLED: [(&[u8], &str); 35] = [
    (b"", ""),
    (b"x", "Name:0-1 Inserted:1-1"),
    (b"_a1 x\n", "Name:0-3 Name:4-5 Inserted:5-5"),
    (
        b"\xc3\xa9t\xc3\xa9 \xe4\xb8\x96\xe7\x95\x8c\xd9\xa3 \xc7\x85x",
        "Name:0-5 Name:6-14 Name:15-18 Inserted:18-18",
    ),
    (
        b"break continue fallthrough return x\nbreak\ncontinue\nfallthrough\nreturn\n",
        "Word(Break):0-5 Word(Continue):6-14 Word(Fallthrough):15-26 Word(Return):27-33 Name:34-35 Inserted:35-35 Word(Break):36-41 Inserted:41-41 Word(Continue):42-50 Inserted:50-50 Word(Fallthrough):51-62 Inserted:62-62 Word(Return):63-69 Inserted:69-69",
    ),
    (
        b"case chan const default defer else for func go goto if import interface map package range select struct switch type var",
        "Word(Case):0-4 Word(Chan):5-9 Word(Const):10-15 Word(Default):16-23 Word(Defer):24-29 Word(Else):30-34 Word(For):35-38 Word(Func):39-43 Word(Go):44-46 Word(Goto):47-51 Word(If):52-54 Word(Import):55-61 Word(Interface):62-71 Word(Map):72-75 Word(Package):76-83 Word(Range):84-89 Word(Select):90-96 Word(Struct):97-103 Word(Switch):104-110 Word(TypeWord):111-115 Word(Var):116-119",
    ),
    (
        b"0 7 089 0x 1__0 0b12 1e 1_000 0_7 00",
        "Whole:0-1 Whole:2-3 Whole:4-5 Whole:5-7 Whole:8-9 Name:9-10 Whole:11-12 Name:12-15 Whole:16-19 Whole:19-20 Whole:21-22 Name:22-23 Whole:24-29 Whole:30-33 Whole:34-36 Inserted:36-36",
    ),
    (
        b"0b1_0 0B1 0o17 0O_7 0x_Ff 0XaB",
        "Whole:0-5 Whole:6-9 Whole:10-14 Whole:15-19 Whole:20-25 Whole:26-30 Inserted:30-30",
    ),
    (
        b"1. .5 1.5e+3 1e9 0x1p-2 0x1.8P0 0x.8p1 0x_1.p2 0x1._2p0 1_0.2_5E1_0",
        "Float:0-2 Float:3-5 Float:6-12 Float:13-16 Float:17-23 Float:24-31 Float:32-38 Float:39-46 Whole:47-50 Mark(Dot):50-51 Name:51-55 Float:56-67 Inserted:67-67",
    ),
    (
        b"1i 089i 0x1i 1.5i .5ei 1e3i 0b1i 0o7i 0x1p0i",
        "Imaginary:0-2 Imaginary:3-7 Imaginary:8-12 Imaginary:13-17 Float:18-20 Name:20-22 Imaginary:23-27 Imaginary:28-32 Imaginary:33-37 Imaginary:38-44 Inserted:44-44",
    ),
    (
        b"'a' '\\n' '\\'' '\\\\' '\\101' '\\xFF' '\\u00e9' '\\U0010FFFF' '\xe7\x95\x8c'",
        "Rune:0-3 Rune:4-8 Rune:9-13 Rune:14-18 Rune:19-25 Rune:26-32 Rune:33-41 Rune:42-54 Rune:55-60 Inserted:60-60",
    ),
    (
        b"\"a\\\"b\\\\ \\a\\b\\f\\n\\r\\t\\v \\101\\x41\\u00e9\\U0001F600 \xc3\xa9\"",
        "Chars:0-51 Inserted:51-51",
    ),
    (b"`a\\n\n\r`x", "RawChars:0-7 Name:7-8 Inserted:8-8"),
    (b"\"a'b\" 'x'", "Chars:0-5 Rune:6-9 Inserted:9-9"),
    (
        b"+ - * / % & | ^ << >> &^ += -= *= /= %= &= |= ^=",
        "Mark(Plus):0-1 Mark(Minus):2-3 Mark(Star):4-5 Mark(Slash):6-7 Mark(Percent):8-9 Mark(And):10-11 Mark(Or):12-13 Mark(Xor):14-15 Mark(ShiftLeft):16-18 Mark(ShiftRight):19-21 Mark(AndNot):22-24 Mark(PlusAssign):25-27 Mark(MinusAssign):28-30 Mark(StarAssign):31-33 Mark(SlashAssign):34-36 Mark(PercentAssign):37-39 Mark(AndAssign):40-42 Mark(OrAssign):43-45 Mark(XorAssign):46-48",
    ),
    (
        b"<<= >>= &^= && || <- ++ -- == < > = ! ~ != <= >= := ... ( ) [ ] { } , ; . :",
        "Mark(ShiftLeftAssign):0-3 Mark(ShiftRightAssign):4-7 Mark(AndNotAssign):8-11 Mark(LogicalAnd):12-14 Mark(LogicalOr):15-17 Mark(Arrow):18-20 Mark(Increment):21-23 Mark(Decrement):24-26 Mark(Equal):27-29 Mark(Less):30-31 Mark(Greater):32-33 Mark(Assign):34-35 Mark(Not):36-37 Mark(Tilde):38-39 Mark(NotEqual):40-42 Mark(LessEqual):43-45 Mark(GreaterEqual):46-48 Mark(Define):49-51 Mark(Ellipsis):52-55 Mark(OpenParen):56-57 Mark(CloseParen):58-59 Mark(OpenBracket):60-61 Mark(CloseBracket):62-63 Mark(OpenBrace):64-65 Mark(CloseBrace):66-67 Mark(Comma):68-69 Mark(Semicolon):70-71 Mark(Dot):72-73 Mark(Colon):74-75",
    ),
    (
        b"a&^=b a&^b <<<= >>>",
        "Name:0-1 Mark(AndNotAssign):1-4 Name:4-5 Name:6-7 Mark(AndNot):7-9 Name:9-10 Mark(ShiftLeft):11-13 Mark(LessEqual):13-15 Mark(ShiftRight):16-18 Mark(Greater):18-19",
    ),
    (
        b"...... .. ....x",
        "Mark(Ellipsis):0-3 Mark(Ellipsis):3-6 Mark(Dot):7-8 Mark(Dot):8-9 Mark(Ellipsis):10-13 Mark(Dot):13-14 Name:14-15 Inserted:15-15",
    ),
    (b"x\ny\n", "Name:0-1 Inserted:1-1 Name:2-3 Inserted:3-3"),
    (b"x // c\ny", "Name:0-1 Inserted:1-1 Name:7-8 Inserted:8-8"),
    (b"x /* c */ y", "Name:0-1 Name:10-11 Inserted:11-11"),
    (
        b"x /* c\n */ y",
        "Name:0-1 Inserted:1-1 Name:11-12 Inserted:12-12",
    ),
    (b"x /* c\n */", "Name:0-1 Inserted:1-1"),
    (b"x // c", "Name:0-1 Inserted:1-1"),
    (
        b"//go:build x\n//go:embed\n /*//go:no*/ // go:no\nx //go:yes\r\n",
        "Name:46-47 Inserted:47-47 go:0 go:13 go:48",
    ),
    (b"/**/ /* * / **/ x", "Name:16-17 Inserted:17-17"),
    (
        b"a\r\nb\t c",
        "Name:0-1 Inserted:1-1 Name:3-4 Name:6-7 Inserted:7-7",
    ),
    (b"\xef\xbb\xbfx", "Name:3-4 Inserted:4-4"),
    (
        b"x ) ] } ++ --\n)\n]\n}\n++\n--\n(\n",
        "Name:0-1 Mark(CloseParen):2-3 Mark(CloseBracket):4-5 Mark(CloseBrace):6-7 Mark(Increment):8-10 Mark(Decrement):11-13 Inserted:13-13 Mark(CloseParen):14-15 Inserted:15-15 Mark(CloseBracket):16-17 Inserted:17-17 Mark(CloseBrace):18-19 Inserted:19-19 Mark(Increment):20-22 Inserted:22-22 Mark(Decrement):23-25 Inserted:25-25 Mark(OpenParen):26-27",
    ),
    (
        b"x;y;\n",
        "Name:0-1 Mark(Semicolon):1-2 Name:2-3 Mark(Semicolon):3-4",
    ),
    (
        b"a.b.c(1)",
        "Name:0-1 Mark(Dot):1-2 Name:2-3 Mark(Dot):3-4 Name:4-5 Mark(OpenParen):5-6 Whole:6-7 Mark(CloseParen):7-8 Inserted:8-8",
    ),
    (
        b"{}\n",
        "Mark(OpenBrace):0-1 Mark(CloseBrace):1-2 Inserted:2-2",
    ),
    (
        b"f(`a`)\n",
        "Name:0-1 Mark(OpenParen):1-2 RawChars:2-5 Mark(CloseParen):5-6 Inserted:6-6",
    ),
    (
        b"-1+2 <-c",
        "Mark(Minus):0-1 Whole:1-2 Mark(Plus):2-3 Whole:3-4 Mark(Arrow):5-7 Name:7-8 Inserted:8-8",
    ),
    (
        b"type T struct{}\n",
        "Word(TypeWord):0-4 Name:5-6 Word(Struct):7-13 Mark(OpenBrace):13-14 Mark(CloseBrace):14-15 Inserted:15-15",
    ),
];

// Texts with the first offset at which no piece begins.
static REFUSED: [(&[u8], &str); 34] = [
    (b"'\\ud800'", "bad 0"),
    (b"'\\U00110000'", "bad 0"),
    (b"'ab'", "bad 0"),
    (b"''", "bad 0"),
    (b"'''", "bad 0"),
    (b"'a\n'", "bad 0"),
    (b"\"a\n\"", "bad 0"),
    (b"\"a", "bad 0"),
    (b"`a", "bad 0"),
    (b"x /* c", "bad 2"),
    (b"'\\400'", "bad 0"),
    (b"'\\q'", "bad 0"),
    (b"'\\\"'", "bad 0"),
    (b"\"\\'\"", "bad 0"),
    (b"x @", "bad 2"),
    (b"#", "bad 0"),
    (b"a\xef\xbb\xbf", "bad 1"),
    (b"$x ?", "bad 0"),
    (b"\xc2\xb2", "bad 0"),
    (b"x\xcc\x81", "bad 1"),
    (b"'\\x1'", "bad 0"),
    (b"'\\u12'", "bad 0"),
    (b"\"\\18\"", "bad 0"),
    (b"x\x00", "bad 1"),
    (b"// a\xff\nx", "bad 0"),
    (b"x // a\x00\n", "bad 2"),
    (b"/* \xff */", "bad 0"),
    (b"\"\xff\"", "bad 0"),
    (b"`\x00`", "bad 0"),
    (b"'\xc3'", "bad 0"),
    (b"x \xff", "bad 2"),
    (b"\xef\xbb\xbf\xef\xbb\xbf", "bad 3"),
    (b"a\xc3\xa9\xff", "bad 3"),
    (b"\xed\xa0\x80", "bad 0"),
];

// The tokens and directives in one line, or where no piece begins.
fn shown(alloc: Global, bytes: &[u8]) -> Result<String, Fail>
    requires { length bytes.now < 2 ^ 32 }
{
    let mut line = String::new(alloc);
    match lex(alloc, bytes) {
        Ok(lexed) => {
            for token in lexed.tokens.as_slice() {
                if line.len() > 0 {
                    line.push_str(" ")?;
                }
                let kind = token.kind;
                let start = token.start;
                let end = token.end;
                write!(line, "{kind:?}:{start}-{end}")?;
            }
            for at in lexed.directives.as_slice() {
                write!(line, " go:{at}")?;
            }
        }
        Err(LexFault::Bad { offset }) => write!(line, "bad {offset}")?,
        Err(LexFault::Memory) => line.push_str("out of memory")?,
    }
    Ok(line)
}

#[test]
fn texts_have_the_tokens_of_the_language(rt: HostRuntime) -> Result<(), Fail> {
    for (text, want) in SPELLED {
        assert!(rt; text.len() < 1000);
        assert_eq!(rt; shown(rt.alloc(), text)?.as_str(), want);
    }
    Ok(())
}

#[test]
fn texts_are_refused_where_no_piece_begins(rt: HostRuntime) -> Result<(), Fail> {
    for (text, want) in REFUSED {
        assert!(rt; text.len() < 1000);
        assert_eq!(rt; shown(rt.alloc(), text)?.as_str(), want);
    }
    Ok(())
}
