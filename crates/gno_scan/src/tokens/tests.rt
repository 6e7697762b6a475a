// Texts, and what the scan of each answers.
use super::scan;
use crate::{Pos, ScanFault, Token};
use std::alloc::{AllocError, Global};
use std::fmt::Write;
use std::process::Abort;
use std::test::Fail;

/// A case: a text, and its tokens or its fault as `told` writes them.
type Case = (&'static str, &'static str);

/// Code 2 for a stray character, and code 3 for what stays open.
const STRAY_OR_OPEN: [Case; 18] = [
    ("#", "fault 2 at 1:1"),
    ("a $", "fault 2 at 1:3"),
    ("a\n ?", "fault 2 at 2:2"),
    ("f(@)", "fault 2 at 1:3"),
    ("a + \\", "fault 2 at 1:5"),
    ("a\u{2028}b", "fault 2 at 1:2"),
    ("a\0", "fault 2 at 1:2"),
    ("a /* b", "fault 3 at 1:3"),
    ("/*/", "fault 3 at 1:1"),
    ("a\n\"b", "fault 3 at 2:1"),
    ("a := '", "fault 3 at 1:6"),
    ("(`a\nb", "fault 3 at 1:2"),
    ("a = \"b\nc\"", "fault 3 at 1:5"),
    ("\"\\\n\"", "fault 3 at 1:1"),
    ("a 'b\n'", "fault 3 at 1:3"),
    ("\"\\q", "fault 3 at 1:1"),
    ("# \"", "fault 2 at 1:1"),
    ("\" #", "fault 3 at 1:1"),
];

/// Codes 4, 5 and 6, for literals that are read to their end.
const WRONG: [Case; 16] = [
    ("a\n\"\\n\\q\"", "fault 4 at 2:4"),
    ("a = 'ab'", "fault 4 at 1:5"),
    ("''", "fault 4 at 1:1"),
    ("# \"\\q\"", "fault 2 at 1:1"),
    ("\"\\q\" #", "fault 4 at 1:2"),
    ("170141183460469231731687303715884105728", "fault 5 at 1:1"),
    (
        "170141183460469231731687303715884105727",
        "Integer 1:1; Semicolon 1:40",
    ),
    ("0b12", "fault 5 at 1:1"),
    ("a 08", "fault 5 at 1:3"),
    ("1.5", "fault 6 at 1:1"),
    ("a\n 1i", "fault 6 at 2:2"),
    (".5", "fault 6 at 1:1"),
    ("-0x1p3", "fault 6 at 1:2"),
    ("x.5", "fault 6 at 1:2"),
    ("1..2", "fault 6 at 1:1"),
    ("08 1.5", "fault 5 at 1:1"),
];

/// Where a line's end inserts a semicolon.
const SEMICOLONS: [Case; 26] = [
    ("", ""),
    ("package p\n", "Package 1:1; Name 1:9; Semicolon 1:10"),
    ("x", "Name 1:1; Semicolon 1:2"),
    ("1\n", "Integer 1:1; Semicolon 1:2"),
    ("'a'\n", "Rune 1:1; Semicolon 1:4"),
    ("\"a\"\n", "String 1:1; Semicolon 1:4"),
    ("`a`\n", "String 1:1; Semicolon 1:4"),
    (
        "break\ncontinue\n",
        "Break 1:1; Semicolon 1:6; Continue 2:1; Semicolon 2:9",
    ),
    (
        "fallthrough\nreturn\n",
        "Fallthrough 1:1; Semicolon 1:12; Return 2:1; Semicolon 2:7",
    ),
    (
        "++\n--\n",
        "Increment 1:1; Semicolon 1:3; Decrement 2:1; Semicolon 2:3",
    ),
    (
        ")\n]\n}\n",
        "RightParen 1:1; Semicolon 1:2; RightBracket 2:1; Semicolon 2:2; RightBrace 3:1; Semicolon 3:2",
    ),
    ("(\n[\n{\n", "LeftParen 1:1; LeftBracket 2:1; LeftBrace 3:1"),
    ("+\n,\n...\n", "Plus 1:1; Comma 2:1; Ellipsis 3:1"),
    ("if\nelse\nfunc", "If 1:1; Else 2:1; Func 3:1"),
    ("x;\n", "Name 1:1; Semicolon 1:2"),
    (
        "x // c\ny",
        "Name 1:1; Semicolon 1:7; Name 2:1; Semicolon 2:2",
    ),
    ("x //", "Name 1:1; Semicolon 1:5"),
    (
        "x /* a\nb\n */ y",
        "Name 1:1; Semicolon 1:7; Name 3:5; Semicolon 3:6",
    ),
    ("x /* a */ y\n", "Name 1:1; Name 1:11; Semicolon 1:12"),
    ("x /* a */ // b\n", "Name 1:1; Semicolon 1:15"),
    (
        "x /*\n*/ /*\n*/ y",
        "Name 1:1; Semicolon 1:5; Name 3:4; Semicolon 3:5",
    ),
    ("( /*\n*/ x", "LeftParen 1:1; Name 2:4; Semicolon 2:5"),
    (
        "x\n\n\t\ny\n\n",
        "Name 1:1; Semicolon 1:2; Name 4:1; Semicolon 4:2",
    ),
    ("\n\n x", "Name 3:2; Semicolon 3:3"),
    (
        "x\r\ny\r\n",
        "Name 1:1; Semicolon 1:3; Name 2:1; Semicolon 2:3",
    ),
    ("// c", ""),
];

/// Where a token ends and the next one begins.
const TOKENS: [Case; 20] = [
    ("\u{feff}x", "Name 1:4; Semicolon 1:5"),
    ("\u{feff}\nx", "Name 2:1; Semicolon 2:2"),
    ("x\u{feff}", "fault 2 at 1:2"),
    ("\u{feff}\u{feff}", "fault 2 at 1:4"),
    ("é x", "Name 1:1; Name 1:4; Semicolon 1:5"),
    ("\"é日\"+", "String 1:1; Plus 1:8"),
    (
        "1_000 0_7 0x_F",
        "Integer 1:1; Integer 1:7; Integer 1:11; Semicolon 1:15",
    ),
    ("1__0", "Integer 1:1; Name 1:2; Semicolon 1:5"),
    ("0x", "Integer 1:1; Name 1:2; Semicolon 1:3"),
    ("0777", "Integer 1:1; Semicolon 1:5"),
    (
        "/* /* */ */ x",
        "Star 1:10; Slash 1:11; Name 1:13; Semicolon 1:14",
    ),
    ("`a\r\n\n` x", "String 1:1; Name 3:3; Semicolon 3:4"),
    ("`\\`+", "String 1:1; Plus 1:4"),
    ("a...", "Name 1:1; Ellipsis 1:2"),
    ("..", "Period 1:1; Period 1:2"),
    (
        "<- <<= &^= :=",
        "Arrow 1:1; ShiftLeftAssign 1:4; AndNotAssign 1:8; Define 1:12",
    ),
    ("<<<==", "ShiftLeft 1:1; LessEqual 1:3; Assign 1:5"),
    (
        "x+++y",
        "Name 1:1; Increment 1:2; Plus 1:4; Name 1:5; Semicolon 1:6",
    ),
    ("x.y", "Name 1:1; Period 1:2; Name 1:3; Semicolon 1:4"),
    ("ifx if", "Name 1:1; If 1:5"),
];

// The kind and the place of each token, or the fault.
fn told(alloc: Global, text: &[u8]) -> Result<String, AllocError> {
    match scan(alloc, 1, text) {
        Ok(tokens) => listed(alloc, tokens.as_slice()),
        Err(ScanFault::At { code, pos }) => format!(in alloc;
            "fault {code} at {}:{}",
            pos.line, pos.column
        ),
        Err(ScanFault::NoMemory) => format!(in alloc; "no memory"),
    }
}

fn listed(alloc: Global, tokens: &[Token]) -> Result<String, AllocError> {
    let mut list = String::new(alloc);
    for token in tokens {
        if !list.is_empty() {
            list.push_str("; ")?;
        }
        let Pos { line, column, .. } = token.pos;
        write!(list, "{:?} {line}:{column}", token.kind)?;
    }
    Ok(list)
}

// Where each token begins and ends, in bytes.
fn spans(alloc: Global, tokens: &[Token]) -> Result<String, AllocError> {
    let mut list = String::new(alloc);
    for token in tokens {
        write!(list, "{}-{} ", token.start, token.end)?;
    }
    Ok(list)
}

// Each text answers what its case says.
fn all_answer(rt: &impl Abort, alloc: Global, cases: &[Case]) -> Result<(), Fail> {
    for (text, answer) in cases {
        let answered = told(alloc, text.as_bytes())?;
        assert_eq!(rt; answered.as_str(), *answer, "at {text}");
    }
    Ok(())
}

#[test]
fn stray_characters_and_open_pieces(rt: HostRuntime) -> Result<(), Fail> {
    all_answer(&rt, rt.alloc(), STRAY_OR_OPEN.as_slice())
}

#[test]
fn wrong_literals(rt: HostRuntime) -> Result<(), Fail> {
    all_answer(&rt, rt.alloc(), WRONG.as_slice())
}

#[test]
fn semicolons_at_line_ends(rt: HostRuntime) -> Result<(), Fail> {
    all_answer(&rt, rt.alloc(), SEMICOLONS.as_slice())
}

#[test]
fn tokens_and_their_places(rt: HostRuntime) -> Result<(), Fail> {
    all_answer(&rt, rt.alloc(), TOKENS.as_slice())
}

#[test]
fn bytes_that_are_no_utf8(rt: HostRuntime) -> Result<(), Fail> {
    let cases: [(&[u8], &str); 9] = [
        (b"\xff", "fault 1 at 1:1"),
        (b"// a\n// \xff", "fault 1 at 2:4"),
        (b"/* \xc3 */", "fault 1 at 1:4"),
        (b"\"\xff", "fault 3 at 1:1"),
        (b"\"\xff\"", "fault 1 at 1:2"),
        (b"a \xff #", "fault 1 at 1:3"),
        (b"a # \xff", "fault 2 at 1:3"),
        (b"\xc3\xa9\xc3", "fault 1 at 1:3"),
        (b"\xef\xbb\xbf\xff", "fault 1 at 1:4"),
    ];
    for (text, answer) in cases {
        let answered = told(rt.alloc(), text)?;
        assert_eq!(rt; answered.as_str(), answer);
    }
    Ok(())
}

#[test]
fn tokens_span_their_bytes(rt: HostRuntime) -> Result<(), Fail> {
    let text = "\u{feff}if é := `c` /* d */ ;e // f";
    let Ok(tokens) = scan(rt.alloc(), 7, text.as_bytes()) else {
        return Ok(assert!(rt; false));
    };
    let spans = spans(rt.alloc(), tokens.as_slice())?;
    assert_eq!(rt; spans.as_str(), "3-5 6-8 9-11 12-15 24-25 25-26 31-31 ");
    for token in tokens.as_slice() {
        assert_eq!(rt; token.pos.file, 7);
    }
    Ok(())
}

#[test]
fn a_text_of_more_than_a_mebibyte(rt: HostRuntime) -> Result<(), Fail> {
    let text = vec![in rt.alloc(); b' '; 1_048_577]?;
    assert_eq!(rt; text.len(), 1_048_577);
    let too_long = told(rt.alloc(), text.as_slice())?;
    assert_eq!(rt; too_long.as_str(), "fault 7 at 1:1");
    let longest = told(rt.alloc(), &text[1..])?;
    assert_eq!(rt; longest.as_str(), "");
    Ok(())
}
