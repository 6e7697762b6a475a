// Texts, and the operator at the front of each.
use super::operator_at;
use crate::TokenKind;

/// Each operator and mark, alone.
const ALONE: [(&str, TokenKind, usize); 48] = [
    ("+", TokenKind::Plus, 1),
    ("-", TokenKind::Minus, 1),
    ("*", TokenKind::Star, 1),
    ("/", TokenKind::Slash, 1),
    ("%", TokenKind::Percent, 1),
    ("&", TokenKind::And, 1),
    ("|", TokenKind::Or, 1),
    ("^", TokenKind::Caret, 1),
    ("<<", TokenKind::ShiftLeft, 2),
    (">>", TokenKind::ShiftRight, 2),
    ("&^", TokenKind::AndNot, 2),
    ("+=", TokenKind::PlusAssign, 2),
    ("-=", TokenKind::MinusAssign, 2),
    ("*=", TokenKind::StarAssign, 2),
    ("/=", TokenKind::SlashAssign, 2),
    ("%=", TokenKind::PercentAssign, 2),
    ("&=", TokenKind::AndAssign, 2),
    ("|=", TokenKind::OrAssign, 2),
    ("^=", TokenKind::CaretAssign, 2),
    ("<<=", TokenKind::ShiftLeftAssign, 3),
    (">>=", TokenKind::ShiftRightAssign, 3),
    ("&^=", TokenKind::AndNotAssign, 3),
    ("&&", TokenKind::BothTrue, 2),
    ("||", TokenKind::OneTrue, 2),
    ("<-", TokenKind::Arrow, 2),
    ("++", TokenKind::Increment, 2),
    ("--", TokenKind::Decrement, 2),
    ("==", TokenKind::Equal, 2),
    ("!=", TokenKind::NotEqual, 2),
    ("<", TokenKind::Less, 1),
    ("<=", TokenKind::LessEqual, 2),
    (">", TokenKind::Greater, 1),
    (">=", TokenKind::GreaterEqual, 2),
    ("=", TokenKind::Assign, 1),
    (":=", TokenKind::Define, 2),
    ("!", TokenKind::Not, 1),
    ("~", TokenKind::Tilde, 1),
    ("...", TokenKind::Ellipsis, 3),
    ("(", TokenKind::LeftParen, 1),
    (")", TokenKind::RightParen, 1),
    ("[", TokenKind::LeftBracket, 1),
    ("]", TokenKind::RightBracket, 1),
    ("{", TokenKind::LeftBrace, 1),
    ("}", TokenKind::RightBrace, 1),
    (",", TokenKind::Comma, 1),
    (".", TokenKind::Period, 1),
    (":", TokenKind::Colon, 1),
    (";", TokenKind::Semicolon, 1),
];

/// Texts that go on behind their operator, and its length.
const BEFORE_MORE: [(&str, TokenKind, usize); 27] = [
    ("<<=1", TokenKind::ShiftLeftAssign, 3),
    ("<<-1", TokenKind::ShiftLeft, 2),
    ("<-<", TokenKind::Arrow, 2),
    ("<==", TokenKind::LessEqual, 2),
    ("<a", TokenKind::Less, 1),
    ("&^==", TokenKind::AndNotAssign, 3),
    ("&^^", TokenKind::AndNot, 2),
    ("&&^", TokenKind::BothTrue, 2),
    ("&a", TokenKind::And, 1),
    ("....", TokenKind::Ellipsis, 3),
    ("..", TokenKind::Period, 1),
    ("..a", TokenKind::Period, 1),
    (".a", TokenKind::Period, 1),
    ("::=", TokenKind::Colon, 1),
    (":==", TokenKind::Define, 2),
    ("===", TokenKind::Equal, 2),
    ("!==", TokenKind::NotEqual, 2),
    ("+++", TokenKind::Increment, 2),
    ("++=", TokenKind::Increment, 2),
    ("-->", TokenKind::Decrement, 2),
    ("->", TokenKind::Minus, 1),
    ("|||", TokenKind::OneTrue, 2),
    (">>>=", TokenKind::ShiftRight, 2),
    (">>=>", TokenKind::ShiftRightAssign, 3),
    ("~=", TokenKind::Tilde, 1),
    ("[]", TokenKind::LeftBracket, 1),
    ("()", TokenKind::LeftParen, 1),
];

/// Texts that begin with no operator.
const NONE: [&str; 16] = [
    "",
    "a+",
    "0",
    "_",
    "#",
    "$",
    "?",
    "@",
    "\\",
    "\"",
    "'",
    "`",
    " +",
    "\n",
    "\u{feff}+",
    "é",
];

// The first text whose operator is read otherwise.
fn misread(cases: &[(&'static str, TokenKind, usize)]) -> Option<&'static str> {
    for (text, kind, length) in cases {
        match operator_at(text.as_bytes()) {
            Some(found) if found.kind == *kind && found.length == *length => {}
            _ => return Some(*text),
        }
    }
    None
}

#[test]
fn operators_are_read_alone(rt: HostRuntime) {
    assert_eq!(rt; misread(ALONE.as_slice()), None);
}

#[test]
fn the_longest_operator_is_read(rt: HostRuntime) {
    assert_eq!(rt; misread(BEFORE_MORE.as_slice()), None);
}

#[test]
fn other_texts_begin_with_no_operator(rt: HostRuntime) {
    for text in NONE {
        assert!(rt; operator_at(text.as_bytes()).is_none(), "at {text}");
    }
}
