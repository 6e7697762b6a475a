// Texts, and the identifier or the keyword of each.
use super::{identifier_length, keyword_of};
use crate::TokenKind;

/// Texts, and how many bytes the identifier at the front of each has.
const IDENTIFIERS: [(&str, usize); 22] = [
    ("", 0),
    ("_", 1),
    ("_x9 = 1", 3),
    ("été+1", 5),
    ("λάμδα", 10),
    ("世界x", 7),
    ("x٣ ", 3),
    ("٣x", 0),
    ("9x", 0),
    ("breaker", 7),
    ("a-b", 1),
    ("a.b", 1),
    (" a", 0),
    ("e\u{301}", 1),
    ("\u{301}e", 0),
    ("\u{feff}a", 0),
    ("a\u{feff}", 1),
    ("a\u{200d}b", 1),
    ("ǅʰª", 6),
    ("Ⅷ", 0),
    ("x²", 1),
    ("𝒳y", 5),
];

/// Each keyword.
const KEYWORDS: [(&str, TokenKind); 25] = [
    ("break", TokenKind::Break),
    ("case", TokenKind::Case),
    ("chan", TokenKind::Chan),
    ("const", TokenKind::Const),
    ("continue", TokenKind::Continue),
    ("default", TokenKind::Default),
    ("defer", TokenKind::Defer),
    ("else", TokenKind::Else),
    ("fallthrough", TokenKind::Fallthrough),
    ("for", TokenKind::For),
    ("func", TokenKind::Func),
    ("go", TokenKind::Go),
    ("goto", TokenKind::Goto),
    ("if", TokenKind::If),
    ("import", TokenKind::Import),
    ("interface", TokenKind::Interface),
    ("map", TokenKind::Map),
    ("package", TokenKind::Package),
    ("range", TokenKind::Range),
    ("return", TokenKind::Return),
    ("select", TokenKind::Select),
    ("struct", TokenKind::Struct),
    ("switch", TokenKind::Switch),
    ("type", TokenKind::Type),
    ("var", TokenKind::Var),
];

/// Words that are no keyword.
const OTHER_WORDS: [&str; 16] = [
    "",
    "brea",
    "breaker",
    "Break",
    "FOR",
    "fo",
    "forx",
    "nil",
    "string",
    "gofunc",
    "interfaces",
    "fallthroug",
    "types",
    "_if",
    "if_",
    "struct ",
];

// The first text whose identifier has another length.
fn misread(cases: &[(&'static str, usize)]) -> Option<&'static str> {
    for (text, length) in cases {
        if identifier_length(text.as_bytes()) != *length {
            return Some(*text);
        }
    }
    None
}

// The first word that is not the keyword that it should be.
fn unknown(cases: &[(&'static str, TokenKind)]) -> Option<&'static str> {
    for (word, kind) in cases {
        if keyword_of(word.as_bytes()) != Some(*kind) {
            return Some(*word);
        }
    }
    None
}

#[test]
fn identifiers_end_where_they_should(rt: HostRuntime) {
    assert_eq!(rt; misread(IDENTIFIERS.as_slice()), None);
}

#[test]
fn identifiers_end_at_bytes_of_no_character(rt: HostRuntime) {
    let cases: [(&[u8], usize); 7] = [
        (b"\xff".as_slice(), 0),
        (b"a\xff".as_slice(), 1),
        (b"a\xc1\x81".as_slice(), 1),
        (b"a\xed\xa0\x80".as_slice(), 1),
        (b"\xc3\xa9\xc3".as_slice(), 2),
        (b"a\xe4\xb8".as_slice(), 1),
        (b"\x80a".as_slice(), 0),
    ];
    for (text, length) in cases {
        assert_eq!(rt; identifier_length(text), length);
    }
}

#[test]
fn keywords_are_known(rt: HostRuntime) {
    assert_eq!(rt; unknown(KEYWORDS.as_slice()), None);
}

#[test]
fn other_words_are_no_keyword(rt: HostRuntime) {
    for word in OTHER_WORDS {
        assert!(rt; keyword_of(word.as_bytes()).is_none(), "at {word}");
    }
}
