// What is wrong with literals and numbers, by examples.
ghost use Rattle.std.specs.Prelude.{◌≡◌, take};

use super::*;
use crate::closed::raw_length;
use crate::number::number_at;
use crate::quoted::quoted_length;

// The code and the offset, or zeros.
fn told(wrong: Option<Wrong>) -> (u8, usize) {
    match wrong {
        Some(wrong) => (wrong.code, wrong.offset),
        None => (0, 0),
    }
}

// The first bytes of a text.
fn front(text: &[u8], length: usize) -> &[u8]
    ensures { result.now ≡ take length text.now }
{
    &text[..length.min(text.len())]
}

fn told_of_rune(text: &[u8]) -> (u8, usize) {
    match quoted_length(text, b'\'') {
        Some(length) => told(wrong_in(Piece::Token(TokenKind::Rune), front(text, length))),
        None => (1, 0),
    }
}

fn told_of_string(text: &[u8]) -> (u8, usize) {
    match quoted_length(text, b'"') {
        Some(length) => told(wrong_in(Piece::Token(TokenKind::String), front(text, length))),
        None => (1, 0),
    }
}

fn told_of_raw(text: &[u8]) -> (u8, usize) {
    match raw_length(text) {
        Some(length) => told(wrong_in(Piece::Token(TokenKind::String), front(text, length))),
        None => (1, 0),
    }
}

fn told_of_number(text: &[u8]) -> (u8, usize) {
    match number_at(text) {
        Some(number) => {
            let word = front(text, number.length);
            if number.is_integer {
                told(wrong_in(Piece::Token(TokenKind::Integer), word))
            } else {
                told(wrong_in(Piece::OtherNumber, word))
            }
        }
        None => (1, 0),
    }
}

// The code and the offset of what is wrong with a piece, 0 where nothing is, and 1 where it is none of these pieces.
fn told_of(text: &[u8]) -> (u8, usize) {
    match text {
        [b'\'', ..] => told_of_rune(text),
        [b'"', ..] => told_of_string(text),
        [b'`', ..] => told_of_raw(text),
        _ => told_of_number(text),
    }
}

#[test]
fn literals(rt: HostRuntime) {
    for (text, code, offset) in [
        (r#""""#, 0, 0),
        (r#""\a\b\f\n\r\t\v\\\"""#, 0, 0),
        (r#""\x41\377\u00e9\U0010FFFF""#, 0, 0),
        (r#""\000\xfF\ud7ff\ue000""#, 0, 0),
        (r#""it's é and 日本""#, 0, 0),
        (r#""\q""#, 4, 1),
        (r#""ab\q""#, 4, 3),
        (r#""a\nb\"\q\p""#, 4, 7),
        (r#""é\q""#, 4, 3),
        (r#""\'""#, 4, 1),
        (r#""\A""#, 4, 1),
        (r#""\x4""#, 4, 1),
        (r#""\x4g""#, 4, 1),
        (r#""\X41""#, 4, 1),
        (r#""\400""#, 4, 1),
        (r#""\37""#, 4, 1),
        (r#""\378""#, 4, 1),
        (r#""\u00e""#, 4, 1),
        (r#""\ud800""#, 4, 1),
        (r#""\udfff""#, 4, 1),
        (r#""\U0010fff""#, 4, 1),
        (r#""\U00110000""#, 4, 1),
        (r#""\U0000d800""#, 4, 1),
        ("'a'", 0, 0),
        ("'é'", 0, 0),
        ("'日'", 0, 0),
        ("'😀'", 0, 0),
        ("'\"'", 0, 0),
        (r"'\a'", 0, 0),
        (r"'\n'", 0, 0),
        (r"'\\'", 0, 0),
        (r"'\''", 0, 0),
        (r"'\377'", 0, 0),
        (r"'\xff'", 0, 0),
        (r"'\u00e9'", 0, 0),
        (r"'\U0010ffff'", 0, 0),
        ("''", 4, 0),
        ("'ab'", 4, 0),
        ("'éa'", 4, 0),
        (r"'\na'", 4, 0),
        (r"'a\n'", 4, 0),
        (r"'\''a'", 0, 0),
        (r"'\n\n'", 4, 0),
        (r"'\q'", 4, 1),
        (r"'ab\q'", 4, 3),
        (r#"'\"'"#, 4, 1),
        (r"'\400'", 4, 1),
        (r"'\ud800'", 4, 1),
        (r"`\q\`", 0, 0),
        ("`a\n\\b\"'`", 0, 0),
        ("``", 0, 0),
    ] {
        assert_eq!(rt; told_of(text.as_bytes()), (code, offset), "{text}");
    }
}

#[test]
fn bytes_of_no_character(rt: HostRuntime) {
    assert_eq!(rt; told_of(&[39, 255, 39]), (0, 0));
    assert_eq!(rt; told_of(&[39, 128, 39]), (0, 0));
    assert_eq!(rt; told_of(&[39, 195, 39]), (0, 0));
    assert_eq!(rt; told_of(&[39, 255, 254, 39]), (4, 0));
    assert_eq!(rt; told_of(&[39, 237, 160, 128, 39]), (4, 0));
    assert_eq!(rt; told_of(&[39, 192, 128, 39]), (4, 0));
    assert_eq!(rt; told_of(&[34, 255, 254, 34]), (0, 0));
}

#[test]
fn numbers(rt: HostRuntime) {
    for (text, code) in [
        ("0", 0),
        ("42", 0),
        ("4_2", 0),
        ("00", 0),
        ("0600", 0),
        ("0_600", 0),
        ("0o17", 0),
        ("0b101", 0),
        ("0xBad_Face", 0),
        ("170141183460469231731687303715884105727", 0),
        ("0x7fffffffffffffffffffffffffffffff", 0),
        ("170141183460469231731687303715884105728", 5),
        ("0x80000000000000000000000000000000", 5),
        ("1000000000000000000000000000000000000000000", 5),
        ("0b12", 5),
        ("0b_102", 5),
        ("08", 5),
        ("0_8", 5),
        ("0o8", 5),
        ("1.5", 6),
        (".5", 6),
        ("1.", 6),
        ("1e3", 6),
        ("0x1p-2", 6),
        ("1i", 6),
        ("1.5i", 6),
        ("08i", 6),
    ] {
        assert_eq!(rt; told_of(text.as_bytes()), (code, 0), "{text}");
    }
}
