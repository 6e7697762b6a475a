use crate::{each_part_has_a_value, literal_value, one_value_a_spelling};
use gno_constants::Constant;
use gno_tree::LiteralKind;
use std::alloc::{AllocError, Global};
use std::test::Fail;

/// 2^127 - 1
const MOST: i128 = 170_141_183_460_469_231_731_687_303_715_884_105_727;

// The whole number that a literal spells, if it spells one.
fn number(alloc: Global, kind: LiteralKind, spelling: &[u8]) -> Result<Option<i128>, AllocError> {
    match literal_value(alloc, kind, spelling)? {
        Some(Constant::Whole(value)) => Ok(Some(value)),
        _ => Ok(None),
    }
}

// Whether a string literal spells these bytes, or nothing.
fn spells(alloc: Global, spelling: &[u8], wanted: Option<&[u8]>) -> Result<bool, AllocError> {
    match (literal_value(alloc, LiteralKind::String, spelling)?, wanted) {
        (Some(Constant::Text(bytes)), Some(wanted)) => Ok(bytes.as_slice() == wanted),
        (None, None) => Ok(true),
        _ => Ok(false),
    }
}

#[test]
fn integers(rt: HostRuntime) -> Result<(), Fail> {
    let cases: [(&[u8], i128); 19] = [
        (b"0", 0),
        (b"7", 7),
        (b"42", 42),
        (b"4_2", 42),
        (b"170_141183_460469_231731_687303_715884_105727", MOST),
        (b"00", 0),
        (b"0600", 384),
        (b"0_600", 384),
        (b"0o600", 384),
        (b"0O600", 384),
        (b"0o_17", 15),
        (b"0b1011", 11),
        (b"0B_1_0", 2),
        (b"0xBadFace", 195_951_310),
        (b"0xBad_Face", 195_951_310),
        (b"0x_67_7a_2f_cc_40_c6", 113_774_485_586_118),
        (b"0XfF", 255),
        (b"170141183460469231731687303715884105727", MOST),
        (b"0x7FFFFFFFFFFFFFFFFFFFFFFFFFFFFFFF", MOST),
    ];
    for (spelling, wanted) in cases {
        assert!(rt;
            number(rt.alloc(), LiteralKind::Integer, spelling)? == Some(wanted),
            "{wanted}"
        );
    }
    Ok(())
}

#[test]
fn no_integers(rt: HostRuntime) -> Result<(), Fail> {
    let cases: [&[u8]; 20] = [
        b"",
        b"_42",
        b"42_",
        b"4__2",
        b"0_",
        b"0_xBadFace",
        b"0x",
        b"0x_",
        b"0x__1",
        b"0xg",
        b"08",
        b"0o8",
        b"0b12",
        b"12a",
        b"-1",
        b" 1",
        b"1.0",
        b"'a'",
        b"170141183460469231731687303715884105728",
        b"0x80000000000000000000000000000000",
    ];
    for (case, spelling) in cases.iter().enumerate() {
        assert!(rt;
            literal_value(rt.alloc(), LiteralKind::Integer, spelling)?.is_none(),
            "{case}"
        );
    }
    Ok(())
}

#[test]
fn runes(rt: HostRuntime) -> Result<(), Fail> {
    let cases: [(&[u8], i128); 24] = [
        (b"'a'", 97),
        (b"'\"'", 34),
        (b"'\xC3\xA4'", 0xE4),
        (b"'\xE6\x9C\xAC'", 0x672C),
        (b"'\xF0\x9F\x98\x80'", 0x1_F600),
        (b"'\\a'", 7),
        (b"'\\b'", 8),
        (b"'\\t'", 9),
        (b"'\\n'", 10),
        (b"'\\v'", 11),
        (b"'\\f'", 12),
        (b"'\\r'", 13),
        (b"'\\\\'", 92),
        (b"'\\''", 39),
        (b"'\\000'", 0),
        (b"'\\007'", 7),
        (b"'\\377'", 255),
        (b"'\\x07'", 7),
        (b"'\\xff'", 255),
        (b"'\\u12e4'", 0x12E4),
        (b"'\\uD7FF'", 0xD7FF),
        (b"'\\uE000'", 0xE000),
        (b"'\\U00101234'", 0x10_1234),
        (b"'\\U0010FFFF'", 0x10_FFFF),
    ];
    for (spelling, wanted) in cases {
        assert!(rt;
            number(rt.alloc(), LiteralKind::Rune, spelling)? == Some(wanted),
            "{wanted}"
        );
    }
    Ok(())
}

#[test]
fn no_runes(rt: HostRuntime) -> Result<(), Fail> {
    let cases: [&[u8]; 24] = [
        b"",
        b"'",
        b"''",
        b"'''",
        b"'a",
        b"a'",
        b"'ab'",
        b"'\\n\\n'",
        b"'\\'",
        b"'\\k'",
        b"'\\\"'",
        b"'\\0'",
        b"'\\00'",
        b"'\\0000'",
        b"'\\400'",
        b"'\\xa'",
        b"'\\u12e'",
        b"'\\uD800'",
        b"'\\uDFFF'",
        b"'\\U00110000'",
        b"'\n'",
        b"'\xFF'",
        b"'\xE6\x9C'",
        b"\"a\"",
    ];
    for (case, spelling) in cases.iter().enumerate() {
        assert!(rt;
            literal_value(rt.alloc(), LiteralKind::Rune, spelling)?.is_none(),
            "{case}"
        );
    }
    Ok(())
}

#[test]
fn strings(rt: HostRuntime) -> Result<(), Fail> {
    let cases: [(&[u8], &[u8]); 17] = [
        (b"\"\"", b""),
        (b"\"Hello, world!\"", b"Hello, world!"),
        (
            b"\"\\a\\b\\f\\n\\r\\t\\v\\\\\\\"\"",
            b"\x07\x08\x0C\x0A\x0D\x09\x0B\\\"",
        ),
        (b"\"'\"", b"'"),
        (b"\"\\101\\x42\\u0043\"", b"ABC"),
        (b"\"\\xff\\u00FF\"", b"\xFF\xC3\xBF"),
        (b"\"\\377\"", b"\xFF"),
        (
            b"\"\\u65e5\xE6\x9C\xAC\\U00008a9e\"",
            b"\xE6\x97\xA5\xE6\x9C\xAC\xE8\xAA\x9E",
        ),
        (b"\"\\U0001F600\"", b"\xF0\x9F\x98\x80"),
        (b"\"\xF0\x9F\x98\x80\"", b"\xF0\x9F\x98\x80"),
        (b"\"\xFF\"", b"\xFF"),
        (b"\"a\rb\"", b"a\rb"),
        (b"``", b""),
        (b"`\\n`", b"\\n"),
        (b"`a\r\n\"b\"\r`", b"a\n\"b\""),
        (b"`\r`", b""),
        (b"`'`", b"'"),
    ];
    for (spelling, wanted) in cases {
        assert!(rt; spells(rt.alloc(), spelling, Some(wanted))?);
    }
    Ok(())
}

#[test]
fn no_strings(rt: HostRuntime) -> Result<(), Fail> {
    let cases: [&[u8]; 18] = [
        b"",
        b"\"",
        b"\"abc",
        b"abc\"",
        b"\"a\"b\"",
        b"\"a\nb\"",
        b"\"\\\"",
        b"\"\\'\"",
        b"\"\\k\"",
        b"\"\\8\"",
        b"\"\\u00f\"",
        b"\"\\uD800\"",
        b"\"\\U00110000\"",
        b"`",
        b"`abc",
        b"`a`b`",
        b"\"abc`",
        b"'a'",
    ];
    for (case, spelling) in cases.iter().enumerate() {
        assert!(rt; spells(rt.alloc(), spelling, None)?, "{case}");
    }
    Ok(())
}

#[test]
fn laws_do_nothing(_rt: HostRuntime) {
    one_value_a_spelling();
    each_part_has_a_value();
}
