use crate::number::value::integer_value;
use crate::number::{Number, number_at};

const MOST: u128 = 170_141_183_460_469_231_731_687_303_715_884_105_727;

// The number's length, and whether it is an integer.
fn read(text: &[u8]) -> Option<(usize, bool)> {
    let number: Number = number_at(text)?;
    Some((number.length, number.is_integer))
}

#[test]
fn integers_go_as_far_as_they_can(rt: HostRuntime) {
    let cases: [(&[u8], usize); 24] = [
        (b"0", 1),
        (b"42+1", 2),
        (b"4_2", 3),
        (b"42_", 2),
        (b"1__0", 1),
        (b"08", 2),
        (b"0_8x", 3),
        (b"0_xBadFace", 1),
        (b"0600", 4),
        (b"0_600", 5),
        (b"0o17", 4),
        (b"0O_17", 5),
        (b"0b102", 5),
        (b"0b_", 1),
        (b"0x", 1),
        (b"0x_", 1),
        (b"0xBadFace", 9),
        (b"0X_1F", 5),
        (b"0x_67_7a_2f", 11),
        (b"0x1.8", 3),
        (b"0x1e+5", 4),
        (b"0x1p", 3),
        (b"1e", 1),
        (b"1e+", 1),
    ];
    for (text, length) in cases {
        assert!(rt; read(text) == Some((length, true)));
    }
}

#[test]
fn other_numbers_go_as_far_as_they_can(rt: HostRuntime) {
    let cases: [(&[u8], usize); 30] = [
        (b"1.", 2),
        (b"1..2", 2),
        (b".5", 2),
        (b"1e+5", 4),
        (b"1E6", 3),
        (b"08.5", 4),
        (b"072.40", 6),
        (b"1.e+0", 5),
        (b"6.67428e-11", 11),
        (b".12345E+5x", 9),
        (b"1_5.", 4),
        (b"0.15e+02", 8),
        (b"1._5", 2),
        (b"1.5_e1", 3),
        (b"1.5e_1", 3),
        (b"1.5e1_", 5),
        (b"0x1p-2", 6),
        (b"0x2.p10", 7),
        (b"0x1.8p1", 7),
        (b"0x.8p1", 6),
        (b"0X_1FFFP-16", 11),
        (b"0i", 2),
        (b"1i", 2),
        (b"1ii", 2),
        (b"08i", 3),
        (b"0x1i", 4),
        (b"0b101i", 6),
        (b"1.5i", 4),
        (b"1.e+0i", 6),
        (b"0x1p-2i", 7),
    ];
    for (text, length) in cases {
        assert!(rt; read(text) == Some((length, false)));
    }
}

#[test]
fn what_begins_otherwise_is_no_number(rt: HostRuntime) {
    let cases: [&[u8]; 9] = [b"", b".", b"...", b"._5", b"_42", b"-1", b"x1", b"e5", b"i"];
    for text in cases {
        assert!(rt; read(text).is_none());
    }
}

#[test]
fn an_integer_stands_for_its_number(rt: HostRuntime) {
    let cases: [(&[u8], u128); 16] = [
        (b"0", 0),
        (b"00", 0),
        (b"42", 42),
        (b"4_2", 42),
        (b"0600", 384),
        (b"0_600", 384),
        (b"0_7", 7),
        (b"0o17", 15),
        (b"0O_17", 15),
        (b"0b1_01", 5),
        (b"0B11", 3),
        (b"0xBadFace", 195_951_310),
        (b"0X_1F", 31),
        (b"0x_67_7A_2F_CC_40_C6", 113_774_485_586_118),
        (b"170141183460469231731687303715884105727", MOST),
        (b"0x7fffffffffffffffffffffffffffffff", MOST),
    ];
    for (word, value) in cases {
        assert!(rt; integer_value(word) == Some(value));
    }
}

#[test]
fn some_integers_stand_for_none(rt: HostRuntime) {
    let cases: [&[u8]; 8] = [
        b"170141183460469231731687303715884105728",
        b"0x80000000000000000000000000000000",
        b"340282366920938463463374607431768211456",
        b"0b102",
        b"0778",
        b"08",
        b"0o8",
        b"0_9",
    ];
    for word in cases {
        assert!(rt; integer_value(word).is_none());
    }
}
