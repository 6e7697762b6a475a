ghost use Rattle.gno_constants.specs.Kinds.{Takes, TakesWholes};

use crate::{Constant, FoldFault, FoldOp, fold};
use gno_base::Bytes;
use std::alloc::Global;
use std::test::Fail;

const MOST: i128 = 170_141_183_460_469_231_731_687_303_715_884_105_727;

const LEAST: i128 = -170_141_183_460_469_231_731_687_303_715_884_105_728;

/// 2^126
const QUARTER: i128 = 85_070_591_730_234_615_865_843_651_857_942_052_864;

/// 2^64
const WORD: i128 = 18_446_744_073_709_551_616;

const WIDE: Result<i128, FoldFault> = Err(FoldFault::TooWide);

const BY_ZERO: Result<i128, FoldFault> = Err(FoldFault::DivideByZero);

const BAD_SHIFT: Result<i128, FoldFault> = Err(FoldFault::BadShift);

// Whether the operator gives that number, or that fault.
fn gives(alloc: Global, op: FoldOp, x: i128, y: i128, wanted: Result<i128, FoldFault>) -> bool
    requires { TakesWholes op }
{
    match (
        fold(alloc, op, &Constant::Whole(x), &Constant::Whole(y)),
        wanted,
    ) {
        (Ok(Constant::Whole(number)), Ok(wanted)) => number == wanted,
        (Err(fault), Err(wanted)) => fault == wanted,
        _ => false,
    }
}

#[test]
fn sums(rt: HostRuntime) {
    let cases = [
        (2, 3, Ok(5)),
        (MOST, 0, Ok(MOST)),
        (MOST, 1, WIDE),
        (MOST, LEAST, Ok(-1)),
        (LEAST, 0, Ok(LEAST)),
        (LEAST, -1, WIDE),
    ];
    for (x, y, wanted) in cases {
        assert!(rt; gives(rt.alloc(), FoldOp::Add, x, y, wanted), "{x} + {y}");
    }
}

#[test]
fn differences(rt: HostRuntime) {
    let cases = [
        (2, 3, Ok(-1)),
        (LEAST, 0, Ok(LEAST)),
        (LEAST, 1, WIDE),
        (MOST, -1, WIDE),
        (0, LEAST, WIDE),
        (-1, LEAST, Ok(MOST)),
    ];
    for (x, y, wanted) in cases {
        assert!(rt; gives(rt.alloc(), FoldOp::Sub, x, y, wanted), "{x} - {y}");
    }
}

#[test]
fn products(rt: HostRuntime) {
    let cases = [
        (-6, 7, Ok(-42)),
        (WORD, WORD / 4, Ok(QUARTER)),
        (WORD, WORD / 2, WIDE),
        (WORD, -(WORD / 2), Ok(LEAST)),
        (LEAST, 0, Ok(0)),
        (LEAST, 1, Ok(LEAST)),
        (LEAST, -1, WIDE),
        (MOST, -1, Ok(-MOST)),
        (MOST, MOST, WIDE),
    ];
    for (x, y, wanted) in cases {
        assert!(rt; gives(rt.alloc(), FoldOp::Mul, x, y, wanted), "{x} * {y}");
    }
}

#[test]
fn quotients_and_remainders(rt: HostRuntime) {
    let cases = [
        (7, 2, Ok(3), Ok(1)),
        (-7, 2, Ok(-3), Ok(-1)),
        (7, -2, Ok(-3), Ok(1)),
        (-7, -2, Ok(3), Ok(-1)),
        (0, 5, Ok(0), Ok(0)),
        (LEAST, 1, Ok(LEAST), Ok(0)),
        (LEAST, -1, WIDE, Ok(0)),
        (MOST, -1, Ok(-MOST), Ok(0)),
        (LEAST, MOST, Ok(-1), Ok(-1)),
        (MOST, LEAST, Ok(0), Ok(MOST)),
        (1, 0, BY_ZERO, BY_ZERO),
        (0, 0, BY_ZERO, BY_ZERO),
        (LEAST, 0, BY_ZERO, BY_ZERO),
    ];
    for (x, y, quotient, remainder) in cases {
        assert!(rt; gives(rt.alloc(), FoldOp::Quo, x, y, quotient), "{x} / {y}");
        assert!(rt;
            gives(rt.alloc(), FoldOp::Rem, x, y, remainder),
            "{x} % {y}"
        );
    }
}

#[test]
fn bits(rt: HostRuntime) {
    let cases = [
        (12, 10, 8, 14, 6, 4),
        (-8, 13, 8, -3, -11, -16),
        (13, -8, 8, -3, -11, 5),
        (-6, -4, -8, -2, 6, 2),
        (-1, MOST, MOST, -1, LEAST, LEAST),
        (MOST, -1, MOST, -1, LEAST, 0),
        (LEAST, MOST, 0, -1, -1, LEAST),
        (LEAST, LEAST, LEAST, LEAST, 0, 0),
        (LEAST, 0, 0, LEAST, LEAST, LEAST),
    ];
    for (x, y, and, or, xor, and_not) in cases {
        assert!(rt; gives(rt.alloc(), FoldOp::And, x, y, Ok(and)), "{x} & {y}");
        assert!(rt; gives(rt.alloc(), FoldOp::Or, x, y, Ok(or)), "{x} | {y}");
        assert!(rt; gives(rt.alloc(), FoldOp::Xor, x, y, Ok(xor)), "{x} ^ {y}");
        assert!(rt;
            gives(rt.alloc(), FoldOp::AndNot, x, y, Ok(and_not)),
            "{x} &^ {y}"
        );
    }
}

#[test]
fn left_shifts(rt: HostRuntime) {
    let cases = [
        (5, 3, Ok(40)),
        (1, 0, Ok(1)),
        (1, 126, Ok(QUARTER)),
        (1, 127, WIDE),
        (1, 128, WIDE),
        (1, 4_294_967_296, WIDE),
        (1, WORD, WIDE),
        (-1, 127, Ok(LEAST)),
        (-1, 128, WIDE),
        (-2, 126, Ok(LEAST)),
        (-3, 126, WIDE),
        (3, 126, WIDE),
        (MOST, 1, WIDE),
        (LEAST, 0, Ok(LEAST)),
        (LEAST, 1, WIDE),
        (0, 127, Ok(0)),
        (0, 128, Ok(0)),
        (0, WORD, Ok(0)),
        (0, MOST, Ok(0)),
        (1, -1, BAD_SHIFT),
        (0, -1, BAD_SHIFT),
        (1, LEAST, BAD_SHIFT),
    ];
    for (x, y, wanted) in cases {
        assert!(rt; gives(rt.alloc(), FoldOp::Shl, x, y, wanted), "{x} << {y}");
    }
}

#[test]
fn right_shifts(rt: HostRuntime) {
    let cases = [
        (20, 3, Ok(2)),
        (-20, 3, Ok(-3)),
        (-1, 1, Ok(-1)),
        (MOST, 126, Ok(1)),
        (MOST, 127, Ok(0)),
        (MOST, 128, Ok(0)),
        (MOST, WORD, Ok(0)),
        (7, 4_294_967_296, Ok(0)),
        (LEAST, 0, Ok(LEAST)),
        (LEAST, 126, Ok(-2)),
        (LEAST, 127, Ok(-1)),
        (LEAST, 128, Ok(-1)),
        (LEAST, WORD, Ok(-1)),
        (-7, MOST, Ok(-1)),
        (1, -1, BAD_SHIFT),
        (0, LEAST, BAD_SHIFT),
    ];
    for (x, y, wanted) in cases {
        assert!(rt; gives(rt.alloc(), FoldOp::Shr, x, y, wanted), "{x} >> {y}");
    }
}

fn truth(constant: Result<Constant, FoldFault>) -> Option<bool> {
    match constant {
        Ok(Constant::Bool(truth)) => Some(truth),
        _ => None,
    }
}

// `==`, `!=`, `<`, `<=`, `>`, `>=`
type Comparisons = (bool, bool, bool, bool, bool, bool);

const LESS: Comparisons = (false, true, true, true, false, false);

const EQUAL: Comparisons = (true, false, false, true, false, true);

const GREATER: Comparisons = (false, true, false, false, true, true);

fn compared(alloc: Global, x: &Constant, y: &Constant) -> Option<Comparisons>
    requires equal { Takes FoldOp.Equal x.now y.now }
    requires not_equal { Takes FoldOp.NotEqual x.now y.now }
    requires less { Takes FoldOp.Less x.now y.now }
    requires less_equal { Takes FoldOp.LessEqual x.now y.now }
    requires greater { Takes FoldOp.Greater x.now y.now }
    requires greater_equal { Takes FoldOp.GreaterEqual x.now y.now }
{
    Some((
        truth(fold(alloc, FoldOp::Equal, x, y))?,
        truth(fold(alloc, FoldOp::NotEqual, x, y))?,
        truth(fold(alloc, FoldOp::Less, x, y))?,
        truth(fold(alloc, FoldOp::LessEqual, x, y))?,
        truth(fold(alloc, FoldOp::Greater, x, y))?,
        truth(fold(alloc, FoldOp::GreaterEqual, x, y))?,
    ))
}

#[test]
fn whole_numbers_compare(rt: HostRuntime) {
    let cases = [
        (0, 0, EQUAL),
        (-1, 0, LESS),
        (LEAST, MOST, LESS),
        (MOST, LEAST, GREATER),
        (LEAST, LEAST, EQUAL),
        (WORD, 0, GREATER),
    ];
    for (x, y, wanted) in cases {
        let comparisons = compared(rt.alloc(), &Constant::Whole(x), &Constant::Whole(y));
        assert!(rt; comparisons == Some(wanted), "{x} and {y}");
    }
}

#[test]
fn texts_compare_and_join(rt: HostRuntime) -> Result<(), Fail> {
    let cases: [(&[u8], &[u8], Comparisons, &[u8]); 9] = [
        (b"", b"", EQUAL, b""),
        (b"", b"a", LESS, b"a"),
        (b"a", b"", GREATER, b"a"),
        (b"go", b"go", EQUAL, b"gogo"),
        (b"go", b"gno", GREATER, b"gogno"),
        (b"go", b"gone", LESS, b"gogone"),
        (b"b", b"aa", GREATER, b"baa"),
        (b"Z", b"a", LESS, b"Za"),
        (b"\x00\xff", b"\x7f", LESS, b"\x00\xff\x7f"),
    ];
    for (left, right, wanted, joined) in cases {
        let left = Constant::Text(Bytes::from_slice(rt.alloc(), left)?);
        let right = Constant::Text(Bytes::from_slice(rt.alloc(), right)?);
        let joined = Constant::Text(Bytes::from_slice(rt.alloc(), joined)?);
        assert!(rt; compared(rt.alloc(), &left, &right) == Some(wanted));
        assert!(rt; fold(rt.alloc(), FoldOp::Add, &left, &right)? == joined);
    }
    Ok(())
}

#[test]
fn booleans(rt: HostRuntime) {
    let cases = [
        (false, false, true, false, false),
        (false, true, false, false, true),
        (true, false, false, false, true),
        (true, true, true, true, true),
    ];
    for (left, right, equal, both, one) in cases {
        let left = &Constant::Bool(left);
        let right = &Constant::Bool(right);
        assert!(rt; truth(fold(rt.alloc(), FoldOp::Equal, left, right)) == Some(equal));
        assert!(rt; truth(fold(rt.alloc(), FoldOp::NotEqual, left, right)) == Some(!equal));
        assert!(rt; truth(fold(rt.alloc(), FoldOp::BothTrue, left, right)) == Some(both));
        assert!(rt; truth(fold(rt.alloc(), FoldOp::OneTrue, left, right)) == Some(one));
    }
}
