// The operators between two constants.
ghost use Rattle.std.specs.Prelude.{◌≡◌, IfOk, IsErrOf};
ghost use Rattle.gno_constants.specs.Exact.{IsTooWide, exact};
ghost use Rattle.gno_constants.specs.Exact.Exact.{NoQuotient, NoShift, Value};
ghost use Rattle.gno_constants.specs.Kinds.{AreTexts, Takes};

use crate::Constant;
use crate::order::fold_bools;
use crate::texts::fold_texts;
use crate::wholes::fold_wholes;
use std::alloc::Global;

/// An operator between two constants.
#[derive(Clone, Copy, Debug, PartialEq, Eq)]
pub enum FoldOp {
    /// `+`
    Add,
    /// `-`
    Sub,
    /// `*`
    Mul,
    /// `/`
    Quo,
    /// `%`
    Rem,
    /// `&`
    And,
    /// `|`
    Or,
    /// `^`
    Xor,
    /// `&^`
    AndNot,
    /// `<<`
    Shl,
    /// `>>`
    Shr,
    /// `==`
    Equal,
    /// `!=`
    NotEqual,
    /// `<`
    Less,
    /// `<=`
    LessEqual,
    /// `>`
    Greater,
    /// `>=`
    GreaterEqual,
    /// `&&`
    BothTrue,
    /// `||`
    OneTrue,
}

/// Why there is no constant.
#[derive(Clone, Copy, Debug, PartialEq, Eq)]
pub enum FoldFault {
    /// The exact number is below -2^127 or above 2^127-1.
    TooWide,
    /// The divisor of `/` or `%` is 0.
    DivideByZero,
    /// The count of `<<` or `>>` is negative.
    BadShift,
    /// There is no memory for a text.
    NoMemory,
}

/// The constant that the operator gives, worked out exactly. `TooWide` comes exactly where the number is not one of 128
/// bits, `DivideByZero` exactly at a divisor of 0 and `BadShift` exactly at a negative count; `NoMemory` only where texts are
/// joined. Go specification, "Constant expressions".
pub fn fold(
    alloc: Global,
    op: FoldOp,
    left: &Constant,
    right: &Constant,
) -> Result<Constant, FoldFault>
    requires { Takes op left.now right.now }
    ensures value { IfOk result (λ constant. exact op left.now right.now ≡ Value constant) }
    ensures too_wide { IsErrOf result FoldFault.TooWide → IsTooWide (exact op left.now right.now) }
    ensures by_zero { IsErrOf result FoldFault.DivideByZero → exact op left.now right.now ≡ NoQuotient }
    ensures bad_shift { IsErrOf result FoldFault.BadShift → exact op left.now right.now ≡ NoShift }
    ensures no_memory { IsErrOf result FoldFault.NoMemory → (op ≡ FoldOp.Add) × AreTexts left.now right.now }
{
    match (left, right) {
        (Constant::Whole(x), Constant::Whole(y)) => fold_wholes(op, *x, *y),
        (Constant::Text(s), Constant::Text(t)) => fold_texts(alloc, op, s, t),
        (Constant::Bool(a), Constant::Bool(b)) => Ok(Constant::Bool(fold_bools(op, *a, *b))),
        _ => unreachable!(),
    }
}
