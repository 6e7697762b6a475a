// The operators between two whole numbers. Go specification, "Arithmetic operators", "Integer operators".
ghost use Rattle.std.specs.Prelude.{◌+ℤ◌, ◌-ℤ◌, ◌*ℤ◌};
ghost use Rattle.gno_constants.specs.Exact.{exact_wholes, quotient, remainder, whole};
ghost use Rattle.gno_constants.specs.Gives.{Gives};
ghost use Rattle.gno_constants.specs.Kinds.{TakesWholes};

use crate::bits::{bits_of_both, bits_of_either, bits_of_left_only, bits_of_one};
use crate::order::holds;
use crate::shift::{shift_left, shift_right};
use crate::{Constant, FoldFault, FoldOp};

/// The constant that the operator gives.
pub fn fold_wholes(op: FoldOp, x: i128, y: i128) -> Result<Constant, FoldFault>
    requires { TakesWholes op }
    ensures { Gives result (exact_wholes op x y) }
{
    match op {
        FoldOp::Add => sum(x, y),
        FoldOp::Sub => difference(x, y),
        FoldOp::Mul => product(x, y),
        FoldOp::Quo => quotient(x, y),
        FoldOp::Rem => remainder(x, y),
        FoldOp::And => Ok(Constant::Whole(bits_of_both(x, y))),
        FoldOp::Or => Ok(Constant::Whole(bits_of_either(x, y))),
        FoldOp::Xor => Ok(Constant::Whole(bits_of_one(x, y))),
        FoldOp::AndNot => Ok(Constant::Whole(bits_of_left_only(x, y))),
        FoldOp::Shl => shift_left(x, y),
        FoldOp::Shr => shift_right(x, y),
        FoldOp::BothTrue | FoldOp::OneTrue => unreachable!(),
        _ => Ok(Constant::Bool(holds(op, x.cmp(&y)))),
    }
}

fn sum(x: i128, y: i128) -> Result<Constant, FoldFault>
    ensures { Gives result (whole (x +ℤ y)) }
{
    match x.checked_add(y) {
        Some(sum) => Ok(Constant::Whole(sum)),
        None => Err(FoldFault::TooWide),
    }
}

fn difference(x: i128, y: i128) -> Result<Constant, FoldFault>
    ensures { Gives result (whole (x -ℤ y)) }
{
    match x.checked_sub(y) {
        Some(difference) => Ok(Constant::Whole(difference)),
        None => Err(FoldFault::TooWide),
    }
}

fn product(x: i128, y: i128) -> Result<Constant, FoldFault>
    ensures { Gives result (whole (x *ℤ y)) }
{
    match x.checked_mul(y) {
        Some(product) => Ok(Constant::Whole(product)),
        None => Err(FoldFault::TooWide),
    }
}

fn quotient(x: i128, y: i128) -> Result<Constant, FoldFault>
    ensures { Gives result (quotient x y) }
{
    if y == 0 {
        return Err(FoldFault::DivideByZero);
    }
    match x.checked_div(y) {
        Some(quotient) => Ok(Constant::Whole(quotient)),
        None => Err(FoldFault::TooWide),
    }
}

// The remainder of the least number by -1 is 0, though their quotient is too wide.
fn remainder(x: i128, y: i128) -> Result<Constant, FoldFault>
    ensures { Gives result (remainder x y) }
{
    if y == 0 {
        return Err(FoldFault::DivideByZero);
    }
    Ok(Constant::Whole(x.wrapping_rem(y)))
}
