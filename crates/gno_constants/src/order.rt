// The comparison operators and the logical ones. Go specification, "Comparison operators", "Logical operators".
ghost use Rattle.std.specs.Prelude.{◌≡◌};
ghost use Rattle.gno_constants.specs.Exact.{exact_bools, holds, truth};
ghost use Rattle.gno_constants.specs.Kinds.{IsComparison, TakesBools};

use crate::FoldOp;
use std::cmp::Ordering;

/// Whether the comparison holds of two constants in that order.
pub fn holds(op: FoldOp, ordering: Ordering) -> bool
    requires { IsComparison op }
    ensures { result ≡ holds op ordering }
{
    match op {
        FoldOp::Equal => ordering.is_eq(),
        FoldOp::NotEqual => ordering.is_ne(),
        FoldOp::Less => ordering.is_lt(),
        FoldOp::LessEqual => ordering.is_le(),
        FoldOp::Greater => ordering.is_gt(),
        FoldOp::GreaterEqual => ordering.is_ge(),
        _ => unreachable!(),
    }
}

/// The boolean that the operator gives.
pub fn fold_bools(op: FoldOp, left: bool, right: bool) -> bool
    requires { TakesBools op }
    ensures { exact_bools op left right ≡ truth result }
{
    match op {
        FoldOp::Equal => left == right,
        FoldOp::NotEqual => left != right,
        FoldOp::BothTrue => left && right,
        FoldOp::OneTrue => left || right,
        _ => unreachable!(),
    }
}
