// What operators give between constants.
ghost use Rattle.std.specs.Prelude.{◌≡◌, ◌↔◌, IfOk, IsTrue};
ghost use Rattle.gno_constants.specs.Exact.{Exact, IsTooWide, exact};
ghost use Rattle.gno_constants.specs.Exact.Exact.{NoQuotient, NoShift};
ghost use Rattle.gno_constants.specs.Kinds.{Takes, TakesBools, TakesTexts, TakesWholes};
ghost use Rattle.gno_operations.specs.Folding.{WorksOut};

use gno_constants::{Constant, FoldFault, FoldOp, defined_on_what_it_takes, fold};
use std::alloc::{AllocError, Global};

/// What an operator gives between two constants, exactly. Go specification, "Constant expressions".
#[derive(Drop)]
pub enum Folded {
    Value(Constant),
    /// The whole number is not one of 128 bits.
    TooWide,
    /// The divisor is 0.
    NoQuotient,
    /// The count of the shift is negative.
    NoShift,
    /// The operator is not defined on constants of these kinds.
    NotDefined,
}

/// What the operator gives between two constants, worked out exactly. An `Err` comes where there is no memory. Go specification,
/// "Constant expressions".
pub fn fold_exactly(
    alloc: Global,
    op: FoldOp,
    left: &Constant,
    right: &Constant,
) -> Result<Folded, AllocError>
    ensures { IfOk result (λ it. WorksOut it (exact op left.now right.now)) }
{
    defined_on_what_it_takes();
    if takes(op, left, right) {
        match fold(alloc, op, left, right) {
            Ok(value) => Ok(Folded::Value(value)),
            Err(fault) => without(fault),
        }
    } else {
        Ok(Folded::NotDefined)
    }
}

// No constant.
fn without(fault: FoldFault) -> Result<Folded, AllocError>
    ensures { (e : Exact) → (fault ≡ FoldFault.TooWide → IsTooWide e) → (fault ≡ FoldFault.DivideByZero → e ≡ NoQuotient) → (fault ≡ FoldFault.BadShift → e ≡ NoShift) → IfOk result (λ it. WorksOut it e) }
{
    match fault {
        FoldFault::TooWide => Ok(Folded::TooWide),
        FoldFault::DivideByZero => Ok(Folded::NoQuotient),
        FoldFault::BadShift => Ok(Folded::NoShift),
        FoldFault::NoMemory => Err(AllocError),
    }
}

// Whether the operator is defined on constants of these kinds.
fn takes(op: FoldOp, left: &Constant, right: &Constant) -> bool
    ensures { IsTrue result ↔ Takes op left.now right.now }
{
    match (left, right) {
        (Constant::Whole(_), Constant::Whole(_)) => takes_wholes(op),
        (Constant::Text(_), Constant::Text(_)) => takes_texts(op),
        (Constant::Bool(_), Constant::Bool(_)) => takes_bools(op),
        _ => false,
    }
}

fn takes_wholes(op: FoldOp) -> bool
    ensures { IsTrue result ↔ TakesWholes op }
{
    !matches!(op, FoldOp::BothTrue | FoldOp::OneTrue)
}

fn takes_texts(op: FoldOp) -> bool
    ensures { IsTrue result ↔ TakesTexts op }
{
    matches!(
        op,
        FoldOp::Add
            | FoldOp::Equal
            | FoldOp::NotEqual
            | FoldOp::Less
            | FoldOp::LessEqual
            | FoldOp::Greater
            | FoldOp::GreaterEqual
    )
}

fn takes_bools(op: FoldOp) -> bool
    ensures { IsTrue result ↔ TakesBools op }
{
    matches!(
        op,
        FoldOp::Equal | FoldOp::NotEqual | FoldOp::BothTrue | FoldOp::OneTrue
    )
}
