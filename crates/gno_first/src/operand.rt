// Operands.
ghost use Rattle.std.specs.Prelude.{◌≡◌};
ghost use Rattle.gno_first.specs.Form as form;

use crate::tree::{FirstExpr, FirstOp};

/// What stands on a side of an operator, or alone.
#[derive(Clone, Copy)]
pub enum Operand {
    /// The value of a variable.
    Name(usize),
    Number(u64),
}

impl Operand {
    /// The expression that the operand is alone.
    pub fn alone(self) -> FirstExpr
        ensures { result ≡ form.alone self }
    {
        match self {
            Operand::Name(variable) => FirstExpr::Name(variable),
            Operand::Number(number) => FirstExpr::Number(number),
        }
    }

    /// The expression with the operator between the two, or None where both are numbers.
    pub fn joined(self, op: FirstOp, right: Operand) -> Option<FirstExpr>
        ensures { result ≡ form.joined self op right }
    {
        match (self, right) {
            (Operand::Name(a), Operand::Name(b)) => Some(FirstExpr::NameName(a, op, b)),
            (Operand::Name(a), Operand::Number(b)) => Some(FirstExpr::NameNumber(a, op, b)),
            (Operand::Number(a), Operand::Name(b)) => Some(FirstExpr::NumberName(a, op, b)),
            (Operand::Number(_), Operand::Number(_)) => None,
        }
    }
}
