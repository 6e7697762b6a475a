// Typed forms that more may be put behind.
use gno_base::List;
use gno_typed::{LogicOperationOf, OperationOf, TypedExprOf, TypedStepOf};

/// The form of a value. What may go on stays open, so that a long chain is one list.
#[derive(Drop)]
pub enum FormOf<T> {
    Whole(TypedExprOf<T>),
    /// An operand and the steps behind it, one at least.
    Primary {
        operand: TypedExprOf<T>,
        steps: List<TypedStepOf<T>>,
    },
    /// Operands with operators between them that take both their operands, one at least.
    Binary {
        first: TypedExprOf<T>,
        rest: List<OperationOf<T>>,
    },
    /// Operands with `&&` and `||` between them, one at least.
    Logic {
        of: T,
        first: TypedExprOf<T>,
        rest: List<LogicOperationOf<T>>,
    },
}
