// Untyped values that are no constants.
use crate::FormOf;
use gno_base::{Boxed, List};
use gno_constants::Constant;
use gno_scan::Pos;
use gno_tree::{BinaryOperator, UnaryOperator};
use gno_typed::TypedExprOf;

/// A value that waits for its type: a comparison, a shift of an untyped constant by a count that is no constant, or operators on these;
/// or a constant beside one that waits.
#[cycle(pending)]
#[derive(Drop)]
pub enum PendingOf<T> {
    /// A comparison, which waits for a boolean type. `operands` is the type of both its operands, `boxed` that of the left one where
    /// it is taken as one of the interface type `operands`.
    Comparison {
        pos: Pos,
        operator: BinaryOperator,
        operands: T,
        boxed: Option<T>,
        left: FormOf<T>,
        right: TypedExprOf<T>,
    },
    /// An untyped constant, and whether it is a rune constant.
    Constant {
        pos: Pos,
        value: Constant,
        rune: bool,
    },
    /// An operator before its operand.
    Unary {
        pos: Pos,
        operator: UnaryOperator,
        operand: Boxed<PendingOf<T>>,
    },
    /// Operands with operators between them, one at least. They group to the left.
    Chain {
        first: Boxed<PendingOf<T>>,
        rest: List<PendingOperationOf<T>>,
    },
}

/// An operator, its place, and what stands on its right.
#[cycle(pending)]
#[derive(Drop)]
pub enum PendingOperationOf<T> {
    /// An operand of the same type.
    Operand {
        pos: Pos,
        operator: BinaryOperator,
        operand: PendingOf<T>,
    },
    /// The count of a shift.
    Count {
        pos: Pos,
        operator: BinaryOperator,
        count: TypedExprOf<T>,
    },
}
