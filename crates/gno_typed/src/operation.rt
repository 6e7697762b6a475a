// Operators and the operands on their right.
use crate::TypedExprOf;
use gno_base::Shared;
use gno_scan::Pos;
use gno_tree::BinaryOperator;

/// An operator that takes both its operands, and the operand on its right.
#[cycle(typed)]
#[derive(Drop)]
pub struct OperationOf<T> {
    pub pos: Pos,
    /// The type of what it gives.
    pub of: T,
    pub operator: BinaryOperator,
    /// The type of both operands, but for the count of a shift.
    pub operands: T,
    /// The type of the operand on the left, where it is taken as one of the interface type `operands`.
    pub boxed: Option<T>,
    pub operand: Shared<TypedExprOf<T>>,
}

/// `&&` or `||`, and the operand on its right.
#[cycle(typed)]
#[derive(Drop)]
pub struct LogicOperationOf<T> {
    pub pos: Pos,
    pub operator: LogicOperator,
    pub operand: Shared<TypedExprOf<T>>,
}

/// An operator that takes the operand on its right only where that on its left leaves the result open.
#[derive(Clone, Copy, Debug, PartialEq, Eq)]
pub enum LogicOperator {
    /// `&&`
    BothTrue,
    /// `||`
    OneTrue,
}
