//! The readers of expressions: operands with operators before them and between them.
#![tactic(auto)]

mod operations;
mod operators;
mod primary;

pub use operations::expr;
pub use primary::unary;
