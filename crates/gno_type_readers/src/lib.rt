//! The readers of types.
#![tactic(auto)]

mod built;
mod field;
mod left_out;
mod member;
mod operand;
mod type_expr;

pub use operand::type_operand;
pub use type_expr::{declared_type, other_type, result_type, type_read};
