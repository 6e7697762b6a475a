//! What operators do: to constants, to the forms of their operands, and to which types and classes of untyped values they apply.
#![tactic(auto)]

mod classes;
mod constants;
mod folding;
mod growing;
mod sorts;
mod values;

pub use classes::{Untyped, is_defined_for, is_rune, is_same, untyped_in};
pub use constants::worked_out;
pub use folding::{Folded, fold_exactly};
pub use growing::{comparison, joined_by, result_of, with_operand, with_pending};
pub use sorts::{divides, fold_of, is_comparing, is_defined_on, is_equality, is_shifting};
pub use values::{divides_by_zero, needs_of};

#[cfg(test)]
mod tests;
