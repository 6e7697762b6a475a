//! What is seen of values and operands without their types.
#![tactic(auto)]

mod values;

pub use values::{as_operand, calls_in, calls_with, constant_in, either, pos_in};

#[cfg(test)]
mod tests;
