//! Operators before their operand: what they give, or why they give nothing.
#![tactic(auto)]

mod one_operand;

pub use one_operand::unary;

#[cfg(test)]
mod tests;
