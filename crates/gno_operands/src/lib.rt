//! The readers of operands and of the steps behind them.
#![tactic(auto)]

mod operand;
mod steps;

pub use operand::operand_alone;
pub use steps::suffix;
