//! What an operand is where one value is wanted, and what a value becomes in its place, or where its place names no type.
#![tactic(auto)]

mod operands;
mod places;
mod settling;

pub use operands::as_value;
pub use places::{given, pending_given};
pub use settling::settled;

#[cfg(test)]
mod tests;
