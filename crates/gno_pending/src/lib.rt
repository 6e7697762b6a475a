//! Untyped values that are no constants, in the type of their place, or where their place names none.
#![tactic(auto)]

mod defaults;
mod forms;
mod given;
mod in_types;

pub use defaults::{Defaults, both_defaulted, defaulted};
pub use given::given_type;

#[cfg(test)]
mod tests;
