//! Assignability.
#![tactic(auto)]

mod assign;
mod constants;
mod forms;
mod untyped;
mod values;

pub use assign::assignable;
pub use constants::is_value;
