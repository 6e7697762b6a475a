//! The rows of the table of types.
#![tactic(auto)]

mod key;
mod laid;
mod rows;

pub use key::Key;
pub use rows::Rows;
