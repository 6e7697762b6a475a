//! The readers of `for`.
#![tactic(auto)]

mod begins;
mod header_value;
mod loops;

pub use loops::for_statement;
