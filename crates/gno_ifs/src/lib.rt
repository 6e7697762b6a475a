//! The readers of `if`.
#![tactic(auto)]

mod arms;
mod ifs;

pub use ifs::if_statement;
