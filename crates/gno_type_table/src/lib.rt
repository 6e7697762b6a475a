//! The table of types.
#![tactic(auto)]

mod forgetting;
mod keeping;
mod predeclared;
mod searching;
mod table;

pub use table::TypeTable;

#[cfg(test)]
mod tests;
