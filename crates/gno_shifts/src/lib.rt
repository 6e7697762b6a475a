//! Shifts of values. Go specification, "Operators" and "Integer operators".
#![tactic(auto)]

mod shifts;

pub use shifts::shift;

#[cfg(test)]
mod tests;
