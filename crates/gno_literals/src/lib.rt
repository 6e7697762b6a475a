//! The constants that literals spell. Go specification, "Integer literals", "Rune literals", "String literals".
#![tactic(auto)]

mod escape;
mod integer;
mod laws;
mod literal;
mod quotes;
mod rune;
mod text;

pub use laws::{each_part_has_a_value, one_value_a_spelling};
pub use literal::literal_value;

#[cfg(test)]
mod tests;
