//! Constants and the operators between two of them. Go specification, "Constant expressions".
#![tactic(auto)]

mod bits;
mod constant;
mod laws;
mod operator;
mod order;
mod shift;
mod texts;
mod wholes;

pub use constant::Constant;
pub use laws::{bits_of_each_place, defined_on_what_it_takes, one_number_has_the_bits};
pub use operator::{FoldFault, FoldOp, fold};

#[cfg(test)]
mod tests;
