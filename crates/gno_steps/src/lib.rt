//! What stands before or behind an operand: `*`, `&`, a type assertion and a conversion.
#![tactic(auto)]

mod assertions;
mod characters;
mod conversions;
mod pointers;

pub use assertions::assertion;
pub use conversions::conversion;
pub use pointers::{address, dereference};

#[cfg(test)]
mod tests;
