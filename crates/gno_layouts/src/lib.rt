//! How many slots the values of types have, and whether they compare, for types that lead to one another in any order.
#![tactic(auto)]

mod holders;
mod layouts;
mod restart;
mod row;
mod settling;

pub use layouts::Layouts;
pub use row::{Layout, Row};

#[cfg(test)]
mod tests;
