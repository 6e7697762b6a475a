//! Fields and methods that selectors name.
#![tactic(auto)]

mod members;
mod methods;
mod operand;
mod searching;
mod select;
mod ways;

pub use select::selector;

#[cfg(test)]
mod tests;
