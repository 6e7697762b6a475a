//! Names that stand in one scope, each once.
#![tactic(auto)]

mod scopes;

pub use scopes::{Distinct, Scoped};

#[cfg(test)]
mod tests;
