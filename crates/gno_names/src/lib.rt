//! What a name means where an expression stands.
#![tactic(auto)]

mod copies;
mod meaning;
mod names;
mod predeclared;
mod types;

pub use meaning::meaning_of;
pub use names::{exported, is_blank, named};
pub use types::{qualified_type, type_named};

#[cfg(test)]
mod tests;
