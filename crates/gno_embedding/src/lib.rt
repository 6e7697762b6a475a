//! The types that embedded fields lead to.
#![tactic(auto)]

mod fields;
mod nodes;
mod walk;
mod ways;

pub use walk::follow_embedded;
pub use ways::{Reach, Reached};
