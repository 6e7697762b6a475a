//! The methods that embedded fields promote.
#![tactic(auto)]

mod candidate;
mod found;
mod gather;
mod methods;
mod pick;

pub use found::{Promoted, PromotedOf, Search};
pub use methods::find_methods;
