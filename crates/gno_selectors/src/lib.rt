//! Which field or method of a type a selector names.
#![tactic(auto)]

mod members;
mod nearest;
mod select;
mod selection;
mod standing;
mod way;

pub use select::find_selected;
pub use selection::{Passed, Selection};
