//! The readers of lists of expressions, and of what stands in brackets.
#![tactic(auto)]

mod argument;
mod bracket;
mod element;
mod list;

pub use argument::arguments;
pub use bracket::{index, paren};
pub use element::elements;
pub use list::{exprs, values};
