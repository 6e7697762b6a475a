//! Types and constants.
#![tactic(auto)]

mod table;

pub use gno_constants::{Constant, FoldFault, FoldOp, fold};
pub use gno_selectors::{Passed, Selection};
pub use gno_terms::{Field, Method, Term, TypeRef};
pub use gno_typed::CodeId;
pub use table::{NoMemory, Types};

#[cfg(test)]
mod tests;
