//! The first form of a source file.
#![tactic(auto)]

mod body;
mod fault;
mod first;
mod functions;
mod literals;
mod names;
mod operand;
mod parts;
mod scope;
mod tree;
mod variables;
mod words;

pub use fault::FirstFault;
pub use first::first_form;
pub use names::is_name;
pub use tree::{FirstExpr, FirstFile, FirstFunc, FirstOp, FirstStmt};

#[cfg(test)]
mod tests;
