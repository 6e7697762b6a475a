//! The readers of simple statements.
#![tactic(auto)]

mod left;
mod operator;
mod simple;
mod simple_value;
mod tail;

pub use simple::simple_statements;
