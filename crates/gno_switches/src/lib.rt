//! The readers of `switch`.
#![tactic(auto)]

mod begins;
mod header_value;
mod switch_header;
mod switches;

pub use switches::switch_statement;
