//! The readers of statements: blocks, and the bodies of `switch`.
#![tactic(auto)]

mod begins;
mod blocks;
mod cases;
mod keyword;
mod labeled;
mod list_value;

pub use blocks::block;
pub use cases::switch_body;
