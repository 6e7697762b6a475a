//! The tokens of a source text.
#![tactic(auto)]

mod beginning;
mod character;
mod class;
mod closed;
mod escape;
mod judge;
mod kind;
mod name;
mod number;
mod operator;
mod piece;
mod quoted;
mod scanner;
mod token;
mod tokens;

pub use kind::TokenKind;
pub use token::{Pos, ScanFault, Token};
pub use tokens::{one_answer, one_list, scan};
