//! The tree of a source text, or its first fault.
#![tactic(auto)]

mod construct;
mod fault;
mod level;
mod parse;

pub use fault::SyntaxFault;
pub use gno_grammar::LeftOut;
pub use gno_tree::FileTree;
pub use parse::parse_file;

#[cfg(test)]
mod tests;
