//! The texts of types.
#![tactic(auto)]

mod functions;
mod heads;
mod members;
mod piece;
mod pieces;
mod terms;
mod text;
mod writer;

pub use text::type_text;

#[cfg(test)]
mod tests;
