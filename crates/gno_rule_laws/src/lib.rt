//! The laws of the grammar: one token in hand decides, so the tokens of a text have one tree, or one fault.
#![tactic(auto)]

mod laws;

pub use laws::{one_outcome, one_tree};
