//! Grammars as data: one token in hand decides. What a grammar reads, the reader, and that the two agree.
#![tactic(auto)]

mod refusal;

pub use refusal::{LeftOut, Refusal};
