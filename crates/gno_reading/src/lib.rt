//! What a source text is read as.
#![tactic(auto)]

mod reading;

pub use reading::{NoMemory, Reading, one_reading, read_text};

#[cfg(test)]
mod tests;
