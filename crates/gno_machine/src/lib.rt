//! Runs the functions of files in the first form.
#![tactic(auto)]

mod run;

pub use run::{FirstEnd, NoMemory, run_first};

#[cfg(test)]
mod tests;
