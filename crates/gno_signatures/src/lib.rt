//! The readers of parameters and signatures.
#![tactic(auto)]

mod entry;
mod parameters;
mod signatures;

pub use signatures::signature;
