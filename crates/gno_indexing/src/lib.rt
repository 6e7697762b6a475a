//! Index expressions, and values that count elements: indexes, bounds of slices, sizes of `make`.
#![tactic(auto)]

mod counting;
mod indexes;
mod number;

pub use counting::{counted, end_below, taken};
pub use indexes::index;
pub use number::Counted;

#[cfg(test)]
mod tests;
