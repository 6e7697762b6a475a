//! The first format of a table: the rows of the packages that are held, their loading, and what a commit writes.
#![tactic(auto)]

mod commit;
mod loading;
mod reading;
mod rows;
mod sources;
#[cfg(test)]
mod tests;

pub use commit::{add_package, store_values};
pub use loading::{LoadFault, load, one_memory};
