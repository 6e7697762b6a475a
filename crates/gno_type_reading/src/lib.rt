//! Types read from their texts.
#![tactic(auto)]

mod close;
mod cursor;
mod frame;
mod guess;
mod lawful;
mod lists;
mod names;
mod open;
mod read;
mod words;

pub use lawful::{is_lawful_name, is_owned_name};
pub use names::is_name;
pub use read::read_text;

#[cfg(test)]
mod tests;
