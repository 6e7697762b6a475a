//! The script: its grammar, and its reader.
//!
//! A script is lines, each ended by a line feed; a last line without one counts. Its items are
//!
//! ```text
//! add BUDGET CALLER PATH         then one file, and the line `end`
//! call BUDGET CALLER PATH FUNC   then the line `end`
//! reload
//! ```
//!
//! and a file is the line `file NAME` and then its source lines, each after a `|`. Words stand apart by one space.
//! Between items, empty lines and lines that begin with `#` are skipped.
#![tactic(auto)]

mod heading;
mod item;
mod line;
mod script;
mod stage;
mod word;

pub use item::Item;
pub use script::{ScriptError, no_fault, one_fault, one_script, read_script};

#[cfg(test)]
mod tests;
